// Texts, numbered in the order in which they are first seen.
ghost use Rattle.std.specs.Prelude.{◌≡◌, [], length, None, bytes_eq, IfOk, OnErr, OnOk};
ghost use Rattle.std.specs.List.{IsDistinct};
ghost use Rattle.digest_index.specs.Index.{interned, position_of, position_or_end, ticked};

use crate::Steps;
use crate::seeded::Seeded;
use indexmap::IndexSet;
use sd_outside::NoMemory;
use std::alloc::Global;
use std::marker::Model;

/// Distinct texts, borrowed, in the order in which they were first seen.
/// Contracts see the list of them.
///
/// A position never changes, and a look-up costs one hash of the text, which begins with a seed.
/// Someone who picks the texts and knows the seed can pick ones that collide.
#[derive(Debug, Drop)]
pub struct DigestIndex<'a> {
    texts: IndexSet<&'a str, Seeded>,
}

impl<'a> Model for DigestIndex<'a> {
    ghost use Rattle.std.specs.Prelude.{List, ℕ, map, bytes_eq};
    ghost use Rattle.std.specs.List.{IsDistinct};

    ghost Value = { List (List ℕ) };

    ghost view = { λ d. map (λ t. t.now) d.texts.keys };

    ghost invariant = { λ d. IsDistinct bytes_eq (map (λ t. t.now) d.texts.keys) };
}

impl<'a> DigestIndex<'a> {
    /// No texts, for who trusts those that are to come: the seed is 0. It takes no memory.
    pub fn new(alloc: Global) -> DigestIndex<'a>
        ensures { result ≡ [] }
    {
        DigestIndex {
            texts: IndexSet::with_hasher(alloc, Seeded::new(0)),
        }
    }

    /// No texts, with memory for so many, whose hashes are to begin with this seed.
    ///
    /// No contract speaks of the seed: it changes no answer, but which texts
    /// are slow to look up together.
    pub fn with_seed(alloc: Global, count: usize, seed: u64) -> Result<DigestIndex<'a>, NoMemory>
        ensures { IfOk result (λ index. index ≡ []) }
    {
        let texts = IndexSet::with_capacity_and_hasher(alloc, count, Seeded::new(seed))?;
        Ok(DigestIndex { texts })
    }

    /// The number of texts.
    pub fn len(&self) -> usize
        ensures len { result ≡ length self.now }
        ensures distinct { IsDistinct bytes_eq self.now }
    {
        self.texts.len()
    }

    /// The position of a text, counted from 0, which is put at the end where it is new.
    ///
    /// A text that is there takes no memory.
    pub fn intern(&mut self, text: &'a str, steps: &mut Steps) -> Result<usize, NoMemory>
        ensures position { IfOk result (λ position. position ≡ position_or_end text.now self.old) }
        ensures ok { OnOk result (self.new ≡ interned text.now self.old) }
        ensures err { OnErr result (self.new ≡ self.old) }
        ensures only_new { OnErr result (position_of text.now self.old ≡ None) }
        ensures distinct { IsDistinct bytes_eq self.new }
        ensures ticked { steps.new ≡ ticked steps.old }
    {
        steps.tick();
        let (position, _) = self.texts.insert_full(text)?;
        Ok(position)
    }

    /// The position of a text, counted from 0, where it is there. It takes no memory.
    pub fn find(&self, text: &str, steps: &mut Steps) -> Option<usize>
        ensures position { result ≡ position_of text.now self.now }
        ensures distinct { IsDistinct bytes_eq self.now }
        ensures ticked { steps.new ≡ ticked steps.old }
    {
        steps.tick();
        self.texts.get_index_of(text)
    }
}
