// The disclosures that came with a token, each with its digest.
ghost use Rattle.std.specs.Prelude.{◌≡◌, ◌≤◌, [], ◌∷◌, ◌++◌, map, length, IfOk, OnOk, OnErr, MatchOption, option_map, slice_get};
ghost use Rattle.sd_outside.specs.Lists.{StandsAt};
ghost use Rattle.claim_tree.specs.View.{tree_of};
ghost use Rattle.digest_sites.specs.Given.{Given as Seen};
ghost use Rattle.digest_sites.specs.GivenView.{given_of, emptied};

use claim_tree::Tree;
use sd_outside::{NoMemory, TextBox};
use std::alloc::Global;
use std::marker::Model;
use std::mem::replace;

/// What a disclosure gives, RFC 9901 section 4.2. Contracts see it by `given_of`.
#[derive(Debug, Drop)]
pub struct Given {
    /// The digest of the disclosure.
    pub digest: TextBox,
    /// The name of a member, none for an element.
    pub name: Option<TextBox>,
    pub value: Tree,
}

/// Given disclosures in order. Contracts see the list of them.
#[derive(Debug, Drop)]
pub struct GivenList {
    items: Vec<Given>,
}

impl Model for GivenList {
    ghost use Rattle.std.specs.Prelude.{List, map};
    ghost use Rattle.digest_sites.specs.Given.{Given as Seen};

    ghost Value = { List Seen };

    ghost use Rattle.digest_sites.specs.Code.{given_code};

    ghost coded = { given_code };

    ghost use Rattle.digest_sites.specs.GivenView.{given_of};

    ghost view = { λ l. map given_of l.items.items };
}

impl GivenList {
    /// No disclosures. It takes no memory.
    pub fn new(alloc: Global) -> GivenList
        ensures { result ≡ [] }
    {
        GivenList {
            items: Vec::new(alloc),
        }
    }

    /// No disclosures, with memory for so many.
    pub fn with_capacity(alloc: Global, count: usize) -> Result<GivenList, NoMemory>
        ensures { IfOk result (λ list. list ≡ []) }
    {
        let items = Vec::with_capacity(alloc, count)?;
        Ok(GivenList { items })
    }

    /// Adds a disclosure at the end.
    pub fn push(&mut self, item: Given) -> Result<(), NoMemory>
        ensures ok { OnOk result (self.new ≡ self.old ++ given_of item ∷ []) }
        ensures err { OnErr result (self.new ≡ self.old) }
    {
        self.items.push(item)?;
        Ok(())
    }

    /// The disclosures, in their order.
    pub fn items(&self) -> &[Given]
        ensures { map given_of result.now ≡ self.now }
    {
        self.items.as_slice()
    }

    /// The number of disclosures.
    pub fn len(&self) -> usize
        ensures { result ≡ length self.now }
    {
        self.items().len()
    }

    /// Takes the name and the value of the disclosure at a position, and leaves no name and null.
    pub fn take(&mut self, i: usize) -> Option<(Option<TextBox>, Tree)>
        ensures taken { MatchOption result (length self.old ≤ i)
            (λ one.
            (x : Seen) × StandsAt self.old i x × (one.0 ≡ x.name) × (tree_of one.1 ≡ x.value)) }
        ensures left { self.new ≡ emptied self.old i }
    {
        if i < self.items.len() {
            let item = &mut self.items[i];
            let value = replace(&mut item.value, Tree::Null);
            Some((item.name.take(), value))
        } else {
            None
        }
    }

    /// The disclosure at a position, counted from 0.
    pub fn at(&self, i: usize) -> Option<&Given>
        ensures { option_map (λ g. given_of g.now) result ≡ slice_get self.now i }
    {
        self.items().get(i)
    }
}
