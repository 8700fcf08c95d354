// The marks of the places that were chosen.
ghost use Rattle.std.specs.Prelude.{◌≡◌, ℕ, ◌||◌, eqb, [], length, OnOk, OnErr, IfOk};
ghost use Rattle.std.specs.Ordering.{nat_cmp};
ghost use Rattle.std.specs.BTreeSet.{insert_key};
ghost use Rattle.std.specs.List.Sorted.{IsSearchInRange, IsBinarySearchResult};
ghost use Rattle.marked_tree.specs.Numbers.{has as has_number, IsRising};

use sd_outside::NoMemory;
use std::alloc::Global;
use std::marker::Model;

/// A set of marks. Contracts see its numbers in rising order. One of many marks
/// is made of all of them at once.
#[derive(Debug, Drop)]
pub struct ChosenSet {
    marks: Vec<u32>,
}

impl Model for ChosenSet {
    ghost use Rattle.std.specs.Prelude.{List, ℕ};

    ghost Value = { List ℕ };

    ghost view = { λ s. s.marks.items };

    ghost use Rattle.marked_tree.specs.Numbers.{IsRising};

    ghost invariant = { λ s. IsRising s.marks.items };
}

// Where a mark stands among rising ones, or where it would go: by few comparisons at the end.
fn search_from_end(marks: &[u32], mark: u32) -> Result<usize, usize>
    requires { IsRising marks.now }
    ensures bound { IsSearchInRange result (length marks.now) }
    ensures position { IsBinarySearchResult (λ m. nat_cmp m mark) marks.now result }
{
    match marks.last() {
        Some(last) if *last < mark => Err(marks.len()),
        Some(last) if *last == mark => Ok(marks.len() - 1),
        _ => marks.binary_search(&mark),
    }
}

impl ChosenSet {
    /// No marks. It takes no memory.
    pub fn new(alloc: Global) -> ChosenSet
        ensures { result ≡ [] }
    {
        ChosenSet {
            marks: Vec::new(alloc),
        }
    }

    /// The set of these marks, in whatever order they stand.
    pub fn of(alloc: Global, marks: Vec<u32>) -> Result<ChosenSet, NoMemory>
        ensures { IfOk result (λ set. (i : ℕ) → has_number set i ≡ has_number marks.items i) }
    {
        let mut marks = marks;
        marks.sort_unstable();
        let mut set = ChosenSet::new(alloc);
        for mark in marks {
            set.add(mark)?;
        }
        Ok(set)
    }

    /// Adds a mark, unless it is there. Each mark that is greater moves one place.
    pub fn add(&mut self, mark: u32) -> Result<(), NoMemory>
        ensures ok { OnOk result (self.new ≡ insert_key nat_cmp self.old mark) }
        ensures has { OnOk result
            ((i : ℕ) → has_number self.new i ≡ (eqb i mark || has_number self.old i)) }
        ensures err { OnErr result (self.new ≡ self.old) }
    {
        if let Err(position) = search_from_end(&self.marks, mark) {
            self.marks.insert(position, mark)?;
        }
        Ok(())
    }

    /// Whether the mark is there.
    pub fn has(&self, mark: u32) -> bool
        ensures { result ≡ has_number self.now mark }
    {
        self.marks.binary_search(&mark).is_ok()
    }

    /// The marks, in rising order.
    pub fn marks(&self) -> &[u32]
        ensures all { result.now ≡ self.now }
        ensures rising { IsRising self.now }
    {
        self.marks.as_slice()
    }

    /// The number of marks.
    pub fn len(&self) -> usize
        ensures count { result ≡ length self.now }
        ensures rising { IsRising self.now }
    {
        self.marks.len()
    }
}
