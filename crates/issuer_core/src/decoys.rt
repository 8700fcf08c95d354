// Decoys' digests at their places, for the walk that hides.
ghost use Rattle.std.specs.Prelude.{◌≡◌, ◌+◌, ◌≤◌, [], ◌∷◌, ◌++◌, length, take, replicate, decimal, IfOk, IsTrue, OnOk};
ghost use Rattle.marked_tree.specs.Paths.{Path as Steps};
ghost use Rattle.marked_tree.specs.Rests.{path_order, AreSorted};
ghost use Rattle.issuer_core.specs.Decoys.{decoy_paths};
ghost use Rattle.issuer_core.specs.Laying.{digests_on_path, placed_at, paths_in, digests_in, ArePlaced, EndHere};

use crate::DecoyList;
use claim_tree::Path;
use itoa::Buffer;
use marked_tree::{compare_paths, run_below};
use sd_outside::{NoMemory, TextBox, TextList};
use std::alloc::Global;
use std::cmp::Ordering;

// The digests of decoys, sorted by their places; those of one place in the order of their pieces.
#[derive(Debug, Drop)]
pub(crate) struct SortedDecoys {
    paths: Vec<Path>,
    digests: Vec<TextBox>,
}

// Those at a place, which they come to by their first `depth` steps, and below it.
#[derive(Clone, Copy, Debug)]
pub(crate) struct Decoys<'a> {
    paths: &'a [Path],
    digests: &'a [TextBox],
    depth: usize,
}

impl SortedDecoys {
    pub(crate) fn all(&self) -> Decoys<'_>
        ensures paths { result.paths.now ≡ self.now.paths.items }
        ensures digests { result.digests.now ≡ self.now.digests.items }
        ensures depth { result.depth ≡ 0 }
    {
        Decoys {
            paths: self.paths.as_slice(),
            digests: self.digests.as_slice(),
            depth: 0,
        }
    }
}

impl<'a> Decoys<'a> {
    // The digests of those at the place.
    pub(crate) fn here(&self) -> &'a [TextBox]
        requires { ArePlaced self.now }
        ensures { result.now ≡ placed_at self.now [] }
    {
        let count = self.paths.partition_point(|path| path.len() <= self.depth);
        &self.digests[..count]
    }

    // Whether there is none below the place: those at it come first.
    fn end_here(&self) -> bool
        requires { ArePlaced self.now }
        ensures { IsTrue result → EndHere self.now }
    {
        match self.paths.last() {
            Some(path) => path.len() <= self.depth,
            None => true,
        }
    }

    // None, at a place that is one step further.
    fn none_below(&self) -> Decoys<'a>
        requires { self.now.depth ≤ 126 }
        ensures placed { ArePlaced result }
        ensures none { (at : Steps) → placed_at result at ≡ [] }
        ensures depth { result.depth ≡ self.now.depth + 1 }
    {
        Decoys {
            paths: &self.paths[..0],
            digests: &self.digests[..0],
            depth: self.depth + 1,
        }
    }

    // Those at and below the place that is one step further.
    pub(crate) fn below(&self, step: &str) -> Decoys<'a>
        requires fits { self.now.depth ≤ 126 }
        requires placed { ArePlaced self.now }
        ensures placed { ArePlaced result }
        ensures below { (at : Steps) → placed_at result at ≡ placed_at self.now (step.now ∷ at) }
        ensures depth { result.depth ≡ self.now.depth + 1 }
    {
        if self.end_here() {
            return self.none_below();
        }
        self.search_below(step)
    }

    // The same for an element of a list. The digits of its position are written
    // only where they are compared.
    pub(crate) fn below_element(&self, i: usize) -> Decoys<'a>
        requires fits { self.now.depth ≤ 126 }
        requires placed { ArePlaced self.now }
        ensures placed { ArePlaced result }
        ensures below { (at : Steps) → placed_at result at ≡ placed_at self.now (decimal i ∷ at) }
        ensures depth { result.depth ≡ self.now.depth + 1 }
    {
        if self.end_here() {
            return self.none_below();
        }
        let mut digits = Buffer::new();
        self.search_below(digits.format(i))
    }

    // The same, searched for.
    fn search_below(&self, step: &str) -> Decoys<'a>
        requires fits { self.now.depth ≤ 126 }
        requires placed { ArePlaced self.now }
        ensures placed { ArePlaced result }
        ensures below { (at : Steps) → placed_at result at ≡ placed_at self.now (step.now ∷ at) }
        ensures depth { result.depth ≡ self.now.depth + 1 }
    {
        let (start, count) = run_below(self.paths, self.depth, step);
        Decoys {
            paths: &self.paths[start..][..count],
            digests: &self.digests[start..][..count],
            depth: self.depth + 1,
        }
    }
}

pub(crate) fn sort_decoys(
    alloc: Global,
    decoys: &DecoyList,
    digests: &TextList,
) -> Result<SortedDecoys, NoMemory>
    requires { length digests.now ≡ length (decoy_paths decoys.now) }
    ensures sorted { IfOk result (λ sorted. AreSorted sorted.paths.items) }
    ensures each { IfOk result (λ sorted. length sorted.digests.items ≡ length sorted.paths.items) }
    ensures placed { IfOk result
        (λ sorted. (at : Steps)
        → digests_on_path sorted.paths.items sorted.digests.items at
        ≡ digests_on_path (decoy_paths decoys.now) digests.now at) }
{
    let mut entries = Vec::with_capacity(alloc, digests.len())?;
    for decoy in decoys.elements() {
        push_entries(alloc, &mut entries, &decoy.at, decoy.count, digests)?;
    }
    entries.sort_by(|one, other| ordered(one, other))?;
    parted(alloc, entries)
}

// So many more entries with this path, each with the next digest.
fn push_entries(
    alloc: Global,
    entries: &mut Vec<(Path, TextBox)>,
    at: &Path,
    count: u32,
    digests: &TextList,
) -> Result<(), NoMemory>
    requires few { length entries.old.items + count ≤ length digests.now }
    requires digests { digests_in entries.old.items ≡ take (length entries.old.items) digests.now }
    ensures paths { OnOk result
        (paths_in entries.new.items ≡ paths_in entries.old.items ++ replicate count at.now) }
    ensures digests { OnOk result
        (digests_in entries.new.items ≡ take (length entries.new.items) digests.now) }
{
    for _ in 0..count {
        let Some(digest) = digests.at(entries.len()) else {
            unreachable!();
        };
        entries.push((at.copy(alloc)?, TextBox::make(alloc, digest.as_str())?))?;
    }
    Ok(())
}

// By their paths.
fn ordered(one: &(Path, TextBox), other: &(Path, TextBox)) -> Ordering
    ensures { result ≡ path_order one.now.0 other.now.0 }
{
    compare_paths(&one.0, &other.0)
}

fn parted(alloc: Global, entries: Vec<(Path, TextBox)>) -> Result<SortedDecoys, NoMemory>
    ensures paths { IfOk result (λ parted. parted.paths.items ≡ paths_in entries.items) }
    ensures digests { IfOk result (λ parted. parted.digests.items ≡ digests_in entries.items) }
{
    let mut paths = Vec::with_capacity(alloc, entries.len())?;
    let mut digests = Vec::with_capacity(alloc, entries.len())?;
    for (path, digest) in entries {
        paths.push(path)?;
        digests.push(digest)?;
    }
    Ok(SortedDecoys { paths, digests })
}
