// Which disclosures are reached, and the met list, over numbers.
ghost use Rattle.std.specs.Prelude.{◌≡◌, ◌<◌, ◌≤◌, ◌++◌, ◌∷◌, [], ℕ, suc, true, false, length, IfOk, OnOk, slice_index_or, replicate, MatchOption};
ghost use Rattle.sd_outside.specs.Lists.{In, AtNone, IsLeast, Repeats};
ghost use Rattle.rebuild_core.specs.Graph.{pieces_at, Ascends, roots_in, rows_in, is_met_in, mark_one, mark_all, flagged_rows, IsClear};

use sd_outside::NoMemory;
use std::alloc::Global;

// The numbers of the digests of the payload and of each value.
#[derive(Debug, Drop)]
pub(crate) struct Graph {
    pub numbers: Vec<usize>,
    // Where those of the payload end, and then those of each value.
    pub ends: Vec<usize>,
}

impl Graph {
    // Where the numbers of a tree begin.
    fn start(&self, tree: usize) -> usize
        requires { tree < length self.now.ends.items }
        ensures { result ≡ slice_index_or (0 ∷ self.now.ends.items) tree 0 }
    {
        if tree == 0 { 0 } else { self.ends[tree - 1] }
    }

    // Where they end.
    #[tactic(auto, using(crate::proofs::Cuts::ascends_at))]
    fn end(&self, tree: usize) -> usize
        requires ascends { Ascends 0 self.now.ends.items (length self.now.numbers.items) }
        requires tree { tree < length self.now.ends.items }
        ensures value { result ≡ slice_index_or self.now.ends.items tree 0 }
        ensures after { slice_index_or (0 ∷ self.now.ends.items) tree 0 ≤ result }
        ensures within { result ≤ length self.now.numbers.items }
    {
        self.ends[tree]
    }

    // The numbers of a tree: 0 is the payload, and k + 1 value k.
    #[tactic(auto, using(crate::proofs::Cuts::cut_at))]
    fn row(&self, tree: usize) -> &[usize]
        requires ascends { Ascends 0 self.now.ends.items (length self.now.numbers.items) }
        requires tree { tree < length self.now.ends.items }
        ensures { result.now
            ≡ slice_index_or (pieces_at 0 self.now.ends.items self.now.numbers.items) tree [] }
    {
        let start = self.start(tree);
        let end = self.end(tree);
        &self.numbers[start..end]
    }
}

// So many flags, none of which is set.
fn cleared(alloc: Global, count: usize) -> Result<Vec<bool>, NoMemory>
    ensures { IfOk result (λ flags. flags.items ≡ replicate count false) }
{
    Ok(vec![in alloc; false; count]?)
}

// Whether a flag is set. Past the end each counts as set.
fn is_set(flags: &[bool], k: usize) -> bool
    ensures { result ≡ slice_index_or flags.now k true }
{
    k >= flags.len() || flags[k]
}

// Marks a number, and puts it last in the order, unless it is marked or too large.
fn mark(flags: &mut Vec<bool>, order: &mut Vec<usize>, k: usize) -> Result<(), NoMemory>
    ensures flags { OnOk result
        (flags.new.items ≡ (mark_one k (flags.old.items, order.old.items)).0) }
    ensures order { OnOk result
        (order.new.items ≡ (mark_one k (flags.old.items, order.old.items)).1) }
{
    if !is_set(flags.as_slice(), k) {
        flags[k] = true;
        order.push(k)?;
    }
    Ok(())
}

// Marks each number of a row in turn.
fn mark_row(flags: &mut Vec<bool>, order: &mut Vec<usize>, row: &[usize]) -> Result<(), NoMemory>
    ensures flags { OnOk result
        (flags.new.items ≡ (mark_all row.now (flags.old.items, order.old.items)).0) }
    ensures order { OnOk result
        (order.new.items ≡ (mark_all row.now (flags.old.items, order.old.items)).1) }
{
    for k in row {
        mark(flags, order, *k)?;
    }
    Ok(())
}

// Which disclosures are reached, from the payload on.
pub(crate) fn reach(alloc: Global, count: usize, graph: &Graph) -> Result<Vec<bool>, NoMemory>
    requires ascends { Ascends 0 graph.now.ends.items (length graph.now.numbers.items) }
    requires count { length graph.now.ends.items ≡ suc count }
    ensures length { IfOk result (λ flags. length flags.items ≡ count) }
    ensures exact { IfOk result
        (λ flags. (k : ℕ) → k < count
        → slice_index_or flags.items k false
        ≡ is_met_in (roots_in graph.now.ends.items graph.now.numbers.items)
        (rows_in graph.now.ends.items graph.now.numbers.items) count k) }
{
    let mut flags = cleared(alloc, count)?;
    let mut order = Vec::with_capacity(alloc, count)?;
    mark_row(&mut flags, &mut order, graph.row(0))?;
    let mut head = 0;
    while head < order.len() {
        let k = order[head];
        mark_row(&mut flags, &mut order, graph.row(k + 1))?;
        head += 1;
    }
    Ok(flags)
}

// The numbers of the payload, and then those of the values that are flagged.
pub(crate) fn met_numbers(
    alloc: Global,
    graph: &Graph,
    flags: &[bool],
) -> Result<Vec<usize>, NoMemory>
    requires ascends { Ascends 0 graph.now.ends.items (length graph.now.numbers.items) }
    requires flags { length graph.now.ends.items ≡ suc (length flags.now) }
    ensures { IfOk result
        (λ met. met.items
        ≡ roots_in graph.now.ends.items graph.now.numbers.items
        ++ flagged_rows flags.now (rows_in graph.now.ends.items graph.now.numbers.items)) }
{
    let mut met = Vec::with_capacity(alloc, graph.numbers.len())?;
    met.extend_from_slice(graph.row(0))?;
    for (k, flag) in flags.iter().enumerate() {
        if *flag {
            met.extend_from_slice(graph.row(k + 1))?;
        }
    }
    Ok(met)
}

// The first number that equals an earlier one.
pub(crate) fn first_recurring(
    alloc: Global,
    count: usize,
    numbers: &[usize],
) -> Result<Option<usize>, NoMemory>
    requires { (k : ℕ) → In k numbers.now → k < count }
    ensures { IfOk result
        (λ r. MatchOption r (AtNone (Repeats numbers.now))
        (λ place. IsLeast (Repeats numbers.now) place)) }
{
    let mut seen = cleared(alloc, count)?;
    for (place, k) in numbers.iter().enumerate() {
        if is_set(seen.as_slice(), *k) {
            return Ok(Some(place));
        }
        seen[*k] = true;
    }
    Ok(None)
}

// The first flag that is not set.
pub(crate) fn first_clear(flags: &[bool]) -> Option<usize>
    ensures { MatchOption result (AtNone (IsClear flags.now)) (λ i. IsLeast (IsClear flags.now) i) }
{
    for (i, flag) in flags.iter().enumerate() {
        if !*flag {
            return Some(i);
        }
    }
    None
}
