// Whether each disclosure stands at one place.
ghost use Rattle.std.specs.Prelude.{◌≡◌, ◌<◌, ◌≤◌, ℕ, suc, map, length, IfOk, OnOk, IfErr, MatchOption};
ghost use Rattle.sd_outside.specs.Limits.{json_depth_max};
ghost use Rattle.sd_outside.specs.Lists.{In, AtNone, IsLeast, Repeats};
ghost use Rattle.claim_tree.specs.Tree.{depth};
ghost use Rattle.claim_tree.specs.View.{tree_of};
ghost use Rattle.rebuild_core.specs.Answer.{IsPayload, ValuesShallow, IsProcessRefused};
ghost use Rattle.rebuild_core.specs.Conditions.{RepeatedDisclosure, Misused};
ghost use Rattle.rebuild_core.specs.Soundness.{IsReferencedOnce};
ghost use Rattle.rebuild_core.specs.Reached.{given_digests};
ghost use Rattle.rebuild_core.specs.LookUps.{look_ups, counted, RoseWithin};
ghost use Rattle.rebuild_core.specs.Graph.{Ascends};
ghost use Rattle.rebuild_core.specs.Cursor.{NumbersTell};
ghost use Rattle.rebuild_core.specs.Met.{met_in, IsGivenRefusal};
ghost use Rattle.rebuild_core.specs.DigestNumbers.{numbers, all_interned, row_texts, IsFlatList, IsNumbered};
ghost use Rattle.rebuild_core.specs.Payload.{without_alg};
ghost use Rattle.rebuild_core.specs.Rows.{seen, all_rows as rows_of};

use crate::errors::ProcessError;
use crate::graph::{Graph, first_clear, first_recurring, met_numbers, reach};
use crate::numbers::{number_given, number_rows};
use crate::rows::{Row, RowList, all_rows};
use claim_tree::Tree;
use digest_index::{DigestIndex, Steps};
use digest_sites::{GivenList, is_misused};
use sd_outside::NoMemory;
use std::alloc::Global;

// The digests of a payload and of all values, where each disclosure stands at one of them.
#[derive(Debug, Drop)]
pub(crate) struct References<'a> {
    pub rows: Vec<Row<'a>>,
    // The number of each row: that of the disclosure with the digest, or one
    // that no disclosure has.
    pub graph: Graph,
}

// The first tree that misuses a reserved name: 0 is the payload, and i + 1 value i.
fn first_misused(payload: &Tree, given: &GivenList) -> Option<usize>
    requires { IsPayload (tree_of payload.now) }
    ensures { MatchOption result (AtNone (Misused (without_alg (tree_of payload.now)) given.now))
        (λ i. IsLeast (Misused (without_alg (tree_of payload.now)) given.now) i) }
{
    payload.invariant();
    if is_misused(payload) {
        return Some(0);
    }
    for (i, item) in given.items().iter().enumerate() {
        if is_misused(&item.value) {
            return Some(i + 1);
        }
    }
    None
}

// The digests in numbers, before it is known which disclosures are reached.
#[derive(Debug, Drop)]
struct Numbered<'a> {
    rows: Vec<Row<'a>>,
    graph: Graph,
    index: DigestIndex<'a>,
}

// The digests of the disclosures by number, where none is given twice.
fn index_given<'a>(
    alloc: Global,
    given: &'a GivenList,
    seed: u64,
    steps: &mut Steps,
) -> Result<DigestIndex<'a>, ProcessError>
    ensures repeated { IfOk result (λ _. AtNone (RepeatedDisclosure given.now)) }
    ensures index { IfOk result (λ index. index ≡ given_digests given.now) }
    ensures refused { IfErr result (IsGivenRefusal given.now) }
    ensures counted { IfOk result (λ _. steps.new ≡ counted steps.old (length given.now)) }
    ensures risen { RoseWithin (length given.now) steps.old steps.new }
{
    let mut index = DigestIndex::with_seed(alloc, given.len(), seed)?;
    match number_given(given, &mut index, steps) {
        Ok(None) => Ok(index),
        Ok(Some(i)) => Err(ProcessError::RepeatedDisclosure(i)),
        Err(_) => Err(ProcessError::Memory),
    }
}

// The digests of rows by number, after those of the disclosures.
fn number_list<'a>(
    alloc: Global,
    list: RowList<'a>,
    index: DigestIndex<'a>,
    steps: &mut Steps,
) -> Result<Numbered<'a>, NoMemory>
    ensures rows { IfOk result (λ found. found.rows.items ≡ list.entry.rows.items) }
    ensures ends { IfOk result (λ found. found.graph.ends.items ≡ list.entry.ends.items) }
    ensures numbers { IfOk result
        (λ found.
        found.graph.numbers.items ≡ numbers index.entry (row_texts list.entry.rows.items)) }
    ensures index { IfOk result
        (λ found. found.index ≡ all_interned index.entry (row_texts list.entry.rows.items)) }
    ensures counted { IfOk result
        (λ _. steps.new ≡ counted steps.old (length list.entry.rows.items)) }
    ensures risen { RoseWithin (length list.entry.rows.items) steps.old steps.new }
{
    let mut index = index;
    let numbers = number_rows(alloc, list.rows.as_slice(), &mut index, steps)?;
    let RowList { rows, ends } = list;
    Ok(Numbered {
        rows,
        graph: Graph { numbers, ends },
        index,
    })
}

// Judges that no disclosure is given twice and no reserved name is misused, and
// numbers the digests.
fn number_all<'a>(
    alloc: Global,
    payload: &'a Tree,
    given: &'a GivenList,
    seed: u64,
    steps: &mut Steps,
) -> Result<Numbered<'a>, ProcessError>
    requires object { IsPayload (tree_of payload.now) }
    requires payload { depth (tree_of payload.now) ≤ json_depth_max }
    requires values { ValuesShallow given.now }
    ensures repeated { IfOk result (λ _. AtNone (RepeatedDisclosure given.now)) }
    ensures misused { IfOk result
        (λ _. AtNone (Misused (without_alg (tree_of payload.now)) given.now)) }
    ensures rows { IfOk result
        (λ found. map seen found.rows.items ≡ rows_of (tree_of payload.now) given.now) }
    ensures flat { IfOk result
        (λ found. IsFlatList (tree_of payload.now) given.now found.index found.graph.numbers.items
        found.graph.ends.items) }
    ensures refused { IfErr result
        (IsProcessRefused (without_alg (tree_of payload.now)) given.now) }
    ensures counted { IfOk result
        (λ _. steps.new
        ≡ counted steps.old (look_ups (without_alg (tree_of payload.now)) given.now)) }
    ensures risen { RoseWithin (look_ups (without_alg (tree_of payload.now)) given.now) steps.old
        steps.new }
{
    payload.invariant();
    let index = match index_given(alloc, given, seed, steps) {
        Ok(index) => index,
        Err(error) => return Err(error),
    };
    if let Some(i) = first_misused(payload, given) {
        return Err(ProcessError::ReservedMisused(i));
    }
    let list = match all_rows(alloc, payload, given) {
        Ok(list) => list,
        Err(_) => return Err(ProcessError::Memory),
    };
    match number_list(alloc, list, index, steps) {
        Ok(found) => Ok(found),
        Err(_) => Err(ProcessError::Memory),
    }
}

// The first number of the met list that equals an earlier one.
fn first_met_twice(
    alloc: Global,
    graph: &Graph,
    flags: &[bool],
    count: usize,
) -> Result<Option<usize>, NoMemory>
    requires ascends { Ascends 0 graph.now.ends.items (length graph.now.numbers.items) }
    requires flags { length graph.now.ends.items ≡ suc (length flags.now) }
    requires below { (k : ℕ) → In k (met_in graph.now flags.now) → k < count }
    ensures { IfOk result
        (λ r. MatchOption r (AtNone (Repeats (met_in graph.now flags.now)))
        (λ place. IsLeast (Repeats (met_in graph.now flags.now)) place)) }
{
    let met = met_numbers(alloc, graph, flags)?;
    first_recurring(alloc, count, met.as_slice())
}

// Judges that no digest of the met list repeats, and each disclosure is reached.
fn check_met(
    alloc: Global,
    payload: &Tree,
    given: &GivenList,
    numbered: &Numbered<'_>,
) -> Result<(), ProcessError>
    requires object { IsPayload (tree_of payload.now) }
    requires flat { IsFlatList (tree_of payload.now) given.now numbered.now.index
        numbered.now.graph.numbers.items numbered.now.graph.ends.items }
    requires repeated { AtNone (RepeatedDisclosure given.now) }
    requires misused { AtNone (Misused (without_alg (tree_of payload.now)) given.now) }
    ensures referenced { OnOk result
        (IsReferencedOnce (without_alg (tree_of payload.now)) given.now) }
    ensures refused { IfErr result
        (IsProcessRefused (without_alg (tree_of payload.now)) given.now) }
{
    payload.invariant();
    let flags = match reach(alloc, given.len(), &numbered.graph) {
        Ok(flags) => flags,
        Err(_) => return Err(ProcessError::Memory),
    };
    let flags = flags.as_slice();
    match first_met_twice(alloc, &numbered.graph, flags, numbered.index.len()) {
        Ok(None) => (),
        Ok(Some(place)) => return Err(ProcessError::RepeatedDigest(place)),
        Err(_) => return Err(ProcessError::Memory),
    }
    if let Some(i) = first_clear(flags) {
        return Err(ProcessError::Unreferenced(i));
    }
    Ok(())
}

// Judges that no disclosure is given twice, no reserved name is misused, no digest of the met list
// repeats, and each disclosure is reached.
pub(crate) fn check_references<'a>(
    alloc: Global,
    payload: &'a Tree,
    given: &'a GivenList,
    seed: u64,
    steps: &mut Steps,
) -> Result<References<'a>, ProcessError>
    requires object { IsPayload (tree_of payload.now) }
    requires payload { depth (tree_of payload.now) ≤ json_depth_max }
    requires values { ValuesShallow given.now }
    ensures referenced { IfOk result
        (λ _. IsReferencedOnce (without_alg (tree_of payload.now)) given.now) }
    ensures rows { IfOk result
        (λ found. map seen found.rows.items ≡ rows_of (tree_of payload.now) given.now) }
    ensures numbers { IfOk result
        (λ found.
        IsNumbered (without_alg (tree_of payload.now)) given.now found.graph.numbers.items) }
    ensures told { IfOk result
        (λ found. NumbersTell (without_alg (tree_of payload.now)) given.now
        found.graph.numbers.items found.graph.ends.items) }
    ensures refused { IfErr result
        (IsProcessRefused (without_alg (tree_of payload.now)) given.now) }
    ensures counted { IfOk result
        (λ _. steps.new
        ≡ counted steps.old (look_ups (without_alg (tree_of payload.now)) given.now)) }
    ensures risen { RoseWithin (look_ups (without_alg (tree_of payload.now)) given.now) steps.old
        steps.new }
{
    payload.invariant();
    let found = match number_all(alloc, payload, given, seed, steps) {
        Ok(found) => found,
        Err(error) => return Err(error),
    };
    match check_met(alloc, payload, given, &found) {
        Ok(()) => Ok(References {
            rows: found.rows,
            graph: found.graph,
        }),
        Err(error) => Err(error),
    }
}
