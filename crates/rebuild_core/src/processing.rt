// The processed payload.
ghost use Rattle.std.specs.Prelude.{◌≡◌, ◌≤◌, ◌<◌, ◌-◌, ◌^◌, [], true, length, IfOk, IfErr, MatchResult};
ghost use Rattle.sd_outside.specs.Limits.{json_depth_max};
ghost use Rattle.claim_tree.specs.Tree.{depth};
ghost use Rattle.claim_tree.specs.View.{tree_of};
ghost use Rattle.marked_tree.specs.Marked.{strip};
ghost use Rattle.marked_tree.specs.View.{marked_of};
ghost use Rattle.rebuild_core.specs.Answer.{IsPayload, ValuesShallow, IsProcessRefused};
ghost use Rattle.rebuild_core.specs.Soundness.{IsSound};
ghost use Rattle.rebuild_core.specs.LookUps.{look_ups, counted, RoseWithin};
ghost use Rattle.rebuild_core.specs.Laws.{IsWithinNodes};
ghost use Rattle.rebuild_core.specs.Opening.{processed};
ghost use Rattle.rebuild_core.specs.Payload.{without_alg};
ghost use Rattle.rebuild_core.specs.Whole.{whole_object};
ghost use Rattle.rebuild_core.specs.Unhidden.{is_unhidden as is_unhidden_of};

use crate::ProcessError;
use crate::names::check_names;
use crate::numbers::steps_fit;
use crate::opening::open_top;
use crate::references::{References, check_references};
use crate::shown::OpenedMembers;
use crate::unhidden::{is_unhidden, move_out};
use claim_tree::{Tree, copy};
use digest_index::Steps;
use digest_sites::{Given, GivenList};
use marked_tree::{Marked, into_tree};
use sd_outside::{NoMemory, TextBox, copy_text};
use std::alloc::Global;

/// How deep a processed payload may nest, and with it the payload that an issuer hides from.
pub const DEPTH_MAX: usize = 100;

// The members of the payload, with their disclosures in their places, or why the token is refused.
fn open_judged(
    alloc: Global,
    payload: Tree,
    given: GivenList,
    seed: u64,
    steps: &mut Steps,
) -> Result<OpenedMembers, ProcessError>
    requires object { IsPayload (tree_of payload) }
    requires payload_depth { depth (tree_of payload) ≤ json_depth_max }
    requires values_depth { ValuesShallow given }
    requires few { length given < 2 ^ 32 - 1 }
    ensures opened { MatchResult result
        (λ o. IsSound (without_alg (tree_of payload)) given
        × (whole_object o ≡ processed (without_alg (tree_of payload)) given))
        (IsProcessRefused (without_alg (tree_of payload)) given) }
    ensures counted { IfOk result
        (λ _. steps.new ≡ counted steps.old (look_ups (without_alg (tree_of payload)) given)) }
    ensures risen { RoseWithin (look_ups (without_alg (tree_of payload)) given) steps.old
        steps.new }
{
    let References { rows, graph } = match check_references(alloc, &payload, &given, seed, steps) {
        Ok(found) => found,
        Err(e) => return Err(e),
    };
    let numbers = graph.numbers.as_slice();
    if let Err(e) = check_names(alloc, &payload, &given, rows.as_slice(), numbers, seed) {
        return Err(e);
    }
    drop(rows);
    let mut given = given;
    open_top(alloc, payload, &mut given, &graph)
}

// Equal disclosures, with texts of their own.
fn copy_given(alloc: Global, given: &GivenList) -> Result<GivenList, NoMemory>
    requires { ValuesShallow given.now }
    ensures { IfOk result (λ copies. copies ≡ given.now) }
{
    let mut copies = GivenList::with_capacity(alloc, given.len())?;
    for item in given.items() {
        copies.push(Given {
            digest: TextBox::make(alloc, item.digest.as_str())?,
            name: copy_text(alloc, &item.name)?,
            value: copy(alloc, &item.value)?,
        })?;
    }
    Ok(copies)
}

/// The payload with its disclosures in their places, RFC 9901 section 7.1, or the lowest of the
/// conditions 14 to 21 that fails, at its least place.
///
/// Each member and element that a disclosure shows has the number of the disclosure as its mark.
/// Digests are taken as they are handed in: no digest is computed here, and they may lead in a
/// circle. Every condition speaks of the payload without its own member `_sd_alg`.
///
/// Each given digest and each digest of a site is looked up once, and what follows works on
/// numbers. So time and memory grow with n log n, and the answer is built no deeper than 100,
/// whatever the input. `steps` counts the look-ups.
///
/// Payload and disclosures are copied. [`process_seeded`] takes them, and moves what they say.
#[tactic(auto, using(crate::proofs::Size::processed_within))]
pub fn process(
    alloc: Global,
    payload: &Tree,
    given: &GivenList,
    steps: &mut Steps,
) -> Result<Marked, ProcessError>
    requires object { IsPayload (tree_of payload.now) }
    requires payload_depth { depth (tree_of payload.now) ≤ json_depth_max }
    requires values_depth { ValuesShallow given.now }
    requires few { length given.now < 2 ^ 32 - 1 }
    ensures sound { IfOk result (λ _. IsSound (without_alg (tree_of payload.now)) given.now) }
    ensures processed { IfOk result
        (λ marked. marked_of marked ≡ processed (without_alg (tree_of payload.now)) given.now) }
    ensures bounded { IfOk result
        (λ marked. IsWithinNodes (tree_of payload.now) given.now (strip (marked_of marked))) }
    ensures refused { IfErr result
        (IsProcessRefused (without_alg (tree_of payload.now)) given.now) }

    // the look-ups
    ensures counted { IfOk result
        (λ _. steps.new
        ≡ counted steps.old (look_ups (without_alg (tree_of payload.now)) given.now)) }
    ensures risen { RoseWithin (look_ups (without_alg (tree_of payload.now)) given.now) steps.old
        steps.new }
{
    let payload = copy(alloc, payload)?;
    let given = copy_given(alloc, given)?;
    process_seeded(alloc, payload, given, 0, steps)
}

/// The same, of a payload and disclosures that are given away, where the
/// digests are hashed with a seed. No answer depends on the seed, but anyone
/// who knows it can choose digests that are slow to look up together. To read
/// what others wrote, take a seed that depends on it, as [`seed_of`](crate::seed_of) gives.
#[tactic(auto, using(crate::proofs::Size::processed_within))]
pub fn process_seeded(
    alloc: Global,
    payload: Tree,
    given: GivenList,
    seed: u64,
    steps: &mut Steps,
) -> Result<Marked, ProcessError>
    requires object { IsPayload (tree_of payload) }
    requires payload_depth { depth (tree_of payload) ≤ json_depth_max }
    requires values_depth { ValuesShallow given }
    requires few { length given < 2 ^ 32 - 1 }
    ensures sound { IfOk result (λ _. IsSound (without_alg (tree_of payload)) given) }
    ensures processed { IfOk result
        (λ marked. marked_of marked ≡ processed (without_alg (tree_of payload)) given) }
    ensures bounded { IfOk result
        (λ marked. IsWithinNodes (tree_of payload) given (strip (marked_of marked))) }
    ensures refused { IfErr result (IsProcessRefused (without_alg (tree_of payload)) given) }

    // the look-ups
    ensures counted { IfOk result
        (λ _. steps.new ≡ counted steps.old (look_ups (without_alg (tree_of payload)) given)) }
    ensures risen { RoseWithin (look_ups (without_alg (tree_of payload)) given) steps.old
        steps.new }
{
    let members = match open_judged(alloc, payload, given, seed, steps) {
        Ok(members) => members,
        Err(e) => return Err(e),
    };
    Ok(members.into_object(alloc)?)
}

// What a payload in which nothing is hidden says, where no disclosure is given.
fn open_nothing(payload: Tree, given: &GivenList, steps: &mut Steps) -> Result<Tree, ProcessError>
    requires object { IsPayload (tree_of payload) }
    requires depth { depth (tree_of payload) ≤ json_depth_max }
    requires unhidden { is_unhidden_of (tree_of payload) ≡ true }
    requires none { given.now ≡ [] }
    ensures sound { IfOk result (λ _. IsSound (without_alg (tree_of payload)) given.now) }
    ensures processed { IfOk result
        (λ tree. tree_of tree ≡ strip (processed (without_alg (tree_of payload)) given.now)) }
    ensures refused { IfErr result (IsProcessRefused (without_alg (tree_of payload)) given.now) }
    ensures counted { steps.new
        ≡ counted steps.old (look_ups (without_alg (tree_of payload)) given.now) }
    ensures risen { RoseWithin (look_ups (without_alg (tree_of payload)) given.now) steps.old
        steps.new }
{
    steps_fit(steps);
    move_out(payload)
}

/// What [`process_seeded`] answers, for who needs no marks: the processed payload
/// alone. A payload in which nothing is hidden is handed back without its own
/// `_sd_alg`. Of any other, and of the disclosures, what is not shown is dropped
/// before the opened members are put together. No part of either is copied.
#[tactic(auto, using(crate::proofs::Size::shown_within))]
pub fn process_payload(
    alloc: Global,
    payload: Tree,
    given: GivenList,
    seed: u64,
    steps: &mut Steps,
) -> Result<Tree, ProcessError>
    requires object { IsPayload (tree_of payload) }
    requires payload_depth { depth (tree_of payload) ≤ json_depth_max }
    requires values_depth { ValuesShallow given }
    requires few { length given < 2 ^ 32 - 1 }
    ensures sound { IfOk result (λ _. IsSound (without_alg (tree_of payload)) given) }
    ensures processed { IfOk result
        (λ tree. tree_of tree ≡ strip (processed (without_alg (tree_of payload)) given)) }
    ensures bounded { IfOk result (λ tree. IsWithinNodes (tree_of payload) given (tree_of tree)) }
    ensures refused { IfErr result (IsProcessRefused (without_alg (tree_of payload)) given) }

    // the look-ups
    ensures counted { IfOk result
        (λ _. steps.new ≡ counted steps.old (look_ups (without_alg (tree_of payload)) given)) }
    ensures risen { RoseWithin (look_ups (without_alg (tree_of payload)) given) steps.old
        steps.new }
{
    if given.len() == 0 && is_unhidden(&payload) {
        return open_nothing(payload, &given, steps);
    }
    let marked = match process_seeded(alloc, payload, given, seed, steps) {
        Ok(marked) => marked,
        Err(e) => return Err(e),
    };
    Ok(into_tree(alloc, marked)?)
}
