// What is asked of the key binding token.
ghost use Rattle.std.specs.Prelude.{◌≡◌, ◌↔◌, ℕ, List, IsTrue, OnOk, IfErr};
ghost use Rattle.claim_tree.specs.View.{tree_of};
ghost use Rattle.refusals.specs.Lowest.{IsLowest, NoneFails};
ghost use Rattle.key_binding.specs.JudgedSteps.{judged_of};
ghost use Rattle.key_binding.specs.BindingConditions.{BindingFails};
ghost use Rattle.key_binding.specs.BindingCalls.{IsLowestBinding, OnBoundFails};
ghost use Rattle.verifier_core.specs.Verdict.{FailsFor, IsAcceptedFor, IsBindingMissing, HolderFails};
ghost use Rattle.verifier_core.specs.Check.{OnFault, IsOpened};
ghost use Rattle.marked_tree.specs.Marked.{Marked, strip};

use crate::VerifyError;
use crate::check_signed::fails;
use crate::claims::check_claims;
use crate::rules::Demands;
use claim_tree::{JsonReader, Tree};
use disclosure::HashAlg;
use json_form::{TokenText, TokenView};
use key_binding::{Bound, BoundError, check_bound};
use std::alloc::Global;

// Whether a key binding token is asked for, and there is none.
pub(crate) fn is_binding_missing(token: &TokenView<'_>, demands: &Demands<'_>) -> bool
    ensures { IsTrue result ↔ IsBindingMissing demands.now token.now.parts }
{
    let Some(_) = demands.binding else {
        return false;
    };
    token.binding().is_none()
}

// The conditions 27 to 38 of the key binding token that is sent. What reads it
// takes room only here.
fn check_sent(alloc: Global, bound: Bound<'_>) -> Result<(), BoundError>
    ensures passes { OnOk result (NoneFails (BindingFails (judged_of bound.entry))) }
    ensures refused { IfErr result (λ e. OnBoundFails e (IsLowestBinding (judged_of bound.entry))) }
{
    check_bound(alloc, &mut JsonReader::new(alloc), bound)
}

// What is shown of a token that is opened: its processed payload, and the algorithm of its digests.
#[derive(Clone, Copy)]
pub(crate) struct Shown<'a, 'text> {
    pub(crate) token: &'a TokenText<'text>,
    pub(crate) payload: &'a Tree,
    pub(crate) hash: HashAlg,
}

// The conditions 27 to 38, where a key binding token is asked for.
fn check_holder(
    alloc: Global,
    shown: Shown<'_, '_>,
    demands: &Demands<'_>,
    now: u64,
) -> Result<(), VerifyError>
    ensures passes { OnOk result
        (NoneFails
        (HolderFails shown.entry.token.now.parts (tree_of shown.entry.payload.now)
        shown.entry.hash demands.now now)) }
    ensures refused { IfErr result
        (λ e. OnFault e
        (IsLowest
        (HolderFails shown.entry.token.now.parts (tree_of shown.entry.payload.now)
        shown.entry.hash demands.now now))) }
{
    let Some(rules) = demands.binding else {
        return Ok(());
    };
    let Some(sent) = shown.token.view().binding() else {
        return Ok(());
    };
    let bound = Bound {
        token: sent,
        payload: shown.payload,
        rules,
        skew: demands.skew,
        hash: shown.hash,
        hashed: shown.token.hashed(),
        now,
    };
    match check_sent(alloc, bound) {
        Ok(()) => Ok(()),
        Err(BoundError::Memory) => Err(VerifyError::Memory),
        Err(BoundError::Fails(condition)) => Err(fails(condition)),
    }
}

// The conditions 22 to 38 of a token that is opened, over its processed payload and its hash.
pub(crate) fn check_shown(
    alloc: Global,
    shown: Shown<'_, '_>,
    demands: &Demands<'_>,
    now: u64,
) -> Result<(), VerifyError>
    ensures accepted { (text : List ℕ) (marked : Marked)
        → IsOpened text demands.now shown.entry.token.now marked shown.entry.hash
        → tree_of shown.entry.payload.now ≡ strip marked
        → OnOk result (IsAcceptedFor text demands.now now marked) }
    ensures refused { (text : List ℕ) (marked : Marked)
        → IsOpened text demands.now shown.entry.token.now marked shown.entry.hash
        → tree_of shown.entry.payload.now ≡ strip marked
        → IfErr result (λ e. OnFault e (IsLowest (FailsFor text demands.now now))) }
{
    if let Err(fault) = check_claims(shown.payload, demands, now) {
        return Err(VerifyError::Fault(fault));
    }
    check_holder(alloc, shown, demands, now)
}
