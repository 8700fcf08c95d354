// The conditions on the claims of the processed payload.
ghost use Rattle.std.specs.Prelude.{◌≡◌, ◌≢◌, ◌↔◌, ℕ, Some, None, codes, IsTrue, OnOk, IfErr, IfSome, IfNone};
ghost use Rattle.claim_tree.specs.Tree.{Text, get as get_of};
ghost use Rattle.sd_outside.specs.Lists.{StandsAt, IsLeast};
ghost use Rattle.claim_tree.specs.View.{tree_of};
ghost use Rattle.verifier_core.specs.Verdict.{ClaimFails, NamesIssuer, IsIssuerRefused};
ghost use Rattle.refusals.specs.Lowest.{IsLowest, NoneFails};

use crate::rules::Demands;
use claim_tree::{Tree, get};
use jws_part::{is_expired, is_not_yet, is_time_unreadable};
use refusals::{Condition, Fault, Place};
use sd_outside::TextList;

// Whether the payload names one of these issuers.
fn has_issuer(payload: &Tree, issuers: &TextList) -> bool
    ensures { IsTrue result ↔ NamesIssuer issuers.now (get_of (tree_of payload.now) (codes "iss")) }
{
    match get(payload, "iss") {
        Some(Tree::Text(named)) => issuers.contains(named.as_str()),
        _ => false,
    }
}

// Whether the policy names issuers, and the payload names no issuer or another one (RFC 7519
// section 4.1.1).
fn is_issuer_refused(payload: &Tree, demands: &Demands<'_>) -> bool
    ensures { IsTrue result
        ↔ IsIssuerRefused demands.now.iss (get_of (tree_of payload.now) (codes "iss")) }
{
    match demands.iss {
        Some(issuers) => !has_issuer(payload, issuers),
        None => false,
    }
}

// The first of the names that is not the name of a claim.
fn first_missing(payload: &Tree, names: &TextList) -> Option<usize>
    ensures none { IfNone result
        ((i : ℕ) (name : Text) → StandsAt names.now i name
        → get_of (tree_of payload.now) name ≢ None) }
    ensures first { IfSome result
        (IsLeast
        (λ i. (name : Text) × StandsAt names.now i name
        × (get_of (tree_of payload.now) name ≡ None))) }
{
    for i in 0..names.len() {
        let name = names.at(i).unwrap();
        if get(payload, name.as_str()).is_none() {
            return Some(i);
        }
    }
    None
}

// Judges the claims of a processed payload at a time in seconds since 1970. The error is the fault
// of the lowest condition that fails.
pub(crate) fn check_claims(payload: &Tree, demands: &Demands<'_>, now: u64) -> Result<(), Fault>
    ensures passes { OnOk result (NoneFails (ClaimFails (tree_of payload.now) demands.now now)) }
    ensures lowest { IfErr result (IsLowest (ClaimFails (tree_of payload.now) demands.now now)) }
{
    if is_issuer_refused(payload, demands) {
        return Err(Condition::IssuerRefused.fault());
    }
    if let Some(i) = first_missing(payload, demands.require) {
        return Err(Condition::ClaimMissing.fault_at(Place::At(i)));
    }
    if is_time_unreadable(payload) {
        return Err(Condition::TimeUnreadable.fault());
    }
    if is_expired(payload, demands.skew, now) {
        return Err(Condition::Expired.fault());
    }
    if is_not_yet(payload, demands.skew, now) {
        return Err(Condition::NotYet.fault());
    }
    Ok(())
}
