// The times that a payload claims.
ghost use Rattle.std.specs.Prelude.{◌↔◌, ℤ, IsTrue, IfSome, IfNone};
ghost use Rattle.claim_tree.specs.View.{tree_of};
ghost use Rattle.jws_part.specs.Times.{IsMoment, IsNoMoment, IsTimeUnreadable, IsExpired, IsNotYet};

use claim_tree::{Tree, Whole, get};

/// The whole number that a claim is, as the moments of RFC 7519 section 2 are.
pub fn moment(payload: &Tree, name: &str) -> Option<Whole>
    ensures whole { IfSome result (IsMoment (tree_of payload.now) name.now) }
    ensures none { IfNone result
        ((moment : ℤ) → IsMoment (tree_of payload.now) name.now moment → ⊥) }
{
    match get(payload, name) {
        Some(Tree::Whole(moment)) => Some(*moment),
        _ => None,
    }
}

// Whether a claim is there, and is no whole number.
fn is_no_moment(payload: &Tree, name: &str) -> bool
    ensures { IsTrue result ↔ IsNoMoment (tree_of payload.now) name.now }
{
    match get(payload, name) {
        None | Some(Tree::Whole(_)) => false,
        Some(_) => true,
    }
}

/// Whether `exp` or `nbf` of a payload is there, and is no whole number.
pub fn is_time_unreadable(payload: &Tree) -> bool
    ensures { IsTrue result ↔ IsTimeUnreadable (tree_of payload.now) }
{
    is_no_moment(payload, "exp") || is_no_moment(payload, "nbf")
}

/// Whether a payload is expired, where the clocks may differ by the skew (RFC
/// 7519 section 4.1.4). Times are in seconds.
pub fn is_expired(payload: &Tree, skew: u32, now: u64) -> bool
    ensures { IsTrue result ↔ IsExpired (tree_of payload.now) skew now }
{
    match moment(payload, "exp") {
        Some(moment) => moment.get() + i128::from(skew) <= i128::from(now),
        None => false,
    }
}

/// Whether a payload is not yet valid, where the clocks may differ by the skew
/// (RFC 7519 section 4.1.5).
pub fn is_not_yet(payload: &Tree, skew: u32, now: u64) -> bool
    ensures { IsTrue result ↔ IsNotYet (tree_of payload.now) skew now }
{
    match moment(payload, "nbf") {
        Some(moment) => i128::from(now) + i128::from(skew) < moment.get(),
        None => false,
    }
}
