// The refusals that an order alone decides.
ghost use Rattle.std.specs.Prelude.{◌≡◌, ◌≤◌, ◌<◌, ◌↔◌, length, OnOk, IfOk, IfErr, IfSome, IsTrue, Some, option_map, bytes_eq};
ghost use Rattle.std.specs.Str.{IsUtf8};
ghost use Rattle.std.specs.List.{position_from, list_any};
ghost use Rattle.std.specs.Set.{distinct_count};
ghost use Rattle.sd_outside.specs.Limits.{count_max, json_depth_max};
ghost use Rattle.claim_tree.specs.Tree.{depth as depth_of, IsOrdered};
ghost use Rattle.claim_tree.specs.Path.{tree_at};
ghost use Rattle.claim_tree.specs.View.{tree_of};
ghost use Rattle.marked_tree.specs.Paths.{Path as Steps, same_path, is_among};
ghost use Rattle.issuer_core.specs.Order.{order_of};
ghost use Rattle.issuer_core.specs.Decoys.{decoy_paths};
ghost use Rattle.issuer_core.specs.GoodOrder as good;
ghost use Rattle.issuer_core.specs.GoodOrder.{IsGoodOrder};
ghost use Rattle.refusals.specs.Lowest.{NoneApplies};
ghost use Rattle.refusals.specs.Refusal.{refusal_number};
ghost use Rattle.refusals.specs.declared.refusal.Refusal.{Refusal};
ghost use Rattle.issuer_core.specs.OrderRefusals.{AppliesToOrder, protected_names};
ghost use Rattle.issuer_core.specs.JudgeCalls.{IsOrderRefused};
ghost use Rattle.issuer_core.specs.Judging as spec;
ghost use Rattle.issuer_core.specs.Judging.{PassesBelow};

use crate::reserved::{first_reserved, spells};
use crate::{DecoyList, IssueError, Order};
use claim_tree::{Path, PathList, Tree, depth, find, find_behind, is_prefix};
use compact_form::COUNT_MAX;
use marked_tree::different_paths;
use rebuild_core::DEPTH_MAX;
use sd_outside::{NoMemory, TextBox};
use std::alloc::Global;

fn is_object(tree: &Tree) -> bool
    ensures is { IsTrue result ↔ good.IsObject (tree_of tree.now) }
    ensures ordered { IsTrue result → IsOrdered (tree_of tree.now) }
{
    match tree {
        Tree::Object(members) => {
            let _ascending = members.members();
            true
        }
        _ => false,
    }
}

// The first path that is that of the whole payload.
fn first_root(hide: &PathList) -> Option<usize>
    ensures { result ≡ position_from spec.is_root 0 hide.now }
{
    hide.elements().iter().position(|path| path.len() == 0)
}

// The tree at a path, where an earlier path and the tree at it may be known: a path that goes on
// behind that one is followed from there.
fn find_on<'a>(
    payload: &'a Tree,
    earlier: Option<(&Path, &'a Tree)>,
    path: &Path,
) -> Option<&'a Tree>
    requires { IfSome earlier
        (λ e. tree_at (tree_of payload.now) e.0.now ≡ Some (tree_of e.1.now)) }
    ensures { option_map (λ tree. tree_of tree.now) result
        ≡ tree_at (tree_of payload.now) path.now }
{
    match earlier {
        Some((front, tree)) if is_prefix(front, path) => find_behind(tree, path, front.len()),
        _ => find(payload, path),
    }
}

// The first path that leads nowhere in the payload, of all paths.
fn nowhere_in(payload: &Tree, hide: &PathList) -> Option<usize>
    ensures { result ≡ position_from (spec.is_nowhere (tree_of payload.now)) 0 hide.now }
{
    let mut earlier = None;
    for (k, path) in hide.elements().iter().enumerate() {
        match find_on(payload, earlier, path) {
            Some(tree) => earlier = Some((path, tree)),
            None => return Some(k),
        }
    }
    None
}

// The same, where the different ones are known: there is none unless one of them leads nowhere.
fn first_nowhere(payload: &Tree, hide: &PathList, different: &PathList) -> Option<usize>
    requires { (path : Steps) → is_among different.now path ≡ is_among hide.now path }
    ensures { result ≡ position_from (spec.is_nowhere (tree_of payload.now)) 0 hide.now }
{
    match nowhere_in(payload, different) {
        Some(_) => nowhere_in(payload, hide),
        None => None,
    }
}

// Whether a verifier cannot do without the claim (RFC 9901 section 9.7).
fn is_protected_name(name: &str) -> bool
    ensures { result ≡ list_any (bytes_eq name.now) protected_names }
{
    matches!(name, "iss" | "aud" | "exp" | "nbf" | "cnf")
}

// Whether the path begins with such a claim.
fn is_protected(path: &Path) -> bool
    ensures { result ≡ spec.is_protected path.now }
{
    match path.at(0) {
        Some(step) => is_protected_name(step),
        None => false,
    }
}

fn first_protected(hide: &PathList) -> Option<usize>
    ensures { result ≡ position_from spec.is_protected 0 hide.now }
{
    hide.elements().iter().position(|path| is_protected(path))
}

// Whether the path leads to no object and no list of the payload.
fn is_no_holder(payload: &Tree, path: &Path) -> bool
    ensures { result ≡ spec.is_no_holder (tree_at (tree_of payload.now) path.now) }
{
    match find(payload, path) {
        Some(Tree::List(_)) => false,
        Some(Tree::Object(_)) => false,
        _ => true,
    }
}

fn first_misplaced(payload: &Tree, decoys: &DecoyList) -> Option<usize>
    ensures { result ≡ position_from (spec.is_misplaced (tree_of payload.now)) 0 decoys.now }
{
    decoys
        .elements()
        .iter()
        .position(|entry| is_no_holder(payload, &entry.at))
}

// Whether more paths are hidden than may be, where equal ones count once.
fn hides_too_many(hide: &PathList, different: &PathList) -> bool
    requires { length different.now ≡ distinct_count same_path hide.now }
    ensures { IsTrue result ↔ (count_max < distinct_count same_path hide.now) }
{
    different.len() > COUNT_MAX
}

fn are_too_many(decoys: &DecoyList) -> bool
    ensures { IsTrue result ↔ (count_max < length (decoy_paths decoys.now)) }
{
    let mut total = 0;
    for entry in decoys.elements() {
        total += entry.count as usize;
        if total > COUNT_MAX {
            return true;
        }
    }
    false
}

// The refusals 51 to 53: what the payload may be.
fn judge_payload(alloc: Global, order: &Order) -> Result<(), IssueError>
    requires { depth_of (tree_of order.now.payload) ≤ json_depth_max }
    ensures passes { OnOk result
        (PassesBelow (refusal_number Refusal.RootMarked) (order_of order.now)) }
    ensures ordered { OnOk result (IsOrdered (tree_of order.now.payload)) }
    ensures held { OnOk result (good.FitsMachine (tree_of order.now.payload)) }
    ensures refused { IfErr result (IsOrderRefused (order_of order.now)) }
{
    if !is_object(&order.payload) {
        return Err(IssueError::PayloadNotObject);
    }
    if let Some(path) = first_reserved(alloc, &order.payload)? {
        return Err(IssueError::ReservedName(path));
    }
    if depth(&order.payload) > DEPTH_MAX {
        return Err(IssueError::TooDeep);
    }
    Ok(())
}

// The refusals 54 to 57: what may be hidden, and where decoys may be put.
fn judge_places(order: &Order, different: &PathList) -> Result<(), IssueError>
    requires same { (path : Steps) → is_among different.now path ≡ is_among order.now.hide path }
    requires below { PassesBelow (refusal_number Refusal.RootMarked) (order_of order.now) }
    ensures passes { OnOk result
        (PassesBelow (refusal_number Refusal.TooManyHidden) (order_of order.now)) }
    ensures refused { IfErr result (IsOrderRefused (order_of order.now)) }
{
    if let Some(k) = first_root(&order.hide) {
        return Err(IssueError::RootMarked(k));
    }
    if let Some(k) = first_nowhere(&order.payload, &order.hide, different) {
        return Err(IssueError::NoSuchPlace(k));
    }
    if let Some(k) = first_protected(&order.hide) {
        return Err(IssueError::ProtectedClaim(k));
    }
    if let Some(k) = first_misplaced(&order.payload, &order.decoys) {
        return Err(IssueError::DecoyPlace(k));
    }
    Ok(())
}

// The bytes of a text are UTF-8, where there is one.
fn spells_some(text: &Option<TextBox>)
    ensures { IfSome text.now IsUtf8 }
{
    if let Some(text) = text {
        spells(text);
    }
}

/// Whether an order is refused by what it says itself: by one of 51 to 59, the
/// lowest that applies at its least place.
///
/// It sorts the paths, looks for each of the different ones in the payload, and
/// walks the payload once.
pub fn judge(alloc: Global, order: &Order) -> Result<(), IssueError>
    requires { depth_of (tree_of order.now.payload) ≤ json_depth_max }
    ensures passes { OnOk result (NoneApplies (AppliesToOrder (order_of order.now))) }
    ensures good { OnOk result (IsGoodOrder (order_of order.now)) }
    ensures held { OnOk result (good.FitsMachine (tree_of order.now.payload)) }
    ensures kid { OnOk result (IfSome order.now.kid IsUtf8) }
    ensures typ { OnOk result (IfSome order.now.typ IsUtf8) }
    ensures refused { IfErr result (IsOrderRefused (order_of order.now)) }
{
    let _different = judged_places(alloc, order)?;
    Ok(())
}

/// The same. Of an order that is not refused it answers the places that are
/// hidden, in no more entries than may be.
pub fn judged_places(alloc: Global, order: &Order) -> Result<PathList, IssueError>
    requires { depth_of (tree_of order.now.payload) ≤ json_depth_max }
    ensures same { IfOk result
        (λ places. (path : Steps) → is_among places path ≡ is_among order.now.hide path) }
    ensures few { IfOk result (λ places. length places ≤ count_max) }
    ensures passes { IfOk result (λ _. NoneApplies (AppliesToOrder (order_of order.now))) }
    ensures good { IfOk result (λ _. IsGoodOrder (order_of order.now)) }
    ensures held { IfOk result (λ _. good.FitsMachine (tree_of order.now.payload)) }
    ensures kid { IfOk result (λ _. IfSome order.now.kid IsUtf8) }
    ensures typ { IfOk result (λ _. IfSome order.now.typ IsUtf8) }
    ensures refused { IfErr result (IsOrderRefused (order_of order.now)) }
{
    judge_payload(alloc, order)?;
    let different = different_paths(alloc, &order.hide)?;
    judge_places(order, &different)?;
    if hides_too_many(&order.hide, &different) {
        return Err(IssueError::TooManyHidden);
    }
    if are_too_many(&order.decoys) {
        return Err(IssueError::TooManyDecoys);
    }
    spells_some(&order.kid);
    spells_some(&order.typ);
    Ok(different)
}
