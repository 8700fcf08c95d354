// The values of claims.
ghost use Rattle.std.specs.Prelude.{◌≡◌, ◌↔◌, IsTrue, option_map};
ghost use Rattle.claim_tree.specs.Path.{tree_at};
ghost use Rattle.claim_tree.specs.Tree.{array, object};
ghost use Rattle.claim_tree.specs.View.{tree_of};
ghost use Rattle.marked_tree.specs.Marked.{strip, strip_elements, strip_members};
ghost use Rattle.marked_tree.specs.View.{marked_of};
ghost use Rattle.wallet_core.specs.Meets.{HasValues};

use crate::EqualList;
use claim_tree::{Path, Tree, TreeList, TreeMap};
use marked_tree::{Marked, MarkedList, MarkedMap, stepped};

// Whether each value stands at its place.
pub(crate) fn has_values(tree: &Marked, equal: &EqualList) -> bool
    ensures { IsTrue result ↔ HasValues (strip (marked_of tree.now)) equal.now }
{
    for one in equal.elements() {
        if !has_value(tree, &one.at, &one.value) {
            return false;
        }
    }
    true
}

fn has_value(tree: &Marked, at: &Path, value: &Tree) -> bool
    ensures { IsTrue result
        ↔ (tree_at (strip (marked_of tree.now)) at.now ≡ Some (tree_of value.now)) }
{
    match found_at(tree, at) {
        Some(there) => is_same(there, value),
        None => false,
    }
}

fn found_at<'a>(tree: &'a Marked, at: &Path) -> Option<&'a Marked>
    ensures { option_map (λ there. strip (marked_of there.now)) result
        ≡ tree_at (strip (marked_of tree.now)) at.now }
{
    let mut inside = tree;
    for step in at.steps() {
        let (_, below) = stepped(inside, step)?;
        inside = below;
    }
    Some(inside)
}

// Whether the tree without its marks is the value.
#[cycle(same)]
fn is_same(tree: &Marked, value: &Tree) -> bool
    ensures { IsTrue result ↔ (strip (marked_of tree.now) ≡ tree_of value.now) }
{
    match (tree, value) {
        (Marked::Null, Tree::Null) => true,
        (Marked::Flag(flag), Tree::Flag(other)) => flag == other,
        (Marked::Whole(n), Tree::Whole(other)) => n.get() == other.get(),
        (Marked::Text(text), Tree::Text(other)) => text == other,
        (Marked::List(list), Tree::List(other)) => are_same(list, other),
        (Marked::Object(map), Tree::Object(other)) => have_same(map, other),
        _ => false,
    }
}

#[cycle(same)]
#[tactic(auto, using(marked_tree::proofs::MarkedWalks::into_element, crate::proofs::Sames::elements_other))]
fn are_same(list: &MarkedList, values: &TreeList) -> bool
    ensures { IsTrue result ↔ (array (strip_elements list.now) ≡ array values.now) }
{
    if list.len() != values.len() {
        return false;
    }
    for (i, element) in list.elements().iter().enumerate() {
        let Some(value) = values.at(i) else {
            return false;
        };
        let (_, tree) = element;
        if !is_same(tree, value) {
            return false;
        }
    }
    true
}

#[cycle(same)]
#[tactic(auto, using(marked_tree::proofs::MarkedWalks::into_member, crate::proofs::Sames::members_other))]
fn have_same(map: &MarkedMap, values: &TreeMap) -> bool
    ensures { IsTrue result ↔ (object (strip_members map.now) ≡ object values.now) }
{
    if map.len() != values.len() {
        return false;
    }
    for (i, member) in map.members().iter().enumerate() {
        let Some((name, value)) = values.entry_at(i) else {
            return false;
        };
        let (own, _, tree) = member;
        if own != name || !is_same(tree, value) {
            return false;
        }
    }
    true
}
