// Whether two marked trees are one.
ghost use Rattle.std.specs.Prelude.{◌≡◌, ◌&&◌, bytes_eq};
ghost use Rattle.marked_tree.specs.View.{marked_of};
ghost use Rattle.audit_core.specs.SameMarked.{same_mark, same_marked, same_elements, same_members};

use marked_tree::{Marked, MarkedList, MarkedMap};
use sd_outside::TextBox;

// Whether two trees have the same values and the same marks.
#[cycle(same)]
pub(crate) fn is_same(one: &Marked, other: &Marked) -> bool
    ensures { result ≡ same_marked (marked_of one.now) (marked_of other.now) }
{
    match (one, other) {
        (Marked::Null, Marked::Null) => true,
        (Marked::Flag(a), Marked::Flag(b)) => *a == *b,
        (Marked::Whole(a), Marked::Whole(b)) => a.get() == b.get(),
        (Marked::Text(a), Marked::Text(b)) => a.as_str() == b.as_str(),
        (Marked::List(a), Marked::List(b)) => is_same_list(a, b),
        (Marked::Object(a), Marked::Object(b)) => is_same_map(a, b),
        _ => false,
    }
}

fn is_same_mark(one: Option<u32>, other: Option<u32>) -> bool
    ensures { result ≡ same_mark one other }
{
    match (one, other) {
        (None, None) => true,
        (Some(i), Some(j)) => i == j,
        _ => false,
    }
}

#[cycle(same)]
#[tactic(auto, using(marked_tree::proofs::MarkedWalks::into_element))]
fn is_same_list(one: &MarkedList, other: &MarkedList) -> bool
    ensures { result ≡ same_elements one.now other.now }
{
    let elements = one.elements();
    let others = other.elements();
    if elements.len() != others.len() {
        return false;
    }
    for (i, element) in elements.iter().enumerate() {
        if !is_same_element(element, &others[i]) {
            return false;
        }
    }
    true
}

#[cycle(same)]
fn is_same_element(one: &(Option<u32>, Marked), other: &(Option<u32>, Marked)) -> bool
    ensures { result
        ≡ (same_mark one.now.0 other.now.0
        && same_marked (marked_of one.now.1) (marked_of other.now.1)) }
{
    let (mark, tree) = one;
    let (other_mark, other_tree) = other;
    is_same_mark(*mark, *other_mark) && is_same(tree, other_tree)
}

#[cycle(same)]
#[tactic(auto, using(marked_tree::proofs::MarkedWalks::into_member))]
fn is_same_map(one: &MarkedMap, other: &MarkedMap) -> bool
    ensures { result ≡ same_members one.now other.now }
{
    let members = one.members();
    let others = other.members();
    if members.len() != others.len() {
        return false;
    }
    for (i, member) in members.iter().enumerate() {
        if !is_same_member(member, &others[i]) {
            return false;
        }
    }
    true
}

#[cycle(same)]
fn is_same_member(
    one: &(TextBox, Option<u32>, Marked),
    other: &(TextBox, Option<u32>, Marked),
) -> bool
    ensures { result
        ≡ (bytes_eq one.now.0 other.now.0
        && (same_mark one.now.1 other.now.1
        && same_marked (marked_of one.now.2) (marked_of other.now.2))) }
{
    let (name, mark, tree) = one;
    let (other_name, other_mark, other_tree) = other;
    name.as_str() == other_name.as_str()
        && is_same_mark(*mark, *other_mark)
        && is_same(tree, other_tree)
}
