// A test of every member.
ghost use Rattle.std.specs.Prelude.{◌≡◌, Bool};
ghost use Rattle.claim_tree.specs.EveryMember.{every_member as passes_throughout, elements_pass, members_pass};
ghost use Rattle.claim_tree.specs.Tree as spec;
ghost use Rattle.claim_tree.specs.Tree.{Text};
ghost use Rattle.claim_tree.specs.View.{tree_of};

use crate::{Tree, TreeList, TreeMap};
use sd_outside::TextBox;

/// A test of one member of an object.
pub trait MemberTest {
    /// What passes: a name, and the tree under it.
    ghost test: { Text → spec.Tree → Bool };

    /// Whether a member passes. It takes no memory.
    fn passes(name: &TextBox, tree: &Tree) -> bool
        ensures { result ≡ test name.now (tree_of tree.now) };
}

/// Whether each member of each object in the tree passes the test. It takes no memory.
#[cycle(tested)]
pub fn every_member<T: MemberTest>(tree: &Tree) -> bool
    ensures { result ≡ passes_throughout T.test (tree_of tree.now) }
{
    match tree {
        Tree::List(trees) => elements_pass::<T>(trees),
        Tree::Object(members) => members_pass::<T>(members),
        _ => true,
    }
}

#[cycle(tested)]
#[tactic(auto, using(crate::proofs::Walks::into_element))]
fn elements_pass<T: MemberTest>(trees: &TreeList) -> bool
    ensures { result ≡ elements_pass T.test trees.now }
{
    for tree in trees.trees() {
        if !every_member::<T>(tree) {
            return false;
        }
    }
    true
}

#[cycle(tested)]
#[tactic(auto, using(crate::proofs::Walks::into_member))]
fn members_pass<T: MemberTest>(members: &TreeMap) -> bool
    ensures { result ≡ members_pass T.test members.now }
{
    for (name, tree) in members.members() {
        if !T::passes(name, tree) || !every_member::<T>(tree) {
            return false;
        }
    }
    true
}
