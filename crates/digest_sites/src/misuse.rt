// Whether a tree misuses a reserved name.
ghost use Rattle.std.specs.Prelude.{◌≡◌};
ghost use Rattle.claim_tree.specs.View.{tree_of};
ghost use Rattle.digest_sites.specs.Reserved.{misuses, elements_misuse, members_misuse};

use crate::reserved::{element_digest, is_ill_named};
use claim_tree::{Tree, TreeList, TreeMap};

/// Whether an object in the tree has a member `_sd` that is no list of texts, or a member `...` and
/// is no element with a digest. It takes no memory.
#[cycle(misuse)]
pub fn is_misused(tree: &Tree) -> bool
    ensures { result ≡ misuses (tree_of tree.now) }
{
    match tree {
        Tree::List(trees) => has_misused_element(trees),
        Tree::Object(trees) => has_misused_member(trees),
        _ => false,
    }
}

#[cycle(misuse)]
#[tactic(auto, using(claim_tree::proofs::Walks::into_element))]
fn has_misused_element(trees: &TreeList) -> bool
    ensures { result ≡ elements_misuse trees.now }
{
    for tree in trees.trees() {
        if element_digest(tree).is_none() && is_misused(tree) {
            return true;
        }
    }
    false
}

#[cycle(misuse)]
#[tactic(auto, using(claim_tree::proofs::Walks::into_member))]
fn has_misused_member(trees: &TreeMap) -> bool
    ensures { result ≡ members_misuse trees.now }
{
    for (name, tree) in trees.members() {
        if is_ill_named(name, tree) || is_misused(tree) {
            return true;
        }
    }
    false
}
