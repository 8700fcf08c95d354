// How deep arrays and objects nest.
ghost use Rattle.std.specs.Prelude.{◌≡◌, ◌≤◌};
ghost use Rattle.sd_outside.specs.Limits.{json_depth_max};
ghost use Rattle.claim_tree.specs.Tree.{depth as depth_of, elements_depth, members_depth};
ghost use Rattle.claim_tree.specs.View.{tree_of};

use crate::{Tree, TreeList, TreeMap};

/// How deep a tree nests: 0 for a leaf, 1 for an empty array or object, else 1
/// more than the deepest inside.
#[cycle(depth)]
pub fn depth(tree: &Tree) -> usize
    requires { depth_of (tree_of tree.now) ≤ json_depth_max }
    ensures { result ≡ depth_of (tree_of tree.now) }
{
    match tree {
        Tree::List(trees) => depth_of_elements(trees) + 1,
        Tree::Object(trees) => depth_of_members(trees) + 1,
        _ => 0,
    }
}

#[cycle(depth)]
#[tactic(auto, using(crate::proofs::Walks::into_element))]
fn depth_of_elements(trees: &TreeList) -> usize
    requires { elements_depth trees.now ≤ 126 }
    ensures { result ≡ elements_depth trees.now }
{
    let mut most = 0;
    for tree in trees.trees() {
        most = most.max(depth(tree));
    }
    most
}

#[cycle(depth)]
#[tactic(auto, using(crate::proofs::Walks::into_member))]
fn depth_of_members(trees: &TreeMap) -> usize
    requires { members_depth trees.now ≤ 126 }
    ensures { result ≡ members_depth trees.now }
{
    let mut most = 0;
    for (_, tree) in trees.members() {
        most = most.max(depth(tree));
    }
    most
}
