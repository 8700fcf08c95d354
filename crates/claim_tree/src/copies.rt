// Copies of trees.
ghost use Rattle.std.specs.Prelude.{◌≡◌, ◌≤◌, IfOk};
ghost use Rattle.sd_outside.specs.Limits.{json_depth_max};
ghost use Rattle.claim_tree.specs.Tree.{depth, elements_depth, members_depth};
ghost use Rattle.claim_tree.specs.View.{tree_of};

use crate::{Tree, TreeList, TreeMap};
use sd_outside::{NoMemory, TextBox};
use std::alloc::Global;

/// An equal tree, with texts of its own.
#[cycle(copy)]
pub fn copy(alloc: Global, tree: &Tree) -> Result<Tree, NoMemory>
    requires { depth (tree_of tree.now) ≤ json_depth_max }
    ensures ok { IfOk result (λ copy. tree_of copy ≡ tree_of tree.now) }
{
    match tree {
        Tree::Null => Ok(Tree::Null),
        Tree::Flag(flag) => Ok(Tree::Flag(*flag)),
        Tree::Whole(n) => Ok(Tree::Whole(*n)),
        Tree::Text(text) => Ok(Tree::Text(TextBox::make(alloc, text.as_str())?)),
        Tree::List(trees) => Ok(Tree::List(copy_elements(alloc, trees)?)),
        Tree::Object(trees) => Ok(Tree::Object(copy_members(alloc, trees)?)),
    }
}

#[cycle(copy)]
#[tactic(auto, using(crate::proofs::Walks::past_element))]
fn copy_elements(alloc: Global, trees: &TreeList) -> Result<TreeList, NoMemory>
    requires { elements_depth trees.now ≤ 126 }
    ensures ok { IfOk result (λ copy. copy ≡ trees.now) }
{
    let mut copies = TreeList::new(alloc);
    for tree in trees.trees() {
        copies.push(copy(alloc, tree)?)?;
    }
    Ok(copies)
}

/// An equal object, with texts of its own.
#[cycle(copy)]
#[tactic(auto, using(crate::proofs::Walks::past_member))]
pub fn copy_members(alloc: Global, trees: &TreeMap) -> Result<TreeMap, NoMemory>
    requires { members_depth trees.now ≤ 126 }
    ensures ok { IfOk result (λ copy. copy ≡ trees.now) }
{
    let mut copies = TreeMap::new(alloc);
    for (name, tree) in trees.members() {
        let name = TextBox::make(alloc, name.as_str())?;
        copies.insert(name, copy(alloc, tree)?)?;
    }
    Ok(copies)
}
