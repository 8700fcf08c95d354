// Trees without their marks.
ghost use Rattle.std.specs.Prelude.{◌≡◌, ◌≤◌, IfOk};
ghost use Rattle.sd_outside.specs.Limits.{json_depth_max};
ghost use Rattle.claim_tree.specs.Tree.{depth, elements_depth, members_depth};
ghost use Rattle.claim_tree.specs.View.{tree_of};
ghost use Rattle.marked_tree.specs.Marked.{strip as strip_of, strip_elements as elements_stripped, strip_members as members_stripped};
ghost use Rattle.marked_tree.specs.View.{marked_of};

use crate::{Marked, MarkedList, MarkedMap};
use claim_tree::{Tree, TreeList, TreeMap};
use sd_outside::{NoMemory, TextBox};
use std::alloc::Global;

/// The tree without its marks, with texts of its own.
#[cycle(strip)]
pub fn strip(alloc: Global, tree: &Marked) -> Result<Tree, NoMemory>
    requires { depth (strip_of (marked_of tree.now)) ≤ json_depth_max }
    ensures { IfOk result (λ stripped. tree_of stripped ≡ strip_of (marked_of tree.now)) }
{
    match tree {
        Marked::Null => Ok(Tree::Null),
        Marked::Flag(flag) => Ok(Tree::Flag(*flag)),
        Marked::Whole(n) => Ok(Tree::Whole(*n)),
        Marked::Text(text) => Ok(Tree::Text(TextBox::make(alloc, text.as_str())?)),
        Marked::List(list) => Ok(Tree::List(strip_list(alloc, list)?)),
        Marked::Object(map) => Ok(Tree::Object(strip_map(alloc, map)?)),
    }
}

#[cycle(strip)]
#[tactic(auto, using(crate::proofs::MarkedWalks::strips_element))]
fn strip_list(alloc: Global, list: &MarkedList) -> Result<TreeList, NoMemory>
    requires { elements_depth (elements_stripped list.now) ≤ 126 }
    ensures { IfOk result (λ stripped. stripped ≡ elements_stripped list.now) }
{
    let mut stripped = TreeList::new(alloc);
    for (_, tree) in list.elements() {
        stripped.push(strip(alloc, tree)?)?;
    }
    Ok(stripped)
}

#[cycle(strip)]
#[tactic(auto, using(crate::proofs::MarkedWalks::strips_member))]
fn strip_map(alloc: Global, map: &MarkedMap) -> Result<TreeMap, NoMemory>
    requires { members_depth (members_stripped map.now) ≤ 126 }
    ensures { IfOk result (λ stripped. stripped ≡ members_stripped map.now) }
{
    let mut stripped = TreeMap::new(alloc);
    for (name, _, tree) in map.members() {
        let name = TextBox::make(alloc, name.as_str())?;
        stripped.insert(name, strip(alloc, tree)?)?;
    }
    Ok(stripped)
}

/// The tree without its marks, whose texts are moved.
#[cycle(into_tree)]
pub fn into_tree(alloc: Global, tree: Marked) -> Result<Tree, NoMemory>
    requires { depth (strip_of (marked_of tree)) ≤ json_depth_max }
    ensures { IfOk result (λ stripped. tree_of stripped ≡ strip_of (marked_of tree)) }
{
    match tree {
        Marked::Null => Ok(Tree::Null),
        Marked::Flag(flag) => Ok(Tree::Flag(flag)),
        Marked::Whole(n) => Ok(Tree::Whole(n)),
        Marked::Text(text) => Ok(Tree::Text(text)),
        Marked::List(list) => Ok(Tree::List(list_into_trees(alloc, list)?)),
        Marked::Object(map) => Ok(Tree::Object(map_into_trees(alloc, map)?)),
    }
}

#[cycle(into_tree)]
fn list_into_trees(alloc: Global, list: MarkedList) -> Result<TreeList, NoMemory>
    requires { elements_depth (elements_stripped list) ≤ 126 }
    ensures { IfOk result (λ stripped. stripped ≡ elements_stripped list) }
{
    let mut stripped = TreeList::with_capacity(alloc, list.len())?;
    for (_, tree) in list.into_elements() {
        stripped.push(into_tree(alloc, tree)?)?;
    }
    Ok(stripped)
}

#[cycle(into_tree)]
fn map_into_trees(alloc: Global, map: MarkedMap) -> Result<TreeMap, NoMemory>
    requires { members_depth (members_stripped map) ≤ 126 }
    ensures { IfOk result (λ stripped. stripped ≡ members_stripped map) }
{
    let mut stripped = TreeMap::with_capacity(alloc, map.len())?;
    for (name, _, tree) in map.into_members() {
        stripped.insert(name, into_tree(alloc, tree)?)?;
    }
    Ok(stripped)
}
