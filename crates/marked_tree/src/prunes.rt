// Trees without what is not chosen.
ghost use Rattle.std.specs.Prelude.{◌≡◌, ◌≤◌, IfOk, is_some};
ghost use Rattle.sd_outside.specs.Limits.{json_depth_max};
ghost use Rattle.claim_tree.specs.Tree.{depth, elements_depth, members_depth};
ghost use Rattle.marked_tree.specs.Marked.{strip, strip_elements, strip_members, prune as prune_of, kept as kept_by, new_mark, remark_elements, remark_members};
ghost use Rattle.marked_tree.specs.Numbers.{has};
ghost use Rattle.marked_tree.specs.View.{marked_of};

use crate::{ChosenSet, Marked, MarkedList, MarkedMap};
use sd_outside::{NoMemory, TextBox};
use std::alloc::Global;

/// The tree without each member and element whose mark is not kept, and all
/// below it, with texts of its own. What has no mark stays.
pub fn prune(alloc: Global, tree: &Marked, kept: &ChosenSet) -> Result<Marked, NoMemory>
    requires { depth (strip (marked_of tree.now)) ≤ json_depth_max }
    ensures value { IfOk result
        (λ pruned. marked_of pruned ≡ prune_of (marked_of tree.now) (has kept.now)) }
    ensures shallow { IfOk result
        (λ pruned. depth (strip (marked_of pruned)) ≤ depth (strip (marked_of tree.now))) }
{
    prune_tree(alloc, tree, kept)
}

#[cycle(prune)]
fn prune_tree(alloc: Global, tree: &Marked, kept: &ChosenSet) -> Result<Marked, NoMemory>
    requires { depth (strip (marked_of tree.now)) ≤ json_depth_max }
    ensures { IfOk result
        (λ pruned. marked_of pruned ≡ prune_of (marked_of tree.now) (has kept.now)) }
{
    match tree {
        Marked::Null => Ok(Marked::Null),
        Marked::Flag(flag) => Ok(Marked::Flag(*flag)),
        Marked::Whole(n) => Ok(Marked::Whole(*n)),
        Marked::Text(text) => Ok(Marked::Text(TextBox::make(alloc, text.as_str())?)),
        Marked::List(list) => Ok(Marked::List(prune_list(alloc, list, kept)?)),
        Marked::Object(map) => Ok(Marked::Object(prune_map(alloc, map, kept)?)),
    }
}

#[cycle(prune)]
#[tactic(auto, using(crate::proofs::MarkedWalks::prunes_element))]
fn prune_list(alloc: Global, list: &MarkedList, kept: &ChosenSet) -> Result<MarkedList, NoMemory>
    requires { elements_depth (strip_elements list.now) ≤ 126 }
    ensures { IfOk result (λ pruned. pruned ≡ remark_elements (kept_by (has kept.now)) list.now) }
{
    let mut pruned = MarkedList::with_capacity(alloc, list.len())?;
    for (mark, tree) in list.elements() {
        if !stays(*mark, kept) {
            continue;
        }
        pruned.push(*mark, prune_tree(alloc, tree, kept)?)?;
    }
    Ok(pruned)
}

#[cycle(prune)]
#[tactic(auto, using(crate::proofs::MarkedWalks::prunes_member))]
fn prune_map(alloc: Global, map: &MarkedMap, kept: &ChosenSet) -> Result<MarkedMap, NoMemory>
    requires { members_depth (strip_members map.now) ≤ 126 }
    ensures { IfOk result (λ pruned. pruned ≡ remark_members (kept_by (has kept.now)) map.now) }
{
    let mut pruned = MarkedMap::with_capacity(alloc, map.len())?;
    for (name, mark, tree) in map.members() {
        if !stays(*mark, kept) {
            continue;
        }
        let name = TextBox::make(alloc, name.as_str())?;
        pruned.put(name, *mark, prune_tree(alloc, tree, kept)?)?;
    }
    Ok(pruned)
}

// Whether a node with this mark stays.
fn stays(mark: Option<u32>, kept: &ChosenSet) -> bool
    ensures { result ≡ is_some (new_mark (kept_by (has kept.now)) mark) }
{
    match mark {
        Some(mark) => kept.has(mark),
        None => true,
    }
}
