// Where marks stand.
ghost use Rattle.std.specs.Prelude.{◌≡◌, ◌≤◌, ℕ, List, ◌∷◌, ◌++◌, map, reverse, IfOk, option_map};
ghost use Rattle.sd_outside.specs.Limits.{json_depth_max};
ghost use Rattle.claim_tree.specs.Tree.{depth, elements_depth, members_depth};
ghost use Rattle.marked_tree.specs.Marked.{strip, strip_elements, strip_members};
ghost use Rattle.marked_tree.specs.Paths.{mark_path, own_spot, inside, spots, elements_spots, members_spots, first_with};
ghost use Rattle.marked_tree.specs.View.{marked_of};

use crate::{Marked, MarkedList, MarkedMap};
use claim_tree::{Path, digits};
use sd_outside::{NoMemory, TextBox};
use std::alloc::Global;

/// The path, in the tree without marks, of the first node with the mark: each node comes before
/// those inside it, members come by the bytes of their names. None where no node has the mark.
pub fn place_of(alloc: Global, tree: &Marked, mark: u32) -> Result<Option<Path>, NoMemory>
    requires { depth (strip (marked_of tree.now)) ≤ json_depth_max }
    ensures { IfOk result (λ path. path ≡ mark_path (marked_of tree.now) mark) }
{
    match find(alloc, tree, mark)? {
        Some(steps) => Ok(Some(Path::from_last(alloc, steps.as_slice())?)),
        None => Ok(None),
    }
}

// The steps to the first node with the mark, from the last to the first.
#[cycle(find)]
fn find(alloc: Global, tree: &Marked, mark: u32) -> Result<Option<Vec<TextBox>>, NoMemory>
    requires { depth (strip (marked_of tree.now)) ≤ json_depth_max }
    ensures { IfOk result
        (λ steps. option_map (λ s. reverse s.items) steps
        ≡ first_with mark (spots (marked_of tree.now))) }
{
    match tree {
        Marked::List(list) => find_element(alloc, list, mark),
        Marked::Object(map) => find_member(alloc, map, mark),
        _ => Ok(None),
    }
}

#[cycle(find)]
#[tactic(auto, using(crate::proofs::MarkedWalks::into_element))]
fn find_element(
    alloc: Global,
    list: &MarkedList,
    mark: u32,
) -> Result<Option<Vec<TextBox>>, NoMemory>
    requires { elements_depth (strip_elements list.now) ≤ 126 }
    ensures { IfOk result
        (λ steps.
        option_map (λ s. reverse s.items) steps ≡ first_with mark (elements_spots 0 list.now)) }
{
    for (i, element) in list.elements().iter().enumerate() {
        let (own, tree) = element;
        if let Some(mut steps) = find_at(alloc, *own, tree, mark)? {
            steps.push(digits(alloc, i)?)?;
            return Ok(Some(steps));
        }
    }
    Ok(None)
}

#[cycle(find)]
#[tactic(auto, using(crate::proofs::MarkedWalks::into_member))]
fn find_member(alloc: Global, map: &MarkedMap, mark: u32) -> Result<Option<Vec<TextBox>>, NoMemory>
    requires { members_depth (strip_members map.now) ≤ 126 }
    ensures { IfOk result
        (λ steps.
        option_map (λ s. reverse s.items) steps ≡ first_with mark (members_spots map.now)) }
{
    for (name, own, tree) in map.members() {
        if let Some(mut steps) = find_at(alloc, *own, tree, mark)? {
            steps.push(TextBox::make(alloc, name.as_str())?)?;
            return Ok(Some(steps));
        }
    }
    Ok(None)
}

// The same at a node with its own mark: without the step to this node.
#[cycle(find)]
fn find_at(
    alloc: Global,
    own: Option<u32>,
    tree: &Marked,
    mark: u32,
) -> Result<Option<Vec<TextBox>>, NoMemory>
    requires { depth (strip (marked_of tree.now)) ≤ json_depth_max }
    ensures { IfOk result
        (λ steps. (step : List ℕ)
        → option_map (λ s. step ∷ reverse s.items) steps
        ≡ first_with mark
        (own_spot step own ++ map (inside step own) (spots (marked_of tree.now)))) }
{
    if own == Some(mark) {
        return Ok(Some(Vec::new(alloc)));
    }
    find(alloc, tree, mark)
}
