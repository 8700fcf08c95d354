// The choice of the marks that lead to wanted places.
ghost use Rattle.std.specs.Prelude.{◌≡◌, ◌||◌, ℕ, true, eqb, is_some, IfOk, IfErr, OnOk};
ghost use Rattle.sd_outside.specs.Lists.{AtNone};
ghost use Rattle.claim_tree.specs.Path.{tree_at};
ghost use Rattle.marked_tree.specs.Choice.{is_on_way, IsUnmixed, IsLeastChoice};
ghost use Rattle.marked_tree.specs.Paths.{chosen};
ghost use Rattle.marked_tree.specs.Marked.{strip};
ghost use Rattle.marked_tree.specs.Numbers.{has};
ghost use Rattle.marked_tree.specs.View.{marked_of};
ghost use Rattle.selection_core.specs.ChoiceRefusals.{IsMissing};
ghost use Rattle.selection_core.specs.ChooseCalls.{IsChooseRefused};

use crate::ChooseError;
use claim_tree::{Path, PathList};
use marked_tree::{ChosenSet, Marked, stepped};
use sd_outside::NoMemory;
use std::alloc::Global;

/// The marks on the way to the wanted paths: those of the places that lead to one of them. Nothing
/// inside a wanted place is chosen for it.
///
/// Each path is followed from the root, by search in each object, so the cost
/// is that of the paths and not of the tree.
pub fn choose(alloc: Global, tree: &Marked, wanted: &PathList) -> Result<ChosenSet, ChooseError>
    ensures chosen { IfOk result
        (λ marks. (i : ℕ) → has marks i ≡ chosen (marked_of tree.now) wanted.now i) }
    ensures least { IsUnmixed (marked_of tree.now)
        → IfOk result (λ marks. IsLeastChoice (marked_of tree.now) wanted.now (has marks)) }
    ensures there { IfOk result (λ _. AtNone (IsMissing (strip (marked_of tree.now)) wanted.now)) }
    ensures refused { IfErr result (IsChooseRefused (strip (marked_of tree.now)) wanted.now) }
{
    let mut marks = Vec::new(alloc);
    for (k, path) in wanted.elements().iter().enumerate() {
        if !add_way(tree, path, &mut marks)? {
            return Err(ChooseError::NoSuchPlace(k));
        }
    }
    Ok(ChosenSet::of(alloc, marks)?)
}

// Adds a mark, unless it stands at this place. It may stand at another.
fn add_mark(marks: &mut Vec<u32>, at: usize, mark: u32) -> Result<(), NoMemory>
    ensures { OnOk result
        ((i : ℕ) → has marks.new.items i ≡ (eqb i mark || has marks.old.items i)) }
{
    if marks.get(at) == Some(&mark) {
        return Ok(());
    }
    marks.push(mark)?;
    Ok(())
}

// Adds the marks on the way to the path. False where it leads nowhere. Most ways begin as an
// earlier one does, whose marks are there, each at the number of its step where each step has one.
fn add_way(tree: &Marked, path: &Path, marks: &mut Vec<u32>) -> Result<bool, NoMemory>
    ensures there { IfOk result
        (λ there. there ≡ is_some (tree_at (strip (marked_of tree.now)) path.now)) }
    ensures marks { IfOk result
        (λ there. there ≡ true → (i : ℕ)
        → has marks.new.items i
        ≡ (has marks.old.items i || is_on_way (marked_of tree.now) path.now i)) }
{
    let mut inside = tree;
    for (at, step) in path.steps().enumerate() {
        match stepped(inside, step) {
            Some((mark, below)) => {
                if let Some(mark) = mark {
                    add_mark(marks, at, mark)?;
                }
                inside = below;
            }
            None => return Ok(false),
        }
    }
    Ok(true)
}
