// The values that trees say: texts, whole numbers, paths.
ghost use Rattle.std.specs.Prelude.{◌≡◌, ◌≢◌, List, IfOk, IfSome, IfNone};
ghost use Rattle.claim_tree.specs.Tree.{Text};
ghost use Rattle.claim_tree.specs.View.{tree_of};
ghost use Rattle.claim_tree.specs.ListViews.{elements_of};
ghost use Rattle.claim_tree.specs.TreeValues as spec;
ghost use Rattle.claim_tree.specs.TreeValues.{IsWholeUpTo, HasValue, IsPointer, EachSays};

use crate::{Path, PathList, PointerError, Tree, read_pointer};
use sd_outside::{NoMemory, TextBox, TextList};
use std::alloc::Global;

/// Copies of the texts of a list, or None where an element is no text.
pub fn texts_of(alloc: Global, trees: &[Tree]) -> Result<Option<TextList>, NoMemory>
    ensures texts { IfOk result
        (λ texts. IfSome texts (λ list. spec.text_elements list ≡ elements_of trees.now)) }
    ensures none { IfOk result
        (λ texts.
        IfNone texts ((list : List Text) → spec.text_elements list ≢ elements_of trees.now)) }
{
    let mut texts = TextList::new(alloc);
    for tree in trees {
        let Tree::Text(text) = tree else {
            return Ok(None);
        };
        texts.push(TextBox::make(alloc, text.as_str())?)?;
    }
    Ok(Some(texts))
}

/// The whole number of a tree, where it is one from 0 to `most`. It takes no memory.
pub fn whole_up_to(tree: &Tree, most: u32) -> Option<u32>
    ensures whole { IfSome result (IsWholeUpTo most (tree_of tree.now)) }
    ensures none { IfNone result (HasValue (IsWholeUpTo most) (tree_of tree.now) → ⊥) }
{
    let Tree::Whole(whole) = tree else {
        return None;
    };
    let n = u32::try_from(whole.get()).ok()?;
    if n <= most { Some(n) } else { None }
}

/// The path of a tree that is the text of a JSON Pointer, and None for any other tree.
pub fn pointer_of(alloc: Global, tree: &Tree) -> Result<Option<Path>, NoMemory>
    ensures path { IfOk result (λ path. IfSome path (IsPointer (tree_of tree.now))) }
    ensures none { IfOk result (λ path. IfNone path (HasValue IsPointer (tree_of tree.now) → ⊥)) }
{
    let Tree::Text(text) = tree else {
        return Ok(None);
    };
    match read_pointer(alloc, text.as_str()) {
        Ok(path) => Ok(Some(path)),
        Err(PointerError::Memory) => Err(NoMemory),
        Err(PointerError::Syntax) => Ok(None),
    }
}

/// The paths of trees that are the texts of JSON Pointers, or None where one of them is none.
#[tactic(auto, using(crate::proofs::ListForms::no_element, crate::proofs::ListForms::each_turn))]
pub fn pointers_of(alloc: Global, trees: &[Tree]) -> Result<Option<PathList>, NoMemory>
    ensures paths { IfOk result
        (λ paths. IfSome paths (EachSays IsPointer (elements_of trees.now))) }
    ensures none { IfOk result
        (λ paths. IfNone paths
        ((list : List (List Text)) → EachSays IsPointer (elements_of trees.now) list → ⊥)) }
{
    let mut paths = PathList::new(alloc);
    for tree in trees {
        let Some(path) = pointer_of(alloc, tree)? else {
            return Ok(None);
        };
        paths.push(path)?;
    }
    Ok(Some(paths))
}
