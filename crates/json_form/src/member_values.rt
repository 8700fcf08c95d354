// What single members of a JSON serialization say.
ghost use Rattle.std.specs.Prelude.{IfOk, IfSome, IfNone};
ghost use Rattle.claim_tree.specs.View.{tree_of};
ghost use Rattle.claim_tree.specs.TreeValues.{HasValue};
ghost use Rattle.json_form.specs.Json.{IsWordTree, AreWordTrees, IsJwtTree};

use b64url_text::is_word;
use claim_tree::Tree;
use compact_form::{JwtParts, read_jwt};
use sd_outside::{NoMemory, TextBox, TextList};
use std::alloc::Global;

// The base64url word that a tree is.
pub(crate) fn word_in(tree: Tree) -> Option<TextBox>
    ensures some { IfSome result (IsWordTree (tree_of tree)) }
    ensures none { IfNone result (HasValue IsWordTree (tree_of tree) → ⊥) }
{
    let Tree::Text(text) = tree else {
        return None;
    };
    if is_word(text.as_str().as_bytes()) {
        Some(text)
    } else {
        None
    }
}

// The base64url words of which a tree is the list.
pub(crate) fn words_in(alloc: Global, tree: Tree) -> Result<Option<TextList>, NoMemory>
    ensures some { IfOk result (λ words. IfSome words (AreWordTrees (tree_of tree))) }
    ensures none { IfOk result (λ words. IfNone words (HasValue AreWordTrees (tree_of tree) → ⊥)) }
{
    let Tree::List(list) = tree else {
        return Ok(None);
    };
    let mut words = TextList::new(alloc);
    for item in list.into_trees() {
        let Some(word) = word_in(item) else {
            return Ok(None);
        };
        words.push(word)?;
    }
    Ok(Some(words))
}

// The texts of the JWT that a tree is.
pub(crate) fn jwt_in(alloc: Global, tree: &Tree) -> Result<Option<JwtParts>, NoMemory>
    ensures some { IfOk result (λ jwt. IfSome jwt (IsJwtTree (tree_of tree.now))) }
    ensures none { IfOk result (λ jwt. IfNone jwt (HasValue IsJwtTree (tree_of tree.now) → ⊥)) }
{
    let Tree::Text(text) = tree else {
        return Ok(None);
    };
    match read_jwt(text.as_str()) {
        Some(view) => Ok(Some(view.to_parts(alloc)?)),
        None => Ok(None),
    }
}
