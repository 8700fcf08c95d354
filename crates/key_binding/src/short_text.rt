// The texts that a file gives for a key binding token.
ghost use Rattle.std.specs.Prelude.{IfOk, IfSome, IfNone};
ghost use Rattle.claim_tree.specs.Tree.{Text, member_named};
ghost use Rattle.claim_tree.specs.TreeValues.{Says};
ghost use Rattle.key_binding.specs.ShortText.{IsShortText};

use claim_tree::{Tree, TreeMap};
use sd_outside::{NoMemory, TextBox};
use std::alloc::Global;

/// The most bytes that the audience and the nonce of a key binding token may have.
pub const BINDING_TEXT_MAX: usize = 256;

/// A copy of the text that a member is, where it has at most [`BINDING_TEXT_MAX`] bytes.
pub fn short_text_in(
    alloc: Global,
    members: &TreeMap,
    name: &str,
) -> Result<Option<TextBox>, NoMemory>
    ensures text { IfOk result
        (λ text. IfSome text (Says IsShortText (member_named members.now name.now))) }
    ensures none { IfOk result
        (λ text.
        IfNone text ((s : Text) → Says IsShortText (member_named members.now name.now) s → ⊥)) }
{
    let Some(Tree::Text(text)) = members.get(name) else {
        return Ok(None);
    };
    if text.as_str().len() > BINDING_TEXT_MAX {
        return Ok(None);
    }
    Ok(Some(TextBox::make(alloc, text.as_str())?))
}
