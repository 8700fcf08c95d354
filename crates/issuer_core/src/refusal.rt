// The lines that tell of a refusal.
ghost use Rattle.std.specs.Prelude.{◌≡◌, IfOk};
ghost use Rattle.claim_tree.specs.Tree.{leaf, text as text_leaf};
ghost use Rattle.claim_tree.specs.JsonText.{json_text};
ghost use Rattle.claim_tree.specs.Path.{pointer_text};
ghost use Rattle.issuer_core.specs.OrderRefusals.{refusal_of};
ghost use Rattle.issuer_core.specs.RefusalLine.{refusal_place_text, issue_refusal_text};

use crate::IssueError;
use claim_tree::{Path, Tree, print_path, write};
use refusals::{Refusal, refused_line};
use sd_outside::{NoMemory, TextBox};
use std::alloc::Global;

/// The refusal that the error is, where it is one.
pub fn order_refusal(error: &IssueError) -> Option<Refusal>
    ensures { result ≡ refusal_of error.now }
{
    match error {
        IssueError::Memory | IssueError::SignFailed => None,
        IssueError::PayloadNotObject => Some(Refusal::PayloadNotObject),
        IssueError::ReservedName(_) => Some(Refusal::ReservedInPayload),
        IssueError::TooDeep => Some(Refusal::PayloadTooDeep),
        IssueError::RootMarked(_) => Some(Refusal::RootMarked),
        IssueError::NoSuchPlace(_) => Some(Refusal::NoSuchPlace),
        IssueError::ProtectedClaim(_) => Some(Refusal::ProtectedClaim),
        IssueError::DecoyPlace(_) => Some(Refusal::DecoyPlace),
        IssueError::TooManyHidden => Some(Refusal::TooManyHidden),
        IssueError::TooManyDecoys => Some(Refusal::TooManyDecoys),
        IssueError::DigestClash(_, _) => Some(Refusal::DigestClash),
        IssueError::TooLong => Some(Refusal::IssueTooLong),
    }
}

// The pointer of a path, as a JSON text.
fn pointer_json(alloc: Global, path: &Path) -> Result<TextBox, NoMemory>
    ensures { IfOk result (λ json. json ≡ json_text (leaf (text_leaf (pointer_text path.now)))) }
{
    let pointer = Tree::Text(print_path(alloc, path)?);
    write(alloc, &pointer)
}

fn place(alloc: Global, error: &IssueError) -> Result<Option<TextBox>, NoMemory>
    ensures { IfOk result (λ text. text ≡ refusal_place_text error.now) }
{
    let words = match error {
        IssueError::ReservedName(path) => return Ok(Some(pointer_json(alloc, path)?)),
        IssueError::RootMarked(k)
        | IssueError::NoSuchPlace(k)
        | IssueError::ProtectedClaim(k)
        | IssueError::DecoyPlace(k) => format!(in alloc; "{k}")?,
        IssueError::DigestClash(i, j) => format!(in alloc; "{i} {j}")?,
        _ => return Ok(None),
    };
    Ok(Some(TextBox::from_string(words)))
}

/// The line that tells of a refusal of 51 to 61, without its line end: `refused`, its number, its
/// name, and its place where there is one. What is no refusal has no line.
pub fn refusal_line(alloc: Global, error: &IssueError) -> Result<TextBox, NoMemory>
    ensures { IfOk result (λ line. line ≡ issue_refusal_text error.now) }
{
    let Some(refusal) = order_refusal(error) else {
        return TextBox::make(alloc, "");
    };
    let place = place(alloc, error)?;
    refused_line(alloc, refusal, place.as_ref())
}
