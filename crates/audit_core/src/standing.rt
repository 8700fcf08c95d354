// Where a digest stands, as one text.
ghost use Rattle.std.specs.Prelude.{◌≡◌, ◌++◌, ◌↔◌, IfOk, IsTrue, string_bytes};
ghost use Rattle.claim_tree.specs.Path.{pointer_text};
ghost use Rattle.issuer_core.specs.Laid.{sorted};
ghost use Rattle.audit_core.specs.AuditSteps.{kind_letter};

use claim_tree::{Path, print_path};
use digest_sites::SiteKind;
use sd_outside::{NoMemory, TextBox};
use std::alloc::Global;

// The letter of a kind, a slash, and the digits of a position.
const ROOM: usize = 22;

fn kind_letter(kind: SiteKind) -> &'static str
    ensures { result.now ≡ kind_letter kind }
{
    match kind {
        SiteKind::Member => "m",
        SiteKind::Element => "e",
    }
}

// The kind, and then the pointer, with room for a position behind it.
pub(crate) fn with_kind(alloc: Global, kind: SiteKind, pointer: &str) -> Result<String, NoMemory>
    ensures { IfOk result (λ text. string_bytes text ≡ kind_letter kind ++ pointer.now) }
{
    let mut text = String::with_capacity(alloc, pointer.len().saturating_add(ROOM))?;
    text.push_str(kind_letter(kind))?;
    text.push_str(pointer)?;
    Ok(text)
}

// The kind of the site, and then the pointer of where it stands.
pub(crate) fn standing_of(alloc: Global, kind: SiteKind, at: &Path) -> Result<TextBox, NoMemory>
    ensures { IfOk result (λ text. text ≡ kind_letter kind ++ pointer_text at.now) }
{
    let pointer = print_path(alloc, at)?;
    Ok(TextBox::from_string(with_kind(alloc, kind, pointer.as_str())?))
}

// Whether each text is in the list as often as in the other, which is sorted.
pub(crate) fn are_alike(mut texts: Vec<TextBox>, wanted: &[TextBox]) -> Result<bool, NoMemory>
    ensures { IfOk result (λ are. IsTrue are ↔ (sorted texts.items ≡ wanted.now)) }
{
    texts.sort()?;
    Ok(texts.as_slice() == wanted)
}
