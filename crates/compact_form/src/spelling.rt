// The text that spells parts.
ghost use Rattle.std.specs.Prelude.{◌≡◌, ◌++◌, [], OnOk, IfOk, string_bytes};
ghost use Rattle.compact_form.specs.Compact.{jwt as jwt_text, spelled, hashed, compact, AreWords, HasWords, IsCompact};
ghost use Rattle.compact_form.specs.JwtCalls.{IsJwt, IsUpToLastTilde};

use crate::lengths::left_by_parts;
use crate::{COMPACT_MAX, JwtParts, Parts};
use sd_outside::{NoMemory, TextBox, TextList};
use std::alloc::Global;

fn push_jwt(text: &mut String, jwt: &JwtParts) -> Result<(), NoMemory>
    ensures { OnOk result (string_bytes text.new ≡ string_bytes text.old ++ jwt_text jwt.now) }
{
    text.push_str(jwt.protected.as_str())?;
    text.push('.')?;
    text.push_str(jwt.payload.as_str())?;
    text.push('.')?;
    text.push_str(jwt.signature.as_str())?;
    Ok(())
}

fn push_disclosures(text: &mut String, disclosures: &TextList) -> Result<(), NoMemory>
    ensures { OnOk result
        (string_bytes text.new ≡ string_bytes text.old ++ spelled disclosures.now) }
{
    for disclosure in disclosures.elements() {
        text.push_str(disclosure.as_str())?;
        text.push('~')?;
    }
    Ok(())
}

// Room for the compact text of the parts and the end of a line, where it is no
// longer than that of a token may be.
fn room_for(alloc: Global, parts: &Parts) -> Result<String, NoMemory>
    ensures { IfOk result (λ text. string_bytes text ≡ []) }
{
    match left_by_parts(COMPACT_MAX, parts) {
        Some(left) => Ok(String::with_capacity(alloc, COMPACT_MAX - left + 1)?),
        None => Ok(String::new(alloc)),
    }
}

// The text up to and with the last tilde.
fn front(alloc: Global, parts: &Parts) -> Result<String, NoMemory>
    ensures { IfOk result (λ text. string_bytes text ≡ hashed parts.now) }
{
    let mut text = room_for(alloc, parts)?;
    push_jwt(&mut text, &parts.signed)?;
    text.push('~')?;
    push_disclosures(&mut text, &parts.disclosures)?;
    Ok(text)
}

/// The text of a JWT that stands alone: the one that
/// [`read_jwt`](crate::read_jwt) reads as these texts.
pub fn print_jwt(alloc: Global, jwt: &JwtParts) -> Result<TextBox, NoMemory>
    requires words { HasWords jwt.now }
    ensures { IfOk result (IsJwt jwt.now) }
{
    let mut text = String::new(alloc);
    push_jwt(&mut text, jwt)?;
    Ok(TextBox::from_string(text))
}

/// The compact text of the parts: the one that [`parse`](crate::parse) reads as these parts.
pub fn print(alloc: Global, parts: &Parts) -> Result<TextBox, NoMemory>
    requires words { AreWords parts.now }
    ensures { IfOk result (IsCompact parts.now) }
{
    let mut text = front(alloc, parts)?;
    if let Some(binding) = &parts.binding {
        push_jwt(&mut text, binding)?;
    }
    Ok(TextBox::from_string(text))
}

/// The compact text of the parts up to and with its last tilde, which a key
/// binding token hashes (RFC 9901 section 4.3.1).
pub fn hashed_text(alloc: Global, parts: &Parts) -> Result<TextBox, NoMemory>
    requires words { AreWords parts.now }
    ensures text { IfOk result (λ text. text ≡ hashed parts.now) }
    ensures front { IfOk result (IsUpToLastTilde (compact parts.now)) }
{
    Ok(TextBox::from_string(front(alloc, parts)?))
}
