// How long the text is that spells parts.
ghost use Rattle.std.specs.Prelude.{◌+◌, ◌-◌, ◌<◌, ◌≤◌, ◌↔◌, length, IsTrue, SomeIff};
ghost use Rattle.compact_form.specs.Compact.{jwt as jwt_text, spelled, compact};

use crate::{JwtParts, Parts};
use sd_outside::TextList;

/// Whether the compact text of the parts has more bytes than `most`. It is not
/// printed, and takes no memory.
pub fn is_longer_than(parts: &Parts, most: usize) -> bool
    ensures { IsTrue result ↔ (most < length (compact parts.now)) }
{
    left_by_parts(most, parts).is_none()
}

// What the compact text leaves of so many bytes, if it has no more.
pub(crate) fn left_by_parts(most: usize, parts: &Parts) -> Option<usize>
    ensures { SomeIff result (length (compact parts.now) ≤ most)
        (most - length (compact parts.now)) }
{
    let left = left_by_jwt(most, &parts.signed)?.checked_sub(1)?;
    let left = left_by_disclosures(left, &parts.disclosures)?;
    match &parts.binding {
        Some(binding) => left_by_jwt(left, binding),
        None => Some(left),
    }
}

fn left_by_jwt(most: usize, jwt: &JwtParts) -> Option<usize>
    ensures { SomeIff result (length (jwt_text jwt.now) ≤ most) (most - length (jwt_text jwt.now)) }
{
    let left = left_behind(most, jwt.protected.as_str())?;
    let left = left_behind(left, jwt.payload.as_str())?;
    left.checked_sub(jwt.signature.as_str().len())
}

fn left_by_disclosures(most: usize, disclosures: &TextList) -> Option<usize>
    ensures { SomeIff result (length (spelled disclosures.now) ≤ most)
        (most - length (spelled disclosures.now)) }
{
    let mut left = most;
    for disclosure in disclosures.elements() {
        left = left_behind(left, disclosure.as_str())?;
    }
    Some(left)
}

// What a word leaves, and the byte that ends it.
fn left_behind(most: usize, word: &str) -> Option<usize>
    ensures { SomeIff result (length word.now + 1 ≤ most) (most - (length word.now + 1)) }
{
    most.checked_sub(word.len())?.checked_sub(1)
}
