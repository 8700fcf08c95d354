// The lines that report a refusal.
ghost use Rattle.std.specs.Prelude.{◌≡◌, IfOk, string_bytes};
ghost use Rattle.std.specs.Option.{option_copied};
ghost use Rattle.refusals.specs.RefusedText.{fault_text, json_place_text, place_text, refused_text};

use crate::{Fault, JsonPlace, Place, Refusal};
use sd_outside::{NoMemory, TextBox};
use std::alloc::Global;

/// Returns the line that reports a refusal, without a line end: `refused`, the number, the name
/// and, if there is one, ` at` and the place. Fails only if memory runs out.
pub fn refused_line(
    alloc: Global,
    refusal: Refusal,
    place: Option<&TextBox>,
) -> Result<TextBox, NoMemory>
    ensures { IfOk result (λ line. line ≡ refused_text refusal (option_copied place.entry)) }
{
    let (number, name) = (refusal.number(), refusal.name());
    let line = match place {
        None => format!(in alloc; "refused {number} {name}")?,
        Some(place) => {
            let place = place.as_str();
            format!(in alloc; "refused {number} {name} at {place}")?
        }
    };
    Ok(TextBox::from_string(line))
}

fn json_place(alloc: Global, place: JsonPlace) -> Result<String, NoMemory>
    ensures { IfOk result (λ text. string_bytes text ≡ json_place_text place) }
{
    let text = match place {
        JsonPlace::NotJson => String::from_str(alloc, "notJson")?,
        JsonPlace::NotWhole => String::from_str(alloc, "notWhole")?,
        JsonPlace::NotObject => String::from_str(alloc, "notObject")?,
        JsonPlace::Missing(missing) => {
            let word = missing.word();
            format!(in alloc; "missing {word}")?
        }
        JsonPlace::Wrong(wrong) => {
            let word = wrong.word();
            format!(in alloc; "wrong {word}")?
        }
        JsonPlace::Stray(entry) => format!(in alloc; "stray {entry}")?,
    };
    Ok(text)
}

// The printed place, if there is one.
fn place_words(alloc: Global, place: Place) -> Result<Option<TextBox>, NoMemory>
    ensures { IfOk result (λ words. words ≡ place_text place) }
{
    let words = match place {
        Place::Nowhere => return Ok(None),
        Place::At(at) => format!(in alloc; "{at}")?,
        Place::Json(at) => json_place(alloc, at)?,
    };
    Ok(Some(TextBox::from_string(words)))
}

/// Returns the line that reports a refusal at `place`, without a line end. Fails only if memory
/// runs out.
pub fn placed_line(alloc: Global, refusal: Refusal, place: Place) -> Result<TextBox, NoMemory>
    ensures { IfOk result (λ line. line ≡ refused_text refusal (place_text place)) }
{
    let words = place_words(alloc, place)?;
    refused_line(alloc, refusal, words.as_ref())
}

/// Returns the line that reports a failed condition, without a line end. Fails only if memory runs
/// out.
pub fn fault_line(alloc: Global, fault: &Fault) -> Result<TextBox, NoMemory>
    ensures { IfOk result (λ line. line ≡ fault_text fault.now) }
{
    placed_line(alloc, Refusal::Condition(fault.condition()), fault.place)
}
