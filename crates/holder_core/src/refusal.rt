// The lines that tell of a refusal.
ghost use Rattle.std.specs.Prelude.{◌≡◌, IfOk};
ghost use Rattle.holder_core.specs.PresentRefusal.{present_place, present_refusal, present_refusal_text};

use crate::PresentError;
use refusals::{Place, Refusal, placed_line};
use sd_outside::{NoMemory, TextBox};
use std::alloc::Global;

// The refusal that the error is, where it is one.
fn refusal(error: &PresentError) -> Option<Refusal>
    ensures { result ≡ present_refusal error.now }
{
    match error {
        PresentError::Memory | PresentError::SignFailed => None,
        PresentError::Token(fault) => Some(Refusal::Condition(fault.condition())),
        PresentError::HasBinding => Some(Refusal::HasBinding),
        PresentError::NoSuchPlace(_) => Some(Refusal::WantedNotThere),
        PresentError::ConsentRefused(_) => Some(Refusal::ConsentRefused),
        PresentError::BindingKeyDiffers => Some(Refusal::BindingKeyDiffers),
        PresentError::TooLong => Some(Refusal::PresentTooLong),
    }
}

fn place(error: &PresentError) -> Place
    ensures { result ≡ present_place error.now }
{
    match error {
        PresentError::Token(fault) => fault.place,
        PresentError::NoSuchPlace(k) => Place::At(*k),
        PresentError::ConsentRefused(i) => Place::At(*i as usize),
        _ => Place::Nowhere,
    }
}

/// The line that tells why nothing is presented, without its line end: of a condition that the
/// token fails, or of a refusal of 71 to 75. What is no refusal has no line.
pub fn refusal_line(alloc: Global, error: &PresentError) -> Result<TextBox, NoMemory>
    ensures { IfOk result (λ line. line ≡ present_refusal_text error.now) }
{
    match refusal(error) {
        Some(refusal) => placed_line(alloc, refusal, place(error)),
        None => TextBox::make(alloc, ""),
    }
}
