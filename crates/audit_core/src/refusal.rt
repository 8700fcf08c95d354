// The lines that tell of a refusal.
ghost use Rattle.std.specs.Prelude.{◌≡◌, IfOk};
ghost use Rattle.audit_core.specs.AuditRefusal.{audit_place, audit_refusal, audit_refusal_text, part_refusal};

use crate::AuditError;
use refusals::{Place, Refusal, placed_line};
use sd_outside::{NoMemory, TextBox};
use std::alloc::Global;

// The refusal of a part, counted from 1.
fn refusal_of(part: u8) -> Option<Refusal>
    ensures { result ≡ part_refusal part }
{
    match part {
        1 => Some(Refusal::SignedPartDiffers),
        2 => Some(Refusal::WrittenFormDiffers),
        3 => Some(Refusal::PayloadDiffers),
        4 => Some(Refusal::DigestsDiffer),
        5 => Some(Refusal::DecoysDiffer),
        6 => Some(Refusal::SdOrderDiffers),
        _ => None,
    }
}

// The refusal that the error is, where it is one.
fn refusal(error: &AuditError) -> Option<Refusal>
    ensures { result ≡ audit_refusal error.now }
{
    match error {
        AuditError::Memory => None,
        AuditError::Order(_) => Some(Refusal::OrderRefused),
        AuditError::Token(fault) => Some(Refusal::Condition(fault.condition())),
        AuditError::Part(part) => refusal_of(*part),
    }
}

fn place(error: &AuditError) -> Place
    ensures { result ≡ audit_place error.now }
{
    match error {
        AuditError::Order(number) => Place::At(*number as usize),
        AuditError::Token(fault) => fault.place,
        _ => Place::Nowhere,
    }
}

/// The line that tells why a token does not pass, without its line end: of a condition of 1 to 3,
/// or of a refusal of 80 to 86. What is no refusal has no line.
pub fn refusal_line(alloc: Global, error: &AuditError) -> Result<TextBox, NoMemory>
    ensures { IfOk result (λ line. line ≡ audit_refusal_text error.now) }
{
    match refusal(error) {
        Some(refusal) => placed_line(alloc, refusal, place(error)),
        None => TextBox::make(alloc, ""),
    }
}
