// Whether a text has the compact form (RFC 9901 section 4), and its parts.
ghost use Rattle.std.specs.Prelude.{◌≡◌, ℕ, length, IfOk, IfErr};
ghost use Rattle.compact_form.specs.declared.parts.Parts.{Parts as TheParts};
ghost use Rattle.compact_form.specs.Compact.{IsCompact, IsMisformedAt};
ghost use Rattle.compact_form.specs.declared.form.FormError.TheVariants.{Memory, At as StopsAt};

use crate::{At, Parts, View};
use sd_outside::NoMemory;
use std::alloc::Global;

/// Why a text has no parts to show.
#[derive(Clone, Copy, Debug, PartialEq, Eq)]
pub enum FormError {
    /// There was no memory for them.
    Memory,
    /// It is no compact text. Its longest front that begins one has so many bytes.
    At(usize),
}

impl From<NoMemory> for FormError {
    ghost from_gives = { λ _ e. e ≡ Memory };

    fn from(_: NoMemory) -> Self {
        FormError::Memory
    }
}

impl From<At> for FormError {
    ghost from_gives = { λ at e. e ≡ StopsAt at.0 };

    fn from(at: At) -> Self {
        FormError::At(at.0)
    }
}

/// The parts that a compact text spells, copied.
pub fn parse(alloc: Global, text: &[u8]) -> Result<Parts, FormError>
    ensures ok { IfOk result (λ parts. IsCompact parts text.now) }
    ensures at { (stop : ℕ) → result ≡ Err (FormError.At stop) → IsMisformedAt text.now stop }
{
    let view = View::scan(text)?;
    Ok(view.to_parts(alloc)?)
}

/// The number of disclosures of a compact text. It takes no memory.
pub fn check(text: &[u8]) -> Result<usize, At>
    ensures ok { IfOk result
        (λ count.
        (parts : TheParts) × (IsCompact parts text.now × (length parts.disclosures ≡ count))) }
    ensures err { IfErr result (λ at. IsMisformedAt text.now at.0) }
{
    Ok(View::scan(text)?.count())
}
