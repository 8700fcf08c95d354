// The parts of what an audit judges of a token.
ghost use Rattle.std.specs.Prelude.{◌≡◌};
ghost use Rattle.audit_core.specs.PartNumbers.{number_of_part};
ghost use Rattle.audit_core.specs.declared.errors.AuditError.TheVariants.{Part as OnPart};

use crate::AuditError;

// A part, with its number. They stand in the order in which they are judged.
#[derive(Clone, Copy, Debug)]
pub(crate) enum AuditPart {
    // What is signed, and how.
    Signed = 1,
    // How payload and disclosures are written.
    Written = 2,
    // What the token shows.
    Claims = 3,
    // Its digests.
    Digests = 4,
    // The places of its decoys.
    Decoys = 5,
    // The order of its digests.
    SdOrder = 6,
}

// The error that names a part as the first that differs.
pub(crate) fn differs(part: AuditPart) -> AuditError
    ensures { result ≡ OnPart (number_of_part part) }
{
    AuditError::Part(part as u8)
}
