// What keeps an audit from its answer.
use refusals::Fault;
use sd_outside::NoMemory;

/// Why a token does not pass an audit. Of what refuses it the first is answered.
#[derive(Clone, Copy, Debug, PartialEq, Eq)]
pub enum AuditError {
    /// There was no memory for the audit.
    Memory,
    /// 80: the order is refused itself, by this number of 51 to 59.
    Order(u8),
    /// 1 to 3: the text is no token.
    Token(Fault),
    /// 81 to 86: this part of what makes a token is the first that differs, counted from 1.
    Part(u8),
}

impl From<NoMemory> for AuditError {
    ghost use Rattle.std.specs.Prelude.{◌≡◌};
    ghost use Rattle.audit_core.specs.declared.errors.AuditError.TheVariants.{Memory};

    ghost from_gives = { λ _ e. e ≡ Memory };

    fn from(_: NoMemory) -> Self {
        AuditError::Memory
    }
}
