// Why nothing is presented.
use refusals::Fault;
use sd_outside::NoMemory;
use verifier_core::VerifyError;

/// Why nothing is presented.
///
/// But for `Memory` these are judged in the order in which they stand here, and
/// the first that applies is answered. Conditions 1 to 3 of `Token` stand
/// before `HasBinding`, and the others behind it.
#[derive(Clone, Copy, Debug, PartialEq, Eq)]
pub enum PresentError {
    /// There was no memory for the answer.
    Memory,
    /// The token fails this condition: one of 1 to 3, 5 to 7 and 9 to 21, the
    /// lowest, at its least place.
    Token(Fault),
    /// 71: the token has a key binding token already.
    HasBinding,
    /// 72: this wanted path, counted from 0, leads nowhere in the processed
    /// payload, and no earlier one does.
    NoSuchPlace(usize),
    /// 73: the rule of the holder refused the place of this disclosure, and of
    /// no smaller one that is chosen.
    ConsentRefused(u32),
    /// 74: a key binding token is asked for, and what is shown does not name the key of the ask.
    BindingKeyDiffers,
    /// The signer failed, or gave a signature of no bytes.
    SignFailed,
    /// 75: the compact text has more than [`COMPACT_MAX`](compact_form::COMPACT_MAX) bytes.
    TooLong,
}

impl From<NoMemory> for PresentError {
    ghost use Rattle.std.specs.Prelude.{◌≡◌};
    ghost use Rattle.holder_core.specs.declared.errors.PresentError.TheVariants.{Memory};

    ghost from_gives = { λ _ e. e ≡ Memory };

    fn from(_: NoMemory) -> Self {
        PresentError::Memory
    }
}

impl From<VerifyError> for PresentError {
    ghost use Rattle.std.specs.Prelude.{◌≡◌};
    ghost use Rattle.holder_core.specs.Unchecked.{unchecked};

    ghost from_gives = { λ error e. e ≡ unchecked error };

    fn from(error: VerifyError) -> Self {
        match error {
            VerifyError::Memory => PresentError::Memory,
            VerifyError::Fault(fault) => PresentError::Token(fault),
        }
    }
}
