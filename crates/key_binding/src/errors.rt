// Why no key binding token is made, and what one that is read lacks.
ghost use Rattle.std.specs.Prelude.{◌≡◌};

use hmac_sign::SignError;
use refusals::Condition;
use sd_outside::NoMemory;

/// Why no key binding token is written.
#[derive(Clone, Copy, Debug, PartialEq, Eq)]
pub enum BindError {
    /// There was no memory for it.
    Memory,
    /// The signer failed.
    SignFailed,
}

impl From<NoMemory> for BindError {
    ghost use Rattle.key_binding.specs.declared.errors.BindError.TheVariants.{Memory};

    ghost from_gives = { λ _ e. e ≡ Memory };

    fn from(_: NoMemory) -> Self {
        BindError::Memory
    }
}

impl From<SignError> for BindError {
    ghost use Rattle.key_binding.specs.Unsigned.{bind_unsigned};

    ghost from_gives = { λ error e. e ≡ bind_unsigned error };

    fn from(error: SignError) -> Self {
        match error {
            SignError::Memory => BindError::Memory,
            SignError::Failed => BindError::SignFailed,
        }
    }
}

/// Why a key binding token whose texts are borrowed is not accepted.
#[derive(Clone, Copy, Debug, PartialEq, Eq)]
pub enum BoundError {
    /// There was no memory to judge it.
    Memory,
    /// The lowest condition that fails, one of 27 to 38.
    Fails(Condition),
}

/// Why a key binding token is not accepted.
#[derive(Clone, Copy, Debug, PartialEq, Eq)]
pub enum BindingError {
    /// There was no memory to judge it.
    Memory,
    /// The number of the lowest condition that fails, from 27 to 38.
    Fault(u8),
}
