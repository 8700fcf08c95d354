// Why a text is no disclosure.
use b64url_text::NotBase64;
use claim_tree::ReadError;
use sd_outside::NoMemory;

/// The reasons why a string is not a disclosure, in the order in which they are checked.
#[derive(Clone, Copy, Debug, PartialEq, Eq)]
pub enum DisclosureError {
    /// Memory ran out.
    Memory,
    /// The string is not the base64url encoding of any bytes.
    NotBase64,
    /// The bytes are not JSON.
    NotJson,
    /// A number in the JSON is not a whole number.
    NotWhole,
    /// The JSON is not an array of two elements, or of three with a string as the second.
    NotDisclosure,
}

impl From<NoMemory> for DisclosureError {
    ghost use Rattle.std.specs.Prelude.{◌≡◌};
    ghost use Rattle.disclosure.specs.declared.errors.DisclosureError.TheVariants.{Memory};

    ghost from_gives = { λ _ e. e ≡ Memory };

    fn from(_: NoMemory) -> Self {
        DisclosureError::Memory
    }
}

impl From<NotBase64> for DisclosureError {
    ghost use Rattle.std.specs.Prelude.{◌≡◌};
    ghost use Rattle.disclosure.specs.declared.errors.DisclosureError.TheVariants.{NotBase64};

    ghost from_gives = { λ _ e. e ≡ NotBase64 };

    fn from(_: NotBase64) -> Self {
        DisclosureError::NotBase64
    }
}

impl From<ReadError> for DisclosureError {
    ghost use Rattle.std.specs.Prelude.{◌≡◌};
    ghost use Rattle.disclosure.specs.ReadSteps.{of_read};

    ghost from_gives = { λ e f. f ≡ of_read e };

    fn from(error: ReadError) -> Self {
        match error {
            ReadError::Memory => DisclosureError::Memory,
            ReadError::NotJson => DisclosureError::NotJson,
            ReadError::NotWhole => DisclosureError::NotWhole,
        }
    }
}
