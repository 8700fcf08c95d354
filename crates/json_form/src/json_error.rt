// Why a text has neither of the two JSON forms.
ghost use Rattle.std.specs.Prelude.{◌≡◌};

use claim_tree::ReadError;
use refusals::JsonPlace;
use sd_outside::NoMemory;

/// Why a text is not read as a JSON serialization.
#[derive(Clone, Copy, Debug, PartialEq, Eq)]
pub enum JsonFormError {
    /// There was no memory for the token.
    Memory,
    /// It is none. This is the first place at which it fails.
    Fault(JsonPlace),
}

impl From<NoMemory> for JsonFormError {
    ghost use Rattle.json_form.specs.declared.json_error.JsonFormError.TheVariants.{Memory};

    ghost from_gives = { λ _ e. e ≡ Memory };

    fn from(_: NoMemory) -> Self {
        JsonFormError::Memory
    }
}

impl From<JsonPlace> for JsonFormError {
    ghost use Rattle.json_form.specs.declared.json_error.JsonFormError.TheVariants.{Fault};

    ghost from_gives = { λ place e. e ≡ Fault place };

    fn from(place: JsonPlace) -> Self {
        JsonFormError::Fault(place)
    }
}

impl From<ReadError> for JsonFormError {
    ghost use Rattle.json_form.specs.MembersRead.{unread_place};

    ghost from_gives = { λ error e. e ≡ unread_place error };

    fn from(error: ReadError) -> Self {
        match error {
            ReadError::Memory => JsonFormError::Memory,
            ReadError::NotJson => JsonFormError::Fault(JsonPlace::NotJson),
            ReadError::NotWhole => JsonFormError::Fault(JsonPlace::NotWhole),
        }
    }
}
