// Why nothing is chosen, and why a place may not be shown.
use sd_outside::NoMemory;

/// Why nothing is chosen.
#[derive(Clone, Copy, Debug, PartialEq, Eq)]
pub enum ChooseError {
    /// There was no memory for the choice.
    Memory,
    /// The wanted path with this number, counted from 0, leads nowhere, and no earlier one does.
    NoSuchPlace(usize),
}

impl From<NoMemory> for ChooseError {
    ghost use Rattle.std.specs.Prelude.{◌≡◌};
    ghost use Rattle.selection_core.specs.declared.errors.ChooseError.TheVariants.{Memory};

    ghost from_gives = { λ _ e. e ≡ Memory };

    fn from(_: NoMemory) -> Self {
        ChooseError::Memory
    }
}

/// Why the chosen places are not shown.
#[derive(Clone, Copy, Debug, PartialEq, Eq)]
pub enum AllowError {
    /// There was no memory for the places.
    Memory,
    /// The rule refused the place of this mark, and of no smaller one that is chosen.
    Refused(u32),
}

impl From<NoMemory> for AllowError {
    ghost use Rattle.std.specs.Prelude.{◌≡◌};
    ghost use Rattle.selection_core.specs.declared.errors.AllowError.TheVariants.{Memory};

    ghost from_gives = { λ _ e. e ≡ Memory };

    fn from(_: NoMemory) -> Self {
        AllowError::Memory
    }
}
