// Why processing is refused.
ghost use Rattle.std.specs.Prelude.{◌≡◌};

use sd_outside::NoMemory;

/// The lowest condition that fails, with its least place, counted from 0.
#[derive(Clone, Copy, Debug, PartialEq, Eq)]
pub enum ProcessError {
    /// There was no memory for the answer.
    Memory,
    /// The digest of this disclosure equals that of an earlier one.
    RepeatedDisclosure(usize),
    /// A reserved name is misused in this tree: 0 is the payload, and i + 1 the
    /// value of disclosure i.
    ReservedMisused(usize),
    /// The digest at this place of the met list equals an earlier one.
    RepeatedDigest(usize),
    /// This disclosure is not reached.
    Unreferenced(usize),
    /// This disclosure has a name and stands for an element, or has none and stands for a member.
    WrongShape(usize),
    /// This disclosure has a reserved name.
    ReservedName(usize),
    /// The name that is disclosed at this place of the met list is there already.
    NameClash(usize),
    /// The processed payload nests deeper than 100.
    TooDeep,
}

impl From<NoMemory> for ProcessError {
    ghost use Rattle.rebuild_core.specs.declared.errors.ProcessError.TheVariants.{Memory};

    ghost from_gives = { λ _ e. e ≡ Memory };

    fn from(_: NoMemory) -> Self {
        ProcessError::Memory
    }
}
