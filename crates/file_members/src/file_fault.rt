// The faults of the files that a command reads.
ghost use Rattle.std.specs.Prelude.{◌≡◌};

use crate::Field;
use claim_tree::ReadError;
use sd_outside::NoMemory;

/// Why a file is not the order or the policy that it should be, in the order in which it is judged.
#[derive(Clone, Copy, Debug, PartialEq, Eq)]
pub enum FileFault {
    /// There was no memory for what it says.
    Memory,
    /// It has more bytes than a file may have.
    TooLong,
    /// [`read`](claim_tree::read) answers `NotJson`.
    NotJson,
    /// [`read`](claim_tree::read) answers `NotWhole`.
    NotWhole,
    /// It is JSON, but no object.
    NotObject,
    /// It has a member that the file does not know.
    Unknown,
    /// A member that the file must have is not there.
    Missing(Field),
    /// A member is not of its form.
    Wrong(Field),
}

impl From<NoMemory> for FileFault {
    ghost use Rattle.file_members.specs.declared.file_fault.FileFault.TheVariants.{Memory};

    ghost from_gives = { λ _ e. e ≡ Memory };

    fn from(_: NoMemory) -> Self {
        FileFault::Memory
    }
}

impl From<ReadError> for FileFault {
    ghost use Rattle.file_members.specs.FileRefusals.{unread_fault};

    ghost from_gives = { λ error fault. fault ≡ unread_fault error };

    fn from(error: ReadError) -> Self {
        match error {
            ReadError::Memory => FileFault::Memory,
            ReadError::NotJson => FileFault::NotJson,
            ReadError::NotWhole => FileFault::NotWhole,
        }
    }
}
