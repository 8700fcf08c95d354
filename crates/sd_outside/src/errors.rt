// What may go wrong outside: no memory, and calls that fail.
ghost use Rattle.std.specs.Prelude.{◌≡◌};
ghost use Rattle.sd_outside.specs.declared.errors.FetchError.TheVariants.{Memory};

use std::alloc::{AllocError, AllocFailed};

/// There was no memory for the answer.
#[derive(Clone, Copy, Debug, PartialEq, Eq)]
pub struct NoMemory;

impl From<AllocError> for NoMemory {
    fn from(_: AllocError) -> Self {
        NoMemory
    }
}

impl<T: Drop> From<AllocFailed<T>> for NoMemory {
    fn from(_: AllocFailed<T>) -> Self {
        NoMemory
    }
}

/// A call on an object of the outside failed.
#[derive(Clone, Copy, Debug, PartialEq, Eq)]
pub struct Failed;

/// Why a cabinet answers no bytes.
#[derive(Clone, Copy, Debug, PartialEq, Eq)]
pub enum FetchError {
    /// There was no memory for them.
    Memory,
    /// The cabinet has nothing under the name, or could not read it.
    Failed,
}

impl From<NoMemory> for FetchError {
    ghost from_gives = { λ _ e. e ≡ Memory };

    fn from(_: NoMemory) -> Self {
        FetchError::Memory
    }
}
