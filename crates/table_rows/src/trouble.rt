// Why a line of a table is not run.
use sd_outside::NoMemory;
use std::alloc::{AllocError, AllocFailed};

/// Why a line of a table is not run.
#[derive(Debug, Drop)]
pub(crate) enum Trouble {
    /// There was no memory.
    Memory,
    /// The line is not of the language of rows, with what is wrong.
    Unread(&'static str),
}

impl From<NoMemory> for Trouble {
    fn from(_: NoMemory) -> Self {
        Trouble::Memory
    }
}

impl From<AllocError> for Trouble {
    fn from(_: AllocError) -> Self {
        Trouble::Memory
    }
}

impl<T: Drop> From<AllocFailed<T>> for Trouble {
    fn from(_: AllocFailed<T>) -> Self {
        Trouble::Memory
    }
}
