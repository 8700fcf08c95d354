// Why a feed stops.
ghost use Rattle.std.specs.Prelude.{◌≡◌};
ghost use Rattle.feed_core.specs.declared.error.FeedError.TheVariants.{Memory, Unwritten};

use sd_outside::{Failed, NoMemory};
use std::alloc::AllocError;

/// Why a feed did not take a piece, or did not end.
#[derive(Clone, Copy, Debug, PartialEq, Eq)]
pub enum FeedError {
    /// There was no memory.
    Memory,
    /// A verdict could not be written.
    Unwritten,
    /// The feed has ended, or stopped by an error before.
    Over,
}

impl From<NoMemory> for FeedError {
    ghost from_gives = { λ _ e. e ≡ Memory };

    fn from(_: NoMemory) -> Self {
        FeedError::Memory
    }
}

impl From<AllocError> for FeedError {
    ghost from_gives = { λ _ e. e ≡ Memory };

    fn from(_: AllocError) -> Self {
        FeedError::Memory
    }
}

impl From<Failed> for FeedError {
    ghost from_gives = { λ _ e. e ≡ Unwritten };

    fn from(_: Failed) -> Self {
        FeedError::Unwritten
    }
}
