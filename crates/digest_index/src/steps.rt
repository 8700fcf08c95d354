// A count of the look-ups of an index.
ghost use Rattle.std.specs.Prelude.{◌≡◌};
ghost use Rattle.digest_index.specs.Index.{ticked};

use std::marker::Model;

/// A count of look-ups, which stays at the last value of a `u64`. Contracts see the number.
///
/// Nothing but the look-ups of an index raises it.
#[derive(Debug, Drop)]
pub struct Steps {
    count: u64,
}

impl Model for Steps {
    ghost use Rattle.std.specs.Prelude.{ℕ};

    ghost Value = { ℕ };

    ghost view = { λ s. s.count };
}

impl Steps {
    /// No look-ups.
    pub fn new() -> Steps
        ensures { result ≡ 0 }
    {
        Steps { count: 0 }
    }

    /// The number of look-ups.
    pub fn count(&self) -> u64
        ensures { result ≡ self.now }
    {
        self.count
    }

    pub(crate) fn tick(&mut self)
        ensures { self.new ≡ ticked self.old }
    {
        self.count = self.count.saturating_add(1);
    }
}
