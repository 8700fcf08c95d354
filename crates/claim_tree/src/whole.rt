// The numbers of trees.
ghost use Rattle.std.specs.Prelude.{◌≡◌, pos};
ghost use Rattle.claim_tree.specs.Tree.{InRange};

use std::marker::Model;

/// A whole number of 64 bits, with a sign or without: from -2^63 to 2^64 - 1.
#[derive(Clone, Copy, Debug, PartialEq, Eq)]
pub struct Whole {
    number: i128,
}

impl Model for Whole {
    ghost use Rattle.std.specs.Prelude.{ℤ};
    ghost use Rattle.claim_tree.specs.Tree.{InRange};

    ghost Value = { ℤ };

    ghost view = { λ w. w.number };

    ghost inverse = { λ n. record { number = n } };

    ghost invariant = { λ w. InRange w.number };
}

impl Whole {
    /// The number.
    pub fn get(self) -> i128
        ensures value { result ≡ self }
        ensures ranged { InRange self }
    {
        self.number
    }
}

impl From<u64> for Whole {
    ghost from_gives = { λ n whole. whole ≡ pos n };

    fn from(n: u64) -> Whole {
        Whole {
            number: i128::from(n),
        }
    }
}

impl From<i64> for Whole {
    ghost from_gives = { λ n whole. whole ≡ n };

    fn from(n: i64) -> Whole {
        Whole {
            number: i128::from(n),
        }
    }
}
