// Where the text of a feed comes from.
ghost use Rattle.std.specs.Prelude.{◌≡◌, ◌+◌, ◌<◌, ◌≤◌, ◌^◌, List, ℕ, Option, length, take, IfOk, OnErr};
ghost use Rattle.std.specs.Io.KnownBytes.{Consumes, IsAtEnd, Keeps};
ghost use Rattle.sd_outside.specs.Causes.{Rose};

use crate::Failed;

/// Where bytes come from in pieces, as standard input.
///
/// A source tells what it has left or not: the clauses on content hold where it
/// does. How many bytes it gave is always told.
pub trait Source {
    /// The bytes that are still to come, where the source tells them.
    ghost left: { Self → Option (List ℕ) };

    /// The number of bytes given so far.
    ghost taken: { Self → ℕ };

    /// How often a pull has failed.
    ghost faults: { Self → ℕ };

    /// Puts the next bytes into the front of `room`, and answers how many: none
    /// only at the end. It takes no memory. What stands behind them in `room`,
    /// and after a failure the whole of it, is open.
    fn pull(&mut self, room: &mut [u8]) -> Result<usize, Failed>
        requires room { 0 < length room.old }
        requires countable { taken self.old + length room.old < 2 ^ 64 }

        ensures gives { IfOk result
            (λ count. Consumes (left self.old) (left self.new) (take count room.new)) }
        ensures within { IfOk result (λ count. count ≤ length room.old) }
        ensures counts { IfOk result (λ count. taken self.new ≡ taken self.old + count) }
        ensures end { IfOk result (λ count. count ≡ 0 → IsAtEnd (left self.old)) }

        // a failure has its cause, and gives nothing
        ensures failed { OnErr result (Rose (faults self.old) (faults self.new)) }
        ensures same_left { OnErr result (Keeps (left self.old) (left self.new)) }
        ensures same_taken { OnErr result (taken self.new ≡ taken self.old) }
        ensures later { faults self.old ≤ faults self.new };
}
