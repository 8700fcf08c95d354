// Where the files of a command come from.
ghost use Rattle.std.specs.Prelude.{◌≡◌, ◌≢◌, ◌≤◌, List, ℕ, Option, Some, length, take, IfOk, IfSome, IsErrOf};
ghost use Rattle.sd_outside.specs.Causes.{Rose};

use crate::{ByteBox, FetchError};
use std::alloc::Global;

/// Where bytes come from, by name.
///
/// A cabinet tells what it holds or not: the clauses on content hold where it
/// does. What it holds is the same after each fetch.
pub trait Cabinet {
    /// The bytes under a name, where the cabinet tells them.
    ghost holds: { Self → List ℕ → Option (List ℕ) };

    /// How often a fetch has failed.
    ghost faults: { Self → ℕ };

    /// The name of the latest fetch that failed. It is always told.
    ghost missed: { Self → Option (List ℕ) };

    /// The first `most` bytes under a name, or all where there are fewer.
    fn fetch(&mut self, alloc: Global, name: &str, most: usize) -> Result<ByteBox, FetchError>
        ensures content { IfOk result
            (λ bytes. IfSome (holds self.old name.now) (λ file. bytes ≡ take most file)) }
        ensures within { IfOk result (λ bytes. length bytes ≤ most) }

        // a failure has its cause, and names what was missed
        ensures failed { IsErrOf result FetchError.Failed
            → Rose (faults self.old) (faults self.new) }
        ensures names { IsErrOf result FetchError.Failed → missed self.new ≡ Some name.now }

        // what stays
        ensures same_names { (result ≢ Err FetchError.Failed) → missed self.new ≡ missed self.old }
        ensures same_holds { (other : List ℕ) → holds self.new other ≡ holds self.old other }
        ensures later { faults self.old ≤ faults self.new };
}
