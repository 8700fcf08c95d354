// The files of a program.
ghost use Rattle.std.specs.Prelude.{◌≡◌, ◌≤◌, ℕ, List, Some, take, IfOk, IfErr, IfSome};
ghost use Rattle.sd_outside.specs.Causes.{Rose};
ghost use Rattle.cli_parts.specs.Stops.{OnUnread, NotRefused, NotUnreadable};

use crate::Stop;
use compact_form::FILE_MAX;
use sd_outside::{ByteBox, Cabinet, FetchError};
use std::alloc::Global;

/// A file that is too long shows by one byte more than is allowed.
pub const FETCH_MAX: usize = FILE_MAX + 1;

/// At most so many bytes of the file of a word, which is counted behind the command, from 0.
pub fn fetch_file<C: Cabinet>(
    alloc: Global,
    cab: &mut C,
    name: &str,
    most: usize,
    word: usize,
) -> Result<ByteBox, Stop>
    ensures content { IfOk result
        (λ file. IfSome (C.holds cab.old name.now) (λ content. file ≡ take most content)) }
    ensures refuses { IfErr result NotRefused }
    ensures unreadable { IfErr result NotUnreadable }
    ensures unread { IfErr result (λ stop. OnUnread stop (λ k. k ≡ word)) }
    ensures missed { IfErr result (λ stop. OnUnread stop (λ _. C.missed cab.new ≡ Some name.now)) }
    ensures rose { IfErr result
        (λ stop. OnUnread stop (λ _. Rose (C.faults cab.old) (C.faults cab.new))) }
    ensures held { (other : List ℕ) → C.holds cab.new other ≡ C.holds cab.old other }
    ensures later { C.faults cab.old ≤ C.faults cab.new }
{
    match cab.fetch(alloc, name, most) {
        Ok(file) => Ok(file),
        Err(FetchError::Memory) => Err(Stop::Memory),
        Err(FetchError::Failed) => Err(Stop::Unread(word)),
    }
}
