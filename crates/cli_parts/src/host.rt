// What a program takes from its host before it runs a command, and how it ends.
ghost use Rattle.std.specs.Prelude.{◌≡◌, ◌≢◌, ◌≤◌, ◌/◌, drop, IfOk, IfErr};
ghost use Rattle.std.specs.Time.{system_time_nanos};
ghost use Rattle.std.specs.Vec.Iter.{into_iter_items};
ghost use Rattle.cli_parts.specs.Endings.{EndsWith, ending_row};
ghost use Rattle.cli_parts.specs.Lines.{line};
ghost use Rattle.cli_parts.specs.Outside.{Tells, stream};

use crate::tell;
use sd_outside::{NoMemory, Sink, Status};
use std::alloc::Global;
use std::process::ExitCode;
use std::rt::{Clock, Env};
use std::time::{SystemTime, UNIX_EPOCH};
use std::{env, io};

/// Why a program runs no command.
#[derive(Clone, Copy, Debug)]
pub enum Ending {
    /// A word is not UTF-8.
    Words,
    /// There was no memory for the words.
    Memory,
    /// The clock could not be read.
    Clock,
}

impl Ending {
    // Tells it on `err`, and answers the status that it has.
    fn tell<E: Sink>(self, err: &mut E) -> Status
        ensures status { result ≡ (ending_row self).0 }
        ensures told { Tells (stream E.Sink err.old) (stream E.Sink err.new)
            (line (ending_row self).1) }
        ensures later { E.faults err.old ≤ E.faults err.new }
    {
        match self {
            Ending::Words => tell(err, "usage\n", Status::Usage),
            Ending::Memory => tell(err, "memory\n", Status::Memory),
            Ending::Clock => tell(err, "unread clock\n", Status::Unread),
        }
    }
}

/// The words behind the program's name, which is the first of what the host tells.
pub fn words(rt: &(impl Env + AllocGlobal)) -> Result<Vec<String>, Ending>
    ensures cause { IfErr result (λ ending. ending ≢ Ending.Clock) }
{
    match env::args(rt) {
        Ok(args) => match behind_first(rt.alloc(), args) {
            Ok(words) => Ok(words),
            Err(NoMemory) => Err(Ending::Memory),
        },
        Err(fault) if fault.kind() == io::ErrorKind::InvalidData => Err(Ending::Words),
        Err(_) => Err(Ending::Memory),
    }
}

// All words but the first, as they are.
// Each is pushed, since `collect` first asks for room for all, and passes over a refusal.
fn behind_first(alloc: Global, args: env::Args) -> Result<Vec<String>, NoMemory>
    ensures { IfOk result (λ words. words.items ≡ drop 1 (into_iter_items args)) }
{
    let mut rest = args;
    let _name = rest.next();
    let mut words = Vec::new(alloc);
    for word in rest {
        words.push(word)?;
    }
    Ok(words)
}

/// Whole seconds since 1970, and 0 before. What the clock says is the host's to say.
// std tells a clock that stands before 1970 by `InvalidData`.
pub fn seconds(rt: &impl Clock) -> Result<u64, Ending>
    ensures cause { IfErr result (λ ending. ending ≡ Ending.Clock) }
{
    match SystemTime::now(rt) {
        Ok(now) => Ok(whole_seconds(now)),
        Err(fault) if fault.kind() == io::ErrorKind::InvalidData => Ok(0),
        Err(_) => Err(Ending::Clock),
    }
}

fn whole_seconds(now: SystemTime) -> u64
    ensures { result ≡ system_time_nanos now / 1_000_000_000 }
{
    now.duration_since(UNIX_EPOCH)
        .map_or(0, |time| time.as_secs())
}

/// The exit status of the program. Where it ran no command, `err` is told why.
pub fn exit_code<E: Sink>(ran: Result<Status, Ending>, err: &mut E) -> ExitCode
    ensures ends { EndsWith ran (stream E.Sink err.old) (stream E.Sink err.new) result }
    ensures later { E.faults err.old ≤ E.faults err.new }
{
    let status = match ran {
        Ok(status) => status,
        Err(ending) => ending.tell(err),
    };
    ExitCode::from(status.number())
}
