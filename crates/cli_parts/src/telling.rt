// How a run ends: its answer, or the line that tells why there is none.
ghost use Rattle.std.specs.Prelude.{◌≡◌, ◌<◌, ◌≤◌, IfOk, string_bytes};
ghost use Rattle.sd_outside.specs.declared.status.Status.TheVariants as status;
ghost use Rattle.cli_parts.specs.Finishing.{Finishes, TellsStop, streams};
ghost use Rattle.cli_parts.specs.Lines.{unread_text};
ghost use Rattle.cli_parts.specs.Outside.{stream, Tells};
ghost use Rattle.cli_parts.specs.declared.stop.Stop.TheVariants.{Unread};

use crate::Stop;
use sd_outside::{Failed, NoMemory, Sink, Status};
use std::alloc::Global;

/// A line on `err`, with the status that it explains. Where `err` fails, nothing else is tried.
pub fn tell<E: Sink>(err: &mut E, text: &str, status: Status) -> Status
    ensures status { result ≡ status }
    ensures told { Tells (stream E.Sink err.old) (stream E.Sink err.new) text.now }
    ensures later { E.faults err.old ≤ E.faults err.new }
{
    let _ = err.put(text.as_bytes());
    status
}

// The line of the file of a word, counted from 0, that could not be read.
fn unread_line(alloc: Global, word: usize) -> Result<String, NoMemory>
    ensures { IfOk result (λ text. string_bytes text ≡ unread_text word) }
{
    let number = word as u128 + 1;
    Ok(format!(in alloc; "unread {number}\n")?)
}

// Tells the line of a file that could not be read. Those of the first two words take no memory.
fn tell_unread<E: Sink>(alloc: Global, word: usize, err: &mut E) -> Status
    ensures told { TellsStop (Unread word) (stream E.Sink err.old) (stream E.Sink err.new) result }
    ensures no_memory { word < 2 → result ≡ status.Unread }
    ensures later { E.faults err.old ≤ E.faults err.new }
{
    match word {
        0 => tell(err, "unread 1\n", Status::Unread),
        1 => tell(err, "unread 2\n", Status::Unread),
        _ => match unread_line(alloc, word) {
            Ok(line) => tell(err, line.as_str(), Status::Unread),
            Err(NoMemory) => tell(err, "memory\n", Status::Memory),
        },
    }
}

/// The line that tells why there is no answer, on `err`, and the status of it.
pub fn tell_stop<E: Sink>(alloc: Global, stop: Stop, err: &mut E) -> Status
    ensures told { TellsStop stop (stream E.Sink err.old) (stream E.Sink err.new) result }
    ensures later { E.faults err.old ≤ E.faults err.new }
{
    match stop {
        Stop::Refused(line) => tell(err, line.as_str(), Status::Refused),
        Stop::Unread(word) => tell_unread(alloc, word, err),
        Stop::Unreadable(line) => tell(err, line.as_str(), Status::Unreadable),
        Stop::Memory => tell(err, "memory\n", Status::Memory),
    }
}

/// Ends a run: its answer goes to `out` in one piece, or the line that tells
/// why there is none to `err`.
pub fn end_run<O: Sink, E: Sink>(
    alloc: Global,
    answer: Result<String, Stop>,
    out: &mut O,
    err: &mut E,
) -> Status
    ensures finishes { Finishes answer
        (streams (stream O.Sink out.old) (stream E.Sink err.old))
        (streams (stream O.Sink out.new) (stream E.Sink err.new))
        result }
    ensures out_later { O.faults out.old ≤ O.faults out.new }
    ensures err_later { E.faults err.old ≤ E.faults err.new }
{
    match answer {
        Ok(text) => match out.put(text.as_bytes()) {
            Ok(()) => Status::Done,
            Err(Failed) => tell(err, "unwritten\n", Status::Unwritten),
        },
        Err(stop) => tell_stop(alloc, stop, err),
    }
}
