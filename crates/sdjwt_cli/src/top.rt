// A whole run of the program: its words, its files, its answer.
ghost use Rattle.std.specs.Prelude.{◌≡◌, ◌≤◌, ℕ, List, map, IfErr, string_bytes};
ghost use Rattle.sd_outside.specs.Causes.{Rose};
ghost use Rattle.cli_parts.specs.Outside.{outside};
ghost use Rattle.cli_parts.specs.Runs.{RunKeeps};
ghost use Rattle.cli_parts.specs.Stops.{IsReply, OnUnread};
ghost use Rattle.sdjwt_cli.specs.Answers.{IsAnswered};
ghost use Rattle.sdjwt_cli.specs.Names.{meant_by};
ghost use Rattle.sdjwt_cli.specs.Run.{Misses, Ends};

use crate::command::Command;
use crate::convert::convert;
use crate::issue::{SEED_LEN, issue};
use crate::present::present;
use crate::show::show;
use crate::split::split;
use crate::summary::summary;
use crate::verify::verify;
use cli_parts::{FETCH_MAX, Stop, end_run, fetch_file, tell};
use sd_outside::{Cabinet, Sink, Status};
use std::alloc::Global;

// The answer of a command, over the files that the cabinet has under its names.
fn answer<C: Cabinet>(
    alloc: Global,
    cab: &mut C,
    command: Command<'_>,
    now: u64,
) -> Result<String, Stop>
    ensures replies { IsReply (IsAnswered (C.holds cab.old) (meant_by command.entry) now) result }
    ensures misses { IfErr result
        (λ stop. OnUnread stop (λ word. Misses (meant_by command.entry) word (C.missed cab.new))) }
    ensures rose { IfErr result
        (λ stop. OnUnread stop (λ word. Rose (C.faults cab.old) (C.faults cab.new))) }
    ensures held { (name : List ℕ) → C.holds cab.new name ≡ C.holds cab.old name }
    ensures later { C.faults cab.old ≤ C.faults cab.new }
{
    match command {
        Command::Split { token } => {
            let file = fetch_file(alloc, cab, token, FETCH_MAX, 0)?;
            split(alloc, file.bytes())
        }
        Command::Show { token } => {
            let file = fetch_file(alloc, cab, token, FETCH_MAX, 0)?;
            show(alloc, file.bytes())
        }
        Command::Verify { policy, token } => {
            let policy = fetch_file(alloc, cab, policy, FETCH_MAX, 0)?;
            let token = fetch_file(alloc, cab, token, FETCH_MAX, 1)?;
            verify(alloc, policy.bytes(), token.bytes(), now)
        }
        Command::Issue { order, seed } => {
            let order = fetch_file(alloc, cab, order, FETCH_MAX, 0)?;
            let seed = fetch_file(alloc, cab, seed, SEED_LEN, 1)?;
            issue(alloc, order.bytes(), seed.bytes())
        }
        Command::Present { order, token } => {
            let order = fetch_file(alloc, cab, order, FETCH_MAX, 0)?;
            let token = fetch_file(alloc, cab, token, FETCH_MAX, 1)?;
            present(alloc, order.bytes(), token.bytes(), now)
        }
        Command::Convert { form, token } => {
            let file = fetch_file(alloc, cab, token, FETCH_MAX, 1)?;
            convert(alloc, form, file.bytes())
        }
        Command::Gen { count } => summary(alloc, count),
    }
}

/// Runs the command that the words name, over the files of the cabinet.
///
/// `words` are the words behind the program's name, and `now` is the moment in seconds since 1970.
/// The whole answer goes to `out` in one piece, and the line of any other status to `err`. What
/// each status says of the outside before and after is `Ends`, by cases.
pub fn run<C: Cabinet, O: Sink, E: Sink>(
    alloc: Global,
    words: &[String],
    cab: &mut C,
    now: u64,
    out: &mut O,
    err: &mut E,
) -> Status
    ensures ends { Ends (map string_bytes words.now)
        (outside C.Cabinet O.Sink E.Sink cab.old out.old err.old)
        (outside C.Cabinet O.Sink E.Sink cab.new out.new err.new) now result }
    ensures keeps { RunKeeps (outside C.Cabinet O.Sink E.Sink cab.old out.old err.old)
        (outside C.Cabinet O.Sink E.Sink cab.new out.new err.new) }
{
    let Some(command) = Command::of(words) else {
        return tell(err, "usage\n", Status::Usage);
    };
    end_run(alloc, answer(alloc, cab, command, now), out, err)
}
