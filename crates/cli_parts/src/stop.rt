// Why a command has no answer.
ghost use Rattle.std.specs.Prelude.{◌≡◌, ◌≢◌, Ok, Err, IfOk, IfErr};
ghost use Rattle.file_members.specs.declared.file_fault.FileFault.{FileFault};
ghost use Rattle.cli_parts.specs.Lines.{refusal, unreadable_line as line_of};
ghost use Rattle.cli_parts.specs.Stops.{OnRefused, OnUnreadable, NotRefused, NotUnread, NotUnreadable};
ghost use Rattle.cli_parts.specs.Telling.{TellsFileFault};
ghost use Rattle.cli_parts.specs.declared.stop.Stop.TheVariants.{Memory};

use crate::lines::{refusal_line, unreadable_line};
use file_members::FileFault;
use refusals::Fault;
use sd_outside::NoMemory;
use std::alloc::Global;

/// Why a command has no answer. Each line has its line end.
#[derive(Debug, Drop)]
pub enum Stop {
    /// There was no memory.
    Memory,
    /// The file of this word could not be read. Words are counted behind the command, from 0.
    Unread(usize),
    /// A policy, an order or a seed is not of its form, with this line.
    Unreadable(String),
    /// The command refuses its files, with this line.
    Refused(String),
}

impl From<NoMemory> for Stop {
    ghost from_gives = { λ _ stop. stop ≡ Memory };

    fn from(_: NoMemory) -> Self {
        Stop::Memory
    }
}

/// A condition fails: its line, where there is memory for it.
pub fn refused(alloc: Global, fault: &Fault) -> Stop
    ensures line { OnRefused result (λ text. text ≡ refusal fault.now) }
    ensures read { NotUnread result }
    ensures readable { NotUnreadable result }
{
    match refusal_line(alloc, fault) {
        Ok(text) => Stop::Refused(text),
        Err(NoMemory) => Stop::Memory,
    }
}

// The first file of a command is not of its form: its line, where there is memory for it.
fn unreadable(alloc: Global, fault: FileFault) -> Stop
    ensures cause { OnUnreadable result (λ _. fault ≢ FileFault.Memory) }
    ensures line { OnUnreadable result (λ text. text ≡ line_of 1 fault) }
    ensures fit { NotRefused result }
    ensures read { NotUnread result }
{
    if let FileFault::Memory = fault {
        return Stop::Memory;
    }
    match unreadable_line(alloc, 1, fault) {
        Ok(text) => Stop::Unreadable(text),
        Err(NoMemory) => Stop::Memory,
    }
}

/// What the first file of a command says, or the line that tells why it is not of its form.
pub fn readable<T>(alloc: Global, said: Result<T, FileFault>) -> Result<T, Stop>
    ensures said { IfOk result (λ value. said ≡ Ok value) }
    ensures unreadable { IfErr result
        (λ stop. OnUnreadable stop (TellsFileFault (λ fault. said ≡ Err fault))) }
    ensures fit { IfErr result NotRefused }
    ensures read { IfErr result NotUnread }
{
    match said {
        Ok(value) => Ok(value),
        Err(fault) => Err(unreadable(alloc, fault)),
    }
}
