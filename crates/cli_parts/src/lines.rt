// The lines that the program writes to standard error.
ghost use Rattle.std.specs.Prelude.{◌≡◌, IfOk, string_bytes};
ghost use Rattle.cli_parts.specs.Lines.{line, reason as reason_of, refusal, short_seed, unreadable_line as line_of};

use file_members::FileFault;
use refusals::{Fault, fault_line};
use sd_outside::{NoMemory, TextBox};
use std::alloc::Global;

/// The text with a line end behind it.
pub fn as_line(text: TextBox) -> Result<String, NoMemory>
    ensures { IfOk result (λ whole. string_bytes whole ≡ line text) }
{
    let mut whole = text.into_string();
    whole.push_str("\n")?;
    Ok(whole)
}

/// The line of a condition that fails.
pub fn refusal_line(alloc: Global, fault: &Fault) -> Result<String, NoMemory>
    ensures { IfOk result (λ text. string_bytes text ≡ refusal fault.now) }
{
    as_line(fault_line(alloc, fault)?)
}

// Why a file is not of its form.
fn reason(alloc: Global, fault: FileFault) -> Result<String, NoMemory>
    ensures { IfOk result (λ text. string_bytes text ≡ reason_of fault) }
{
    let text = match fault {
        FileFault::Memory => String::new(alloc),
        FileFault::TooLong => String::from_str(alloc, "tooLong")?,
        FileFault::NotJson => String::from_str(alloc, "notJson")?,
        FileFault::NotWhole => String::from_str(alloc, "notWhole")?,
        FileFault::NotObject => String::from_str(alloc, "notObject")?,
        FileFault::Unknown => String::from_str(alloc, "unknown")?,
        FileFault::Missing(field) => {
            let word = field.word();
            format!(in alloc; "missing {word}")?
        }
        FileFault::Wrong(field) => {
            let word = field.word();
            format!(in alloc; "wrong {word}")?
        }
    };
    Ok(text)
}

/// The line of a file that is not of its form. Its word is counted behind the command, from 1.
pub fn unreadable_line(alloc: Global, word: usize, fault: FileFault) -> Result<String, NoMemory>
    ensures { IfOk result (λ text. string_bytes text ≡ line_of word fault) }
{
    let reason = reason(alloc, fault)?;
    Ok(format!(in alloc; "unreadable {word} {reason}\n")?)
}

/// The line of a seed that is too short.
pub fn short_seed_line(alloc: Global) -> Result<String, NoMemory>
    ensures { IfOk result (λ text. string_bytes text ≡ short_seed) }
{
    Ok(String::from_str(alloc, "unreadable 2 short\n")?)
}
