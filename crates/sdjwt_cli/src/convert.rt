// The command `convert`: a token in another serialization.
ghost use Rattle.std.specs.Prelude.{◌≡◌, ℕ, List, IfOk, IfErr, string_bytes};
ghost use Rattle.json_form.specs.Token.{IsToken};
ghost use Rattle.json_form.specs.Printable.{IsPrintable};
ghost use Rattle.sdjwt_cli.specs.Converting.{IsConvertRefused, written, HasRoom, Converts};
ghost use Rattle.sdjwt_cli.specs.ConvertingSteps.{IsJsonOf};
ghost use Rattle.cli_parts.specs.Stops.{OnRefused, NotUnread, NotUnreadable};
ghost use Rattle.cli_parts.specs.Telling.{TellsFault};

use crate::form::Form;
use crate::token_file::token_of;
use cli_parts::{Stop, as_line, refused};
use compact_form::{FILE_MAX, print};
use json_form::{TokenText, flat_text, general_text};
use refusals::Condition;
use sd_outside::{NoMemory, TextBox};
use std::alloc::Global;

// The text of a token in a form.
fn write_as(alloc: Global, form: Form, token: TokenText<'_>) -> Result<TextBox, NoMemory>
    requires printable { IsPrintable token }
    ensures text { IfOk result (λ text. text ≡ written form token.entry) }
    ensures back { HasRoom form token.entry → IfOk result (IsJsonOf form token.entry) }
{
    match form {
        Form::Compact => {
            let token = token.into_token(alloc)?;
            print(alloc, &token.parts)
        }
        Form::Flat => flat_text(alloc, &token.view()),
        Form::General => general_text(alloc, &token.view()),
    }
}

// The answer for a token that is read, of whatever file.
fn convert_token(alloc: Global, form: Form, token: TokenText<'_>) -> Result<String, Stop>
    requires printable { IsPrintable token }
    ensures converts { (file : List ℕ) → IsToken file token.entry
        → IfOk result (λ text. Converts form file (string_bytes text)) }
    ensures refuses { (file : List ℕ) → IsToken file token.entry
        → IfErr result (λ stop. OnRefused stop (TellsFault (IsConvertRefused form file))) }
    ensures read { IfErr result NotUnread }
    ensures readable { IfErr result NotUnreadable }
{
    let text = as_line(write_as(alloc, form, token)?)?;
    if text.len() <= FILE_MAX {
        return Ok(text);
    }
    Err(refused(alloc, &Condition::TooMuch.fault()))
}

/// The answer to a token file: its token in a form, as a line.
pub fn convert(alloc: Global, form: Form, file: &[u8]) -> Result<String, Stop>
    ensures converts { IfOk result (λ text. Converts form file.now (string_bytes text)) }
    ensures refuses { IfErr result
        (λ stop. OnRefused stop (TellsFault (IsConvertRefused form file.now))) }
    ensures read { IfErr result NotUnread }
    ensures readable { IfErr result NotUnreadable }
{
    match token_of(alloc, file) {
        Ok(token) => convert_token(alloc, form, token),
        Err(stop) => Err(stop),
    }
}
