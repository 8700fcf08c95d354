// The command `split`: the parts of a token, each on a line.
ghost use Rattle.std.specs.Prelude.{◌≡◌, ◌^◌, ◌<◌, ◌++◌, length, IfOk, IfErr, OnOk, codes, string_bytes};
ghost use Rattle.std.specs.Fmt.{decimal};
ghost use Rattle.std.specs.Option.{option_map};
ghost use Rattle.compact_form.specs.Views.{jwt_of};
ghost use Rattle.cli_parts.specs.Lines.{line};
ghost use Rattle.sdjwt_cli.specs.Split.{disclosure_lines, binding_line, signed_lines, split_lines, Splits};
ghost use Rattle.cli_parts.specs.Stops.{OnRefused, NotUnread, NotUnreadable};
ghost use Rattle.cli_parts.specs.Telling.{TellsFault};
ghost use Rattle.json_form.specs.Token.{IsTextRefused};

use crate::token_file::token_of;
use cli_parts::Stop;
use compact_form::JwtView;
use json_form::{Disclosures, TokenView};
use sd_outside::NoMemory;
use std::alloc::Global;

fn push_signed(text: &mut String, jwt: JwtView<'_>) -> Result<(), NoMemory>
    ensures { OnOk result
        (string_bytes text.new ≡ string_bytes text.old ++ signed_lines (jwt_of jwt.entry)) }
{
    let JwtView {
        protected,
        payload,
        signature,
    } = jwt;
    writeln!(text, "protected {protected}")?;
    writeln!(text, "payload {payload}")?;
    writeln!(text, "signature {signature}")?;
    Ok(())
}

fn push_disclosure(text: &mut String, i: usize, disclosure: &str) -> Result<(), NoMemory>
    ensures { OnOk result
        (string_bytes text.new
        ≡ string_bytes text.old
        ++ line (codes "disclosure " ++ (decimal i ++ (codes " " ++ disclosure.now)))) }
{
    writeln!(text, "disclosure {i} {disclosure}")?;
    Ok(())
}

fn push_disclosures(text: &mut String, disclosures: Disclosures<'_>) -> Result<(), NoMemory>
    requires { length disclosures < 2 ^ 64 }
    ensures { OnOk result
        (string_bytes text.new ≡ string_bytes text.old ++ disclosure_lines 0 disclosures.entry) }
{
    for (i, disclosure) in disclosures.enumerate() {
        push_disclosure(text, i, disclosure)?;
    }
    Ok(())
}

pub(crate) fn push_binding(text: &mut String, binding: Option<JwtView<'_>>) -> Result<(), NoMemory>
    ensures { OnOk result
        (string_bytes text.new
        ≡ string_bytes text.old ++ binding_line (option_map jwt_of binding.entry)) }
{
    if let Some(jwt) = binding {
        let JwtView {
            protected,
            payload,
            signature,
        } = jwt;
        writeln!(text, "binding {protected}.{payload}.{signature}")?;
    }
    Ok(())
}

// The lines of the parts. The text takes memory for `room` bytes at first.
fn split_text(alloc: Global, token: &TokenView<'_>, room: usize) -> Result<String, NoMemory>
    ensures { IfOk result (λ text. string_bytes text ≡ split_lines token.now.parts) }
{
    let mut text = String::with_capacity(alloc, room)?;
    push_signed(&mut text, token.signed())?;
    push_disclosures(&mut text, token.disclosures())?;
    push_binding(&mut text, token.binding())?;
    Ok(text)
}

// The most bytes that a line adds to its part: its word, a number and the line end.
const LINE_MORE: usize = 20;

// Memory enough for the lines of a file with so many disclosures.
fn room_for(file: &[u8], disclosures: usize) -> usize {
    let more = disclosures.saturating_add(4).saturating_mul(LINE_MORE);
    file.len().saturating_add(more)
}

/// The answer to a token file.
pub fn split(alloc: Global, file: &[u8]) -> Result<String, Stop>
    ensures gives { IfOk result (λ text. Splits file.now (string_bytes text)) }
    ensures refuses { IfErr result (λ stop. OnRefused stop (TellsFault (IsTextRefused file.now))) }
    ensures read { IfErr result NotUnread }
    ensures readable { IfErr result NotUnreadable }
{
    let token = token_of(alloc, file)?;
    let view = token.view();
    Ok(split_text(alloc, &view, room_for(file, view.count()))?)
}
