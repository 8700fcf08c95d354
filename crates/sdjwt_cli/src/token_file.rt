// The token of a file.
ghost use Rattle.std.specs.Prelude.{IfOk, IfErr};
ghost use Rattle.json_form.specs.Token.{IsToken, IsTextRefused};
ghost use Rattle.json_form.specs.Printable.{IsPrintable};
ghost use Rattle.cli_parts.specs.Stops.{OnRefused, NotUnread, NotUnreadable};
ghost use Rattle.cli_parts.specs.Telling.{TellsFault};

use cli_parts::{Stop, refused};
use json_form::{TokenError, TokenText};
use std::alloc::Global;

// The token of a file, or the line of the lowest condition of 1 to 3 that fails.
pub(crate) fn token_of(alloc: Global, file: &[u8]) -> Result<TokenText<'_>, Stop>
    ensures token { IfOk result (IsToken file.now) }
    ensures printable { IfOk result IsPrintable }
    ensures refuses { IfErr result (λ stop. OnRefused stop (TellsFault (IsTextRefused file.now))) }
    ensures read { IfErr result NotUnread }
    ensures readable { IfErr result NotUnreadable }
{
    match TokenText::read(alloc, file) {
        Ok(token) => Ok(token),
        Err(TokenError::Memory) => Err(Stop::Memory),
        Err(TokenError::Fault(fault)) => Err(refused(alloc, &fault)),
    }
}
