// A token in compact form, read up to its longest length.
ghost use Rattle.std.specs.Prelude.{◌≡◌, IfOk, IfErr};
ghost use Rattle.compact_form.specs.Trim.{trimmed, is_json as json_test, is_too_long as too_long_test};
ghost use Rattle.compact_form.specs.CompactToken.{IsCompactRefused, ReadsCompact};

use crate::{At, COMPACT_MAX, COUNT_MAX, FILE_MAX, View, trim};
use refusals::{Condition, Fault, Place};

/// Whether a text begins with `{`, and so is to be a JSON serialization (RFC 9901 section 8).
pub fn is_json(text: &[u8]) -> bool
    ensures { result ≡ json_test text.now }
{
    text.first() == Some(&b'{')
}

fn is_too_long(text: &[u8], token: &[u8]) -> bool
    requires { token.now ≡ trimmed text.now }
    ensures { result ≡ too_long_test text.now }
{
    text.len() > FILE_MAX || (!is_json(token) && token.len() > COMPACT_MAX)
}

/// The parts of a token that stands in a file, or the lowest condition of 1 to 3 that fails.
///
/// The blanks at both ends are cut off first. It takes no memory. A text that begins with `{` is a
/// JSON serialization (RFC 9901 section 8), which is not read here: it is refused at byte 0.
pub fn read_view(text: &[u8]) -> Result<View<'_>, Fault>
    ensures ok { IfOk result (ReadsCompact text.now) }
    ensures err { IfErr result (IsCompactRefused text.now) }
{
    let token = trim(text);
    if is_too_long(text, token) {
        return Err(Condition::TooLong.fault());
    }
    let view = match View::scan(token) {
        Ok(view) => view,
        Err(At(stop)) => return Err(Condition::Form.fault_at(Place::At(stop))),
    };
    if view.count() > COUNT_MAX {
        return Err(Condition::TooMuch.fault());
    }
    Ok(view)
}
