// The commands, read from the words of a run.
ghost use Rattle.std.specs.Prelude.{◌≡◌, [], ◌∷◌, map, string_bytes};
ghost use Rattle.std.specs.Option.{option_map};
ghost use Rattle.sdjwt_cli.specs.Command.{command_of};
ghost use Rattle.sdjwt_cli.specs.Names.{meant_by};

use crate::form::Form;
use crate::generated::count_of;

// A command, with the names of its files, of `convert` the form, and of `gen` the number.
#[derive(Clone, Copy, Debug)]
pub(crate) enum Command<'a> {
    Split { token: &'a str },
    Show { token: &'a str },
    Verify { policy: &'a str, token: &'a str },
    Issue { order: &'a str, seed: &'a str },
    Present { order: &'a str, token: &'a str },
    Convert { form: Form, token: &'a str },
    Gen { count: u32 },
}

// The command of this name over one file, or of one number.
fn over_one<'a>(name: &str, word: &'a str) -> Option<Command<'a>>
    ensures { option_map meant_by result ≡ command_of (name.now ∷ word.now ∷ []) }
{
    match name {
        "split" => Some(Command::Split { token: word }),
        "show" => Some(Command::Show { token: word }),
        "gen" => Some(Command::Gen {
            count: count_of(word)?,
        }),
        _ => None,
    }
}

// The command of this name over two files, or over a form and a file.
fn over_two<'a>(name: &str, first: &'a str, second: &'a str) -> Option<Command<'a>>
    ensures { option_map meant_by result ≡ command_of (name.now ∷ first.now ∷ second.now ∷ []) }
{
    match name {
        "verify" => Some(Command::Verify {
            policy: first,
            token: second,
        }),
        "issue" => Some(Command::Issue {
            order: first,
            seed: second,
        }),
        "present" => Some(Command::Present {
            order: first,
            token: second,
        }),
        "convert" => Some(Command::Convert {
            form: Form::of(first)?,
            token: second,
        }),
        _ => None,
    }
}

impl<'a> Command<'a> {
    // The command that the words are. Words are compared byte by byte, and none is an option.
    pub(crate) fn of(words: &'a [String]) -> Option<Command<'a>>
        ensures { option_map meant_by result ≡ command_of (map string_bytes words.now) }
    {
        match words {
            [name, word] => over_one(name.as_str(), word.as_str()),
            [name, first, second] => over_two(name.as_str(), first.as_str(), second.as_str()),
            _ => None,
        }
    }
}
