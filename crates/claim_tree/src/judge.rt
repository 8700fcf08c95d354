// Whether the numbers of a text are whole, with no tree made.
ghost use Rattle.std.specs.Prelude.{◌≡◌, ◌<◌, length, Some, None, Err, IfOk, OnOk, option_map};
ghost use Rattle.json.specs.Json.{value, items, members, parse_map};
ghost use Rattle.serde_json.specs.Data.{no_members};
ghost use Rattle.serde_json.specs.Read.{of_json, of_items, of_members, converted, read as value_of_text};
ghost use Rattle.serde_json.specs.Written.{has_float, items_have_float, members_have_float};
ghost use Rattle.claim_tree.specs.Floats.{noted};
ghost use Rattle.claim_tree.specs.declared.build.BuildError.TheVariants.{NoTree};

use crate::build::{BuildError, MOST_DEPTH, inside};
use crate::whole_number::{NumberError, whole_number};
use json::{Reader, Scratch, Token};
use sd_outside::{NoMemory, TextBox};
use std::alloc::Global;
use std::collections::BTreeSet;

// Whether a number that is kept of a text is not whole.
pub(crate) fn judge_text(
    alloc: Global,
    scratch: &mut Scratch,
    text: &str,
) -> Result<bool, BuildError>
    ensures ok { IfOk result (λ float. option_map has_float (value_of_text text.now) ≡ Some float) }
    ensures err { result ≡ Err NoTree → value_of_text text.now ≡ None }
{
    let mut reader = Reader::new(text, scratch)?;
    let float = judge(alloc, &mut reader, MOST_DEPTH)?;
    match reader.next() {
        None => Ok(float),
        Some(_) => Err(BuildError::NoTree),
    }
}

// The same of the value that the next tokens are. Of two members of one name the last is kept.
#[cycle(judge)]
pub(crate) fn judge(
    alloc: Global,
    reader: &mut Reader<'_>,
    depth: usize,
) -> Result<bool, BuildError>
    ensures ok { IfOk result
        (λ float. parse_map has_float (converted of_json (value depth reader.old))
        ≡ Some (float, reader.new)) }
    ensures err { result ≡ Err NoTree → converted of_json (value depth reader.old) ≡ None }
    ensures shorter { OnOk result (length reader.new < length reader.old) }
{
    let token = reader.next().ok_or(BuildError::NoTree)?;
    match token {
        Token::String(_) | Token::Bool(_) | Token::Null => Ok(false),
        Token::Number(text) => match whole_number(text) {
            Ok(_) => Ok(false),
            Err(NumberError::Float) => Ok(true),
            Err(NumberError::TooGreat) => Err(BuildError::NoTree),
        },
        Token::BeginArray => judge_elements(alloc, reader, inside(depth)?),
        Token::BeginObject => judge_members(alloc, reader, inside(depth)?),
        Token::EndObject | Token::EndArray | Token::Key(_) | Token::Bad => Err(BuildError::NoTree),
    }
}

#[cycle(judge)]
fn judge_elements(alloc: Global, reader: &mut Reader<'_>, depth: usize) -> Result<bool, BuildError>
    ensures ok { IfOk result
        (λ float. parse_map items_have_float
        (converted of_items (items (value depth) (length reader.old) reader.old))
        ≡ Some (float, reader.new)) }
    ensures err { result ≡ Err NoTree
        → converted of_items (items (value depth) (length reader.old) reader.old) ≡ None }
    ensures shorter { OnOk result (length reader.new < length reader.old) }
{
    let mut float = false;
    while !reader.take_end_array() {
        let found = judge(alloc, reader, depth)?;
        float = found | float;
    }
    Ok(float)
}

#[cycle(judge)]
fn judge_members(alloc: Global, reader: &mut Reader<'_>, depth: usize) -> Result<bool, BuildError>
    ensures ok { IfOk result
        (λ float. parse_map members_have_float
        (converted (λ found. of_members found no_members)
        (members (value depth) (length reader.old) reader.old))
        ≡ Some (float, reader.new)) }
    ensures err { result ≡ Err NoTree
        → converted (λ found. of_members found no_members)
        (members (value depth) (length reader.old) reader.old) ≡ None }
    ensures shorter { OnOk result (length reader.new < length reader.old) }
{
    let mut floats = BTreeSet::new(alloc);
    while let Some(name) = reader.next_key()? {
        let float = judge(alloc, reader, depth)?;
        note(alloc, &mut floats, name, float)?;
    }
    Ok(!floats.is_empty())
}

// Notes of a name whether the value that was last read under it has a number that is not whole: the
// names of which this is so are kept, and no others.
fn note(
    alloc: Global,
    floats: &mut BTreeSet<TextBox>,
    name: &str,
    float: bool,
) -> Result<(), NoMemory>
    ensures { OnOk result (floats.new.keys ≡ noted floats.old.keys name.now float) }
{
    if !float && floats.is_empty() {
        return Ok(());
    }
    let name = TextBox::make(alloc, name)?;
    if float {
        floats.insert(name)?;
    } else {
        floats.remove(&name);
    }
    Ok(())
}
