// The one or two elements behind the text that a list begins with.
ghost use Rattle.std.specs.Prelude.{◌≡◌, length, Some, IfOk};
ghost use Rattle.json.specs.Json.{value, items};
ghost use Rattle.serde_json.specs.Read.{of_items, converted, read as value_of_text};
ghost use Rattle.claim_tree.specs.Tree.{Text, text as text_leaf, leaf, array, element};
ghost use Rattle.claim_tree.specs.JsonText.{data_of, elements_data};
ghost use Rattle.claim_tree.specs.ListTails.{tail_elements};

use crate::Tree;
use crate::build::{BuildError, MOST_DEPTH, build};
use json::{Reader, Scratch, Token};
use std::alloc::Global;

/// A list of two or three without its first element, which is a text.
#[derive(Debug, Drop)]
pub struct ListTail {
    pub second: Tree,
    pub third: Option<Tree>,
}

/// What a JSON text is read to where the text that a list begins with need not be kept.
#[derive(Debug, Drop)]
pub enum TailOrTree {
    /// A list of two or three that begins with a text.
    Tail(ListTail),
    /// Anything else, and such a list too where it is not read in one pass.
    Tree(Tree),
}

// What stands behind the text that the list in a text begins with.
pub(crate) fn build_tail(
    alloc: Global,
    scratch: &mut Scratch,
    text: &str,
) -> Result<ListTail, BuildError>
    ensures ok { IfOk result
        (λ tail. (first : Text)
        × (value_of_text text.now
        ≡ Some (data_of (array (element (leaf (text_leaf first)) (tail_elements tail)))))) }
{
    let mut reader = Reader::new(text, scratch)?;
    let Some(Token::BeginArray) = reader.next() else {
        return Err(BuildError::NoTree);
    };
    let Some(Token::String(_)) = reader.next() else {
        return Err(BuildError::NoTree);
    };
    let tail = build_one_or_two(alloc, &mut reader, MOST_DEPTH - 1)?;
    match reader.next() {
        None => Ok(tail),
        Some(_) => Err(BuildError::NoTree),
    }
}

// The one or two elements up to the end of a list.
fn build_one_or_two(
    alloc: Global,
    reader: &mut Reader<'_>,
    depth: usize,
) -> Result<ListTail, BuildError>
    ensures ok { IfOk result
        (λ tail. converted of_items (items (value depth) (length reader.old) reader.old)
        ≡ Some (elements_data (tail_elements tail), reader.new)) }
{
    if reader.take_end_array() {
        return Err(BuildError::NoTree);
    }
    let second = build(alloc, reader, depth)?;
    if reader.take_end_array() {
        return Ok(ListTail {
            second,
            third: None,
        });
    }
    let third = Some(build(alloc, reader, depth)?);
    if !reader.take_end_array() {
        return Err(BuildError::NoTree);
    }
    Ok(ListTail { second, third })
}
