//! What stands between `<` and `>` in a line, written out.

use crate::names::Names;
use crate::trouble::Trouble;
use std::alloc::Global;

// Bytes that a line can't hold, or that mean something else in it.
const BYTES: [(&str, &str); 5] = [
    ("nul", "\0"),
    ("tab", "\t"),
    ("return", "\r"),
    ("blank", " "),
    ("bom", "\u{feff}"),
];

// So many pieces, with the number of each in the place of `#`.
fn repeated(alloc: Global, count: usize, piece: &str) -> Result<String, Trouble> {
    if !piece.contains('#') {
        return Ok(piece.repeat(alloc, count)?);
    }
    let mut text = String::new(alloc);
    for i in 0..count {
        let number = format!(in alloc; "{i}")?;
        text.push_str(piece.replace(alloc, '#', number.as_str())?.as_str())?;
    }
    Ok(text)
}

// So many JSON texts with commas between, each of one piece more than the one before.
fn growing(alloc: Global, count: usize, piece: &str) -> Result<String, Trouble> {
    let mut text = String::new(alloc);
    let mut grown = String::new(alloc);
    for i in 0..count {
        if i > 0 {
            text.push(',')?;
        }
        grown.push_str(piece)?;
        let grown = grown.as_str();
        text.push_str(format!(in alloc; "\"{grown}\"")?.as_str())?;
    }
    Ok(text)
}

// So many characters from the front of the text of a name.
fn front(alloc: Global, names: &Names, count: usize, name: &str) -> Result<String, Trouble> {
    let whole = names.find(name);
    let whole = whole.ok_or(Trouble::Unread("no text has this name"))?;
    let mut text = String::new(alloc);
    for c in whole.chars().take(count) {
        text.push(c)?;
    }
    Ok(text)
}

fn byte_named(name: &str) -> Option<&'static str> {
    for (known, text) in BYTES {
        if known == name {
            return Some(text);
        }
    }
    None
}

// The number before the first of these signs, and what stands behind it.
fn counted(short: &str, sign: char) -> Option<(usize, &str)> {
    let (count, rest) = short.split_once(sign)?;
    Some((count.parse().ok()?, rest))
}

// The text for which this stands: so many pieces, growing texts, the front of a
// text, or the text of a name.
fn meant(alloc: Global, names: &Names, short: &str) -> Result<String, Trouble> {
    if let Some((count, piece)) = counted(short, '*') {
        return repeated(alloc, count, piece);
    }
    if let Some((count, piece)) = counted(short, '^') {
        return growing(alloc, count, piece);
    }
    if let Some((count, name)) = counted(short, '/') {
        return front(alloc, names, count, name);
    }
    let text = names.find(short).or(byte_named(short));
    let text = text.ok_or(Trouble::Unread("no text has this name"))?;
    Ok(String::from_str(alloc, text)?)
}

// The text with its last bracket written out, in which no other one stands.
fn last_meant(alloc: Global, names: &Names, text: &str) -> Result<String, Trouble> {
    let Some((front, tail)) = text.rsplit_once('<') else {
        return Ok(String::from_str(alloc, text)?);
    };
    let (short, rest) = tail
        .split_once('>')
        .ok_or(Trouble::Unread("a < has no > behind it"))?;
    let mut whole = String::from_str(alloc, front)?;
    whole.push_str(meant(alloc, names, short)?.as_str())?;
    whole.push_str(rest)?;
    Ok(whole)
}

/// The text with each bracket written out, from the last to the first, so that
/// one may stand inside another.
pub(crate) fn spelled(alloc: Global, names: &Names, text: &str) -> Result<String, Trouble> {
    let mut whole = String::from_str(alloc, text)?;
    for _ in text.split('<').skip(1) {
        whole = last_meant(alloc, names, whole.as_str())?;
    }
    Ok(whole)
}
