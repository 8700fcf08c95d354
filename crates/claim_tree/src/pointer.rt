// JSON Pointers (RFC 6901), read and printed.
ghost use Rattle.std.specs.Prelude.{◌≡◌, ◌<◌, ◌∷◌, ◌++◌, length, codes, string_bytes, IfOk, OnOk, IfSome, IfNone};
ghost use Rattle.claim_tree.specs.Path.{escaped, pointer_text};
ghost use Rattle.claim_tree.specs.PointerRefusals.{IsNoPointer, HasLoneTilde, HasNoSlash, EndsNoEscape};
ghost use Rattle.claim_tree.specs.declared.pointer.PointerError.TheVariants.{Memory};

use crate::Path;
use crate::path::slashes;
use sd_outside::{NoMemory, TextBox};
use std::alloc::{AllocError, Global};

/// Why a text is not read as a JSON Pointer.
#[derive(Clone, Copy, Debug, PartialEq, Eq)]
pub enum PointerError {
    /// There was no memory for the path.
    Memory,
    /// It is none: it begins with another character than `/`, or has a `~` that
    /// neither `0` nor `1` follows.
    Syntax,
}

impl From<NoMemory> for PointerError {
    ghost from_gives = { λ _ e. e ≡ Memory };

    fn from(_: NoMemory) -> Self {
        PointerError::Memory
    }
}

impl From<AllocError> for PointerError {
    ghost from_gives = { λ _ e. e ≡ Memory };

    fn from(_: AllocError) -> Self {
        PointerError::Memory
    }
}

/// The path of a JSON Pointer, RFC 6901 section 3. The empty text is the path to the whole value.
pub fn read_pointer(alloc: Global, text: &str) -> Result<Path, PointerError>
    ensures ok { IfOk result (λ path. text.now ≡ pointer_text path) }
    ensures syntax { result ≡ Err PointerError.Syntax → IsNoPointer text.now }
{
    if text.is_empty() {
        return Ok(Path::new(alloc));
    }
    let steps = text.strip_prefix('/').ok_or(PointerError::Syntax)?;
    match text.split_once('~') {
        None => Ok(Path::of_plain(alloc, text)?),
        Some(_) => read_steps(alloc, text, steps),
    }
}

// The path of a pointer that may have escapes, of which the steps are given behind the first slash.
fn read_steps(alloc: Global, text: &str, steps: &str) -> Result<Path, PointerError>
    requires { text.now ≡ 47 ∷ steps.now }
    ensures ok { IfOk result (λ path. text.now ≡ pointer_text path) }
    ensures syntax { result ≡ Err PointerError.Syntax → IsNoPointer text.now }
{
    let mut path = Path::with_capacity(alloc, slashes(text), text.len())?;
    for step in steps.split('/') {
        let read = read_step(alloc, step)?;
        path.push(read.as_str())?;
    }
    Ok(path)
}

// The step that is written so.
fn read_step(alloc: Global, written: &str) -> Result<TextBox, PointerError>
    requires { HasNoSlash written.now }
    ensures ok { IfOk result (λ step. written.now ≡ escaped step) }
    ensures syntax { result ≡ Err PointerError.Syntax → HasLoneTilde written.now }
{
    let mut step = String::with_capacity(alloc, written.len())?;
    let mut rest = written;
    while let Some((plain, escape)) = rest.split_once('~') {
        let (sign, more) = read_escape(escape).ok_or(PointerError::Syntax)?;
        step.push_str(plain)?;
        step.push_str(sign)?;
        rest = more;
    }
    step.push_str(rest)?;
    Ok(TextBox::from_string(step))
}

// What a `~` and the first byte of the text behind it stand for, and what follows the two.
fn read_escape(text: &str) -> Option<(&str, &str)>
    ensures found { IfSome result
        (λ read. codes "~" ++ text.now ≡ escaped read.0.now ++ read.1.now) }
    ensures shorter { IfSome result (λ read. length read.1.now < length text.now) }
    ensures none { IfNone result (EndsNoEscape text.now) }
{
    if let Some(more) = text.strip_prefix('0') {
        Some(("~", more))
    } else if let Some(more) = text.strip_prefix('1') {
        Some(("/", more))
    } else {
        None
    }
}

/// The JSON Pointer of a path.
pub fn print_path(alloc: Global, path: &Path) -> Result<TextBox, NoMemory>
    ensures { IfOk result (λ text. text ≡ pointer_text path.now) }
{
    let mut text = String::new(alloc);
    for step in path.steps() {
        text.push_str("/")?;
        push_escaped(&mut text, step)?;
    }
    Ok(TextBox::from_string(text))
}

// Adds a step as it is written.
fn push_escaped(text: &mut String, step: &str) -> Result<(), NoMemory>
    ensures { OnOk result (string_bytes text.new ≡ string_bytes text.old ++ escaped step.now) }
{
    for c in step.chars() {
        if c == '~' {
            text.push_str("~0")?;
        } else if c == '/' {
            text.push_str("~1")?;
        } else {
            text.push(c)?;
        }
    }
    Ok(())
}
