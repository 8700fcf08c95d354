//! What a caller takes out of a question, so that it needs no reader of JSON.
//!
//! A question is the line that is written with the status `ASKS`. What is taken has no line end.
//! Bytes that are no JSON object are unreadable, and what the object has no text for is missing.
ghost use Rattle.std.specs.Prelude.{◌≡◌, IfOk, IfErr, IsUtf8, codes, option_map};
ghost use Rattle.claim_tree.specs.JsonText.{Reads};
ghost use Rattle.claim_tree.specs.Tree.{object};
ghost use Rattle.claim_tree.specs.View.{tree_of};
ghost use Rattle.cli_parts.specs.Stops.{OnUnreadable, NotRefused, NotUnread};
ghost use Rattle.cli_parts.specs.Telling.{TellsFileFault};
ghost use Rattle.sdjwt_c.specs.QuestionParts as spec;
ghost use Rattle.sdjwt_c.specs.QuestionParts.{text_under, SaysUnder, SaysSignature, SaysAt, IsNoQuestion, HandsPartBy};
ghost use Rattle.sdjwt_c.specs.QuestionPartSteps.{IsHandedPart};

use crate::answer::{give_bytes, hand, leave};
use b64url_text::{DecodeError, decode};
use claim_tree::{Path, PointerError, ReadError, Tree, TreeMap, find, read, read_pointer};
use cli_parts::{Stop, readable};
use file_members::FileFault;
use sd_outside::{ByteBox, NoMemory, Status, TextBox};
use std::alloc::Global;

// The status of a part that a question does not have.
const MISSING: u8 = 10;

// The members of the object that the bytes are the JSON of.
fn object_of(alloc: Global, bytes: &[u8]) -> Result<TreeMap, FileFault>
    ensures ok { IfOk result (λ members. Reads bytes.now (object members)) }
    ensures refused { IfErr result (IsNoQuestion bytes.now) }
{
    match read(alloc, bytes) {
        Ok(Tree::Object(members)) => Ok(members),
        Ok(_) => Err(FileFault::NotObject),
        Err(ReadError::Memory) => Err(FileFault::Memory),
        Err(ReadError::NotJson) => Err(FileFault::NotJson),
        Err(ReadError::NotWhole) => Err(FileFault::NotWhole),
    }
}

// What a question says, or the line that tells why it is none.
fn question_of(alloc: Global, bytes: &[u8]) -> Result<TreeMap, Stop>
    ensures members { IfOk result (λ members. Reads bytes.now (object members)) }
    ensures unreadable { IfErr result
        (λ stop. OnUnreadable stop (TellsFileFault (IsNoQuestion bytes.now))) }
    ensures fit { IfErr result NotRefused }
    ensures read { IfErr result NotUnread }
{
    readable(alloc, object_of(alloc, bytes))
}

// Takes the text under a name out of the members.
fn taken(members: &mut TreeMap, name: &str) -> Option<ByteBox>
    ensures { result ≡ text_under members.old name.now }
{
    match members.remove(name) {
        Some(Tree::Text(text)) => Some(ByteBox::from_vec(text.into_string().into_bytes())),
        _ => None,
    }
}

// The text that a question says under a name.
fn text_of(alloc: Global, question: &[u8], name: &str) -> Result<Option<ByteBox>, Stop>
    ensures part { IfOk result (SaysUnder question.now name.now) }
    ensures unreadable { IfErr result
        (λ stop. OnUnreadable stop (TellsFileFault (IsNoQuestion question.now))) }
    ensures fit { IfErr result NotRefused }
    ensures read { IfErr result NotUnread }
{
    let mut members = question_of(alloc, question)?;
    Ok(taken(&mut members, name))
}

// The text at a path.
fn found<'a>(tree: &'a Tree, path: &Path) -> Option<&'a TextBox>
    ensures { option_map (λ s. s.now) result ≡ spec.text_at (tree_of tree.now) path.now }
{
    find(tree, path)?.as_text()
}

// A copy of the text at a path.
fn copied_at(alloc: Global, tree: &Tree, path: &Path) -> Result<Option<ByteBox>, NoMemory>
    ensures { IfOk result (λ copy. copy ≡ spec.text_at (tree_of tree.now) path.now) }
{
    let Some(text) = found(tree, path) else {
        return Ok(None);
    };
    let mut copy = ByteBox::new(alloc);
    copy.append(text.as_str().as_bytes())?;
    Ok(Some(copy))
}

// The text that a question says at a JSON Pointer.
fn text_at(alloc: Global, question: &[u8], pointer: &str) -> Result<Option<ByteBox>, Stop>
    ensures part { IfOk result (SaysAt question.now pointer.now) }
    ensures unreadable { IfErr result
        (λ stop. OnUnreadable stop (TellsFileFault (IsNoQuestion question.now))) }
    ensures fit { IfErr result NotRefused }
    ensures read { IfErr result NotUnread }
{
    let tree = Tree::Object(question_of(alloc, question)?);
    match read_pointer(alloc, pointer) {
        Ok(path) => Ok(copied_at(alloc, &tree, &path)?),
        Err(PointerError::Memory) => Err(Stop::Memory),
        Err(PointerError::Syntax) => Ok(None),
    }
}

// The bytes of a signature that is said in base64url.
fn signature_of(alloc: Global, question: &[u8]) -> Result<Option<ByteBox>, Stop>
    ensures part { IfOk result (SaysSignature question.now) }
    ensures unreadable { IfErr result
        (λ stop. OnUnreadable stop (TellsFileFault (IsNoQuestion question.now))) }
    ensures fit { IfErr result NotRefused }
    ensures read { IfErr result NotUnread }
{
    let Some(word) = text_of(alloc, question, "signature")? else {
        return Ok(None);
    };
    match decode(alloc, word.bytes()) {
        Ok(bytes) => Ok(Some(bytes)),
        Err(DecodeError::Memory) => Err(Stop::Memory),
        Err(DecodeError::NotBase64) => Ok(None),
    }
}

// Hands over a part, or tells that there is none, or the line that tells why there is no question.
fn hand_part(part: Result<Option<ByteBox>, Stop>, room: &mut [u8], len: &mut usize) -> u8
    ensures { IsHandedPart part room.old room.new len.new result }
{
    match part {
        Ok(Some(part)) => give_bytes(part.bytes(), Status::Done, room, len).number(),
        Ok(None) => {
            *len = 0;
            MISSING
        }
        Err(stop) => hand(Err(stop), room, len).number(),
    }
}

/// What was signed of the question: just these bytes are to be checked.
#[unsafe(no_mangle)]
pub extern "C" fn sdjwt_question_text(
    alloc: Global,
    question: &[u8],
    room: &mut [u8],
    len: &mut usize,
) -> u8
    ensures { HandsPartBy ⊥ (SaysUnder question.now (codes "text")) question.now room.old room.new
        len.new result }
{
    hand_part(text_of(alloc, question, "text"), room, len)
}

/// The signature of the question, as the bytes that its base64url text stands for.
#[unsafe(no_mangle)]
pub extern "C" fn sdjwt_question_signature(
    alloc: Global,
    question: &[u8],
    room: &mut [u8],
    len: &mut usize,
) -> u8
    ensures { HandsPartBy ⊥ (SaysSignature question.now) question.now room.old room.new len.new
        result }
{
    hand_part(signature_of(alloc, question), room, len)
}

/// The name of the algorithm of the question.
#[unsafe(no_mangle)]
pub extern "C" fn sdjwt_question_alg(
    alloc: Global,
    question: &[u8],
    room: &mut [u8],
    len: &mut usize,
) -> u8
    ensures { HandsPartBy ⊥ (SaysUnder question.now (codes "alg")) question.now room.old room.new
        len.new result }
{
    hand_part(text_of(alloc, question, "alg"), room, len)
}

/// The name of the key of the question. It is missing where the header names none.
#[unsafe(no_mangle)]
pub extern "C" fn sdjwt_question_kid(
    alloc: Global,
    question: &[u8],
    room: &mut [u8],
    len: &mut usize,
) -> u8
    ensures { HandsPartBy ⊥ (SaysUnder question.now (codes "kid")) question.now room.old room.new
        len.new result }
{
    hand_part(text_of(alloc, question, "kid"), room, len)
}

/// The text at a JSON Pointer (RFC 6901) into the question, as `/payload/cnf/jwk/x`. It is missing
/// where there is no text, and the call is misused where the pointer is no UTF-8.
#[unsafe(no_mangle)]
pub extern "C" fn sdjwt_question_at(
    alloc: Global,
    question: &[u8],
    pointer: &[u8],
    room: &mut [u8],
    len: &mut usize,
) -> u8
    ensures { HandsPartBy (IsUtf8 pointer.now → ⊥) (SaysAt question.now pointer.now) question.now
        room.old room.new len.new result }
{
    match str::from_utf8(pointer) {
        Ok(pointer) => hand_part(text_at(alloc, question, pointer), room, len),
        Err(_) => leave(Status::Usage, len).number(),
    }
}
