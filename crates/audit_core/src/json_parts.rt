// Parts of a token that carry compact JSON.
ghost use Rattle.std.specs.Prelude.{◌≡◌, ◌≢◌, ◌≤◌, ◌↔◌, Ok, Err, IfOk, IfSome, IfNone, IsTrue, IsUtf8};
ghost use Rattle.sd_outside.specs.Limits.{json_depth_max};
ghost use Rattle.b64url_text.specs.Base64url.{Decodes};
ghost use Rattle.b64url_text.specs.NotBase64.{IsNotBase64};
ghost use Rattle.claim_tree.specs.Tree.{depth as depth_of};
ghost use Rattle.claim_tree.specs.JsonText.{json_text};
ghost use Rattle.claim_tree.specs.View.{tree_of};
ghost use Rattle.claim_tree.specs.declared.text.ReadError.{ReadError as Unread};
ghost use Rattle.audit_core.specs.Audited.{IsWrittenAs, IsSaltedText};
ghost use Rattle.audit_core.specs.AuditSteps.{IsUnwritten, IsUnsalted};

use crate::salted::is_salted;
use b64url_text::decode_into;
use claim_tree::{JsonReader, ReadError, Tree, write};
use disclosure::{Disclosed, disclosed_by};
use sd_outside::NoMemory;
use std::alloc::Global;

// What reads such parts, all in the same memory.
#[derive(Drop)]
pub(crate) struct JsonPartReader {
    json: JsonReader,
    // What a part is decoded to.
    room: Vec<u8>,
}

// The bytes of a part, at the front of the room, which grows as it has to.
fn decoded<'a>(room: &'a mut Vec<u8>, part: &str) -> Result<Option<&'a [u8]>, NoMemory>
    ensures some { IfOk result (λ read. IfSome read (λ bytes. Decodes part.now bytes.now)) }
    ensures none { IfOk result (λ read. IfNone read (IsNotBase64 part.now)) }
{
    let wanted = part.len() / 4 * 3 + 3;
    if room.len() < wanted {
        room.resize(wanted, 0)?;
    }
    match decode_into(part.as_bytes(), room.as_mut_slice()) {
        Ok(count) => Ok(Some(&room[..count])),
        Err(_) => Ok(None),
    }
}

// What was read, or none where the text was not of its form.
fn or_none<T>(read: Result<T, ReadError>) -> Result<Option<T>, NoMemory>
    ensures some { IfOk result (λ found. IfSome found (λ value. read ≡ Ok value)) }
    ensures none { IfOk result
        (λ found. IfNone found ((error : Unread) × (read ≡ Err error) × (error ≢ Unread.Memory))) }
{
    match read {
        Ok(value) => Ok(Some(value)),
        Err(ReadError::Memory) => Err(NoMemory),
        Err(_) => Ok(None),
    }
}

// Whether the bytes are the compact JSON text of the tree.
fn is_text_of(alloc: Global, json: &[u8], tree: &Tree) -> Result<bool, NoMemory>
    ensures is { IfOk result (λ is. IsTrue is ↔ (json.now ≡ json_text (tree_of tree.now))) }
    ensures utf8 { IfOk result (λ _. IsUtf8 (json_text (tree_of tree.now))) }
{
    let written = write(alloc, tree)?;
    Ok(json == written.as_str().as_bytes())
}

impl JsonPartReader {
    pub(crate) fn new(alloc: Global) -> JsonPartReader {
        JsonPartReader {
            json: JsonReader::new(alloc),
            room: Vec::new(alloc),
        }
    }

    // The tree that a part carries, where the part is the text of its compact JSON.
    pub(crate) fn read(&mut self, alloc: Global, part: &str) -> Result<Option<Tree>, NoMemory>
        ensures some { IfOk result (λ read. IfSome read (λ t. IsWrittenAs part.now (tree_of t))) }
        ensures depth { IfOk result
            (λ read. IfSome read (λ t. depth_of (tree_of t) ≤ json_depth_max)) }
        ensures none { IfOk result (λ read. IfNone read (IsUnwritten part.now)) }
    {
        let Some(json) = decoded(&mut self.room, part)? else {
            return Ok(None);
        };
        let Some(tree) = or_none(self.json.read(alloc, json))? else {
            return Ok(None);
        };
        if !is_text_of(alloc, json, &tree)? {
            return Ok(None);
        }
        Ok(Some(tree))
    }

    // What a disclosure gives, where it is the text of its compact JSON and has a salt of 16 bytes.
    pub(crate) fn read_salted(
        &mut self,
        alloc: Global,
        text: &str,
    ) -> Result<Option<Disclosed>, NoMemory>
        ensures some { IfOk result
            (λ read. IfSome read (λ d. IsSaltedText text.now d.name (tree_of d.value))) }
        ensures depth { IfOk result (λ read. IfSome read (λ d. depth_of (tree_of d.value) ≤ 126)) }
        ensures none { IfOk result (λ read. IfNone read (IsUnsalted text.now)) }
    {
        let Some(json) = decoded(&mut self.room, text)? else {
            return Ok(None);
        };
        let Some(found) = or_none(self.json.read_tail(alloc, json))? else {
            return Ok(None);
        };
        let Some(disclosed) = disclosed_by(found) else {
            return Ok(None);
        };
        if !is_salted(alloc, json, &disclosed)? {
            return Ok(None);
        }
        Ok(Some(disclosed))
    }
}
