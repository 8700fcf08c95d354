// The token that a text in a JSON form holds (RFC 9901 section 8).
ghost use Rattle.std.specs.Prelude.{IfOk, IsErrOf};
ghost use Rattle.refusals.specs.declared.fault.JsonPlace.{JsonPlace as ThePlace};
ghost use Rattle.json_form.specs.Json.{IsJson};
ghost use Rattle.refusals.specs.Lowest.{IsLowestBy};
ghost use Rattle.json_form.specs.JsonPlaces.{row_of, ObjectFails, IsJsonPlace};
ghost use Rattle.json_form.specs.MembersRead.{MembersSay};
ghost use Rattle.json_form.specs.Printable.{IsPrintable};

use crate::signature_entry::{read_entry, take_word};
use crate::signatures::entries_of;
use crate::{JsonFormError, Token};
use claim_tree::{JsonReader, Tree, TreeMap};
use refusals::{JsonPlace, Part};
use std::alloc::Global;

// The token that the members of an object say.
fn token_of(alloc: Global, members: TreeMap) -> Result<Token, JsonFormError>
    ensures ok { IfOk result (MembersSay members) }
    ensures refused { (place : ThePlace) → IsErrOf result (JsonFormError.Fault place)
        → IsLowestBy row_of (ObjectFails members) place }
{
    let mut members = members;
    let payload = take_word(&mut members, Part::Payload)?;
    let entries = entries_of(members)?;
    let token = read_entry(alloc, payload, entries.first)?;
    match entries.stray {
        None => Ok(token),
        Some(entry) => Err(JsonFormError::Fault(JsonPlace::Stray(entry))),
    }
}

/// The token of its flattened or general JSON serialization (RFC 9901 section 8).
///
/// A text with a member `signatures` is general, whatever stands there, and its first entry is
/// read. Members that the form does not know are left out as the text is read.
///
/// The error names the first place at which the text fails. In this order it is
/// judged as JSON, for whole numbers and as an object; then `payload`, `signatures`,
/// `protected`, `signature`, `header`, `disclosures` and `kb_jwt`; and at last the
/// later entries, whose `header` has neither `disclosures` nor `kb_jwt`.
pub fn parse_json(alloc: Global, text: &[u8]) -> Result<Token, JsonFormError>
    ensures ok { IfOk result (λ token. IsJson token text.now) }
    ensures printable { IfOk result IsPrintable }
    ensures fault { (place : ThePlace) → IsErrOf result (JsonFormError.Fault place)
        → IsJsonPlace text.now place }
{
    let header = Part::Header.word();
    let names = [
        Part::Payload.word(),
        Part::Signatures.word(),
        Part::Protected.word(),
        Part::Signature.word(),
        header,
    ];
    let tree = JsonReader::new(alloc).read_named(alloc, text, &names, header)?;
    let Tree::Object(members) = tree else {
        return Err(JsonFormError::Fault(JsonPlace::NotObject));
    };
    token_of(alloc, members)
}
