// The command `show`: the JSON of a token, unchecked.
ghost use Rattle.std.specs.Prelude.{◌≡◌, ◌^◌, ◌<◌, ◌++◌, length, IfOk, IfErr, OnOk, IsErrOf, codes, string_bytes};
ghost use Rattle.std.specs.Fmt.{decimal};
ghost use Rattle.claim_tree.specs.JsonText.{json_text};
ghost use Rattle.claim_tree.specs.View.{tree_of};
ghost use Rattle.jws_part.specs.Header.{IsHeaderUnreadable};
ghost use Rattle.disclosure.specs.DisclosureRefusals.{IsDisclosureRefused};
ghost use Rattle.cli_parts.specs.Lines.{line};
ghost use Rattle.sdjwt_cli.specs.Show.{IsHead, kind_text, shown_line, Shows, IsShowRefused};
ghost use Rattle.sdjwt_cli.specs.ShowSteps.{disclosure_shown, AddsLine, AddsLines, IsUnread};
ghost use Rattle.json_form.specs.Token.{IsToken};
ghost use Rattle.cli_parts.specs.Stops.{OnRefused, NotUnread, NotUnreadable};
ghost use Rattle.cli_parts.specs.Telling.{TellsFault};

use crate::split::push_binding;
use crate::token_file::token_of;
use claim_tree::{JsonReader, Tree, TreeMap, write};
use cli_parts::{Stop, refused};
use compact_form::JwtView;
use disclosure::{Disclosed, DisclosureError, DisclosureReader, HashAlg, digest, payload_hash};
use json_form::{Disclosures, TokenView};
use jws_part::{BodyError, HeaderError, read_body_with, read_header_with};
use refusals::{Condition, Place};
use sd_outside::{NoMemory, TextBox};
use std::alloc::Global;

// The protected header as a tree, read with the unprotected one beside it.
fn read_head(
    alloc: Global,
    reader: &mut JsonReader,
    protected: &str,
    outer: &TreeMap,
) -> Result<Tree, BodyError>
    ensures head { IfOk result (λ t. IsHead protected.now outer.now (tree_of t)) }
    ensures unreadable { IsErrOf result BodyError.Unreadable
        → IsHeaderUnreadable protected.now outer.now }
{
    let tree = read_body_with(alloc, reader, protected)?;
    match read_header_with(alloc, reader, protected, outer) {
        Ok(_) => Ok(tree),
        Err(HeaderError::Critical) => Ok(tree),
        Err(HeaderError::Unreadable) => Err(BodyError::Unreadable),
        Err(HeaderError::Memory) => Err(BodyError::Memory),
    }
}

// The word of a disclosure's kind, with blanks around it, and the name of a member.
fn kind(alloc: Global, name: &Option<TextBox>) -> Result<String, NoMemory>
    ensures { IfOk result (λ text. string_bytes text ≡ kind_text name.now) }
{
    match name {
        None => Ok(String::from_str(alloc, " element ")?),
        Some(name) => {
            let name = Tree::Text(TextBox::make(alloc, name.as_str())?);
            let json = write(alloc, &name)?;
            let json = json.as_str();
            Ok(format!(in alloc; " member {json} ")?)
        }
    }
}

fn push_line(
    text: &mut String,
    i: usize,
    digest: &str,
    kind: &str,
    value: &str,
) -> Result<(), NoMemory>
    ensures { OnOk result
        (string_bytes text.new
        ≡ string_bytes text.old
        ++ line
        (codes "disclosure "
        ++ (decimal i ++ (codes " " ++ (digest.now ++ (kind.now ++ value.now)))))) }
{
    writeln!(text, "disclosure {i} {digest}{kind}{value}")?;
    Ok(())
}

// The line of a disclosure that is read.
fn push_read(
    alloc: Global,
    text: &mut String,
    i: usize,
    hash: HashAlg,
    part: &str,
    read: &Disclosed,
) -> Result<(), NoMemory>
    ensures { OnOk result
        (string_bytes text.new
        ≡ string_bytes text.old ++ shown_line i (disclosure_shown hash part.now read.now)) }
{
    let digest = digest(alloc, hash, part)?;
    let kind = kind(alloc, &read.name)?;
    let value = write(alloc, &read.value)?;
    push_line(text, i, digest.as_str(), kind.as_str(), value.as_str())
}

// The line of a disclosure.
fn push_shown(
    alloc: Global,
    reader: &mut DisclosureReader,
    text: &mut String,
    i: usize,
    hash: HashAlg,
    part: &str,
) -> Result<(), DisclosureError>
    ensures ok { OnOk result
        (AddsLine hash i part.now (string_bytes text.old) (string_bytes text.new)) }
    ensures refused { IfErr result (IsDisclosureRefused part.now) }
{
    let read = reader.read_disclosed(alloc, part)?;
    push_read(alloc, text, i, hash, part, &read)?;
    Ok(())
}

// The lines of the disclosures, up to the first that is not read.
fn push_all_shown(
    alloc: Global,
    reader: &mut DisclosureReader,
    text: &mut String,
    hash: HashAlg,
    disclosures: Disclosures<'_>,
) -> Result<(), Stop>
    requires { length disclosures < 2 ^ 64 }
    ensures ok { OnOk result
        (AddsLines hash disclosures.entry (string_bytes text.old) (string_bytes text.new)) }
    ensures unread { IfErr result
        (λ stop. OnRefused stop (TellsFault (IsUnread disclosures.entry))) }
    ensures read { IfErr result NotUnread }
    ensures readable { IfErr result NotUnreadable }
{
    for (i, part) in disclosures.enumerate() {
        match push_shown(alloc, reader, text, i, hash, part) {
            Ok(()) => (),
            Err(DisclosureError::Memory) => return Err(Stop::Memory),
            Err(_) => {
                let unread = Condition::DisclosureUnreadable;
                return Err(refused(alloc, &unread.fault_at(Place::At(i))));
            }
        }
    }
    Ok(())
}

fn push_json(text: &mut String, word: &str, json: &str) -> Result<(), NoMemory>
    ensures { OnOk result
        (string_bytes text.new ≡ string_bytes text.old ++ line (word.now ++ json.now)) }
{
    writeln!(text, "{word}{json}")?;
    Ok(())
}

// The lines of the header and of the payload. The text takes memory for `room` bytes at first.
fn start(alloc: Global, head: &Tree, payload: &Tree, room: usize) -> Result<String, NoMemory>
    ensures { IfOk result
        (λ text. string_bytes text
        ≡ line (codes "header " ++ json_text (tree_of head.now))
        ++ line (codes "payload " ++ json_text (tree_of payload.now))) }
{
    let mut text = String::with_capacity(alloc, room)?;
    push_json(&mut text, "header ", write(alloc, head)?.as_str())?;
    push_json(&mut text, "payload ", write(alloc, payload)?.as_str())?;
    Ok(text)
}

// The lines of a token that is read.
fn show_view(alloc: Global, file: &[u8], token: &TokenView<'_>) -> Result<String, Stop>
    requires { IsToken file.now token.now }
    ensures shows { IfOk result (λ text. Shows file.now (string_bytes text)) }
    ensures refuses { IfErr result (λ stop. OnRefused stop (TellsFault (IsShowRefused file.now))) }
    ensures read { IfErr result NotUnread }
    ensures readable { IfErr result NotUnreadable }
{
    let JwtView {
        protected,
        payload,
        ..
    } = token.signed();
    let mut reader = DisclosureReader::new(alloc);
    let head = match read_head(alloc, &mut reader.json, protected, token.outer()) {
        Ok(head) => head,
        Err(BodyError::Unreadable) => {
            return Err(refused(alloc, &Condition::HeaderUnreadable.fault()));
        }
        Err(BodyError::Memory) => return Err(Stop::Memory),
    };
    let payload = match read_body_with(alloc, &mut reader.json, payload) {
        Ok(payload) => payload,
        Err(BodyError::Unreadable) => {
            return Err(refused(alloc, &Condition::PayloadUnreadable.fault()));
        }
        Err(BodyError::Memory) => return Err(Stop::Memory),
    };
    let Some(hash) = payload_hash(&payload) else {
        return Err(refused(alloc, &Condition::HashUnknown.fault()));
    };
    let mut text = start(alloc, &head, &payload, file.len())?;
    let all = push_all_shown(alloc, &mut reader, &mut text, hash, token.disclosures());
    if let Err(stop) = all {
        return Err(stop);
    }
    push_binding(&mut text, token.binding())?;
    Ok(text)
}

/// The answer to a token file.
pub fn show(alloc: Global, file: &[u8]) -> Result<String, Stop>
    ensures shows { IfOk result (λ text. Shows file.now (string_bytes text)) }
    ensures refuses { IfErr result (λ stop. OnRefused stop (TellsFault (IsShowRefused file.now))) }
    ensures read { IfErr result NotUnread }
    ensures readable { IfErr result NotUnreadable }
{
    let token = match token_of(alloc, file) {
        Ok(token) => token,
        Err(stop) => return Err(stop),
    };
    show_view(alloc, file, &token.view())
}
