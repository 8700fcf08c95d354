// The JSON serializations, written.
ghost use Rattle.std.specs.Prelude.{◌≡◌, ◌≤◌, OnOk, IfOk};
ghost use Rattle.claim_tree.specs.Tree.{leaf, text as text_leaf, inserted, members_depth};
ghost use Rattle.claim_tree.specs.TreeValues.{text_elements};
ghost use Rattle.claim_tree.specs.JsonText.{json_text};
ghost use Rattle.claim_tree.specs.View.{tree_of};
ghost use Rattle.refusals.specs.PartWords.{part_word};
ghost use Rattle.json_form.specs.Json.{IsFlat, IsGeneral};
ghost use Rattle.json_form.specs.Written as spec;
ghost use Rattle.json_form.specs.Written.{flat_of, general_of};
ghost use Rattle.json_form.specs.Printable.{IsPrintable};

use crate::{Disclosures, Token, TokenView};
use claim_tree::{Tree, TreeList, TreeMap, copy_members, write};
use compact_form::print_jwt;
use refusals::Part;
use sd_outside::{NoMemory, TextBox};
use std::alloc::Global;

fn put(alloc: Global, members: &mut TreeMap, part: Part, tree: Tree) -> Result<(), NoMemory>
    ensures { OnOk result (members.new ≡ inserted members.old (part_word part) (tree_of tree)) }
{
    let name = TextBox::make(alloc, part.word())?;
    members.insert(name, tree)
}

fn put_text(alloc: Global, members: &mut TreeMap, part: Part, text: &str) -> Result<(), NoMemory>
    ensures { OnOk result
        (members.new ≡ inserted members.old (part_word part) (leaf (text_leaf text.now))) }
{
    let text = TextBox::make(alloc, text)?;
    put(alloc, members, part, Tree::Text(text))
}

fn list_of(alloc: Global, texts: Disclosures<'_>) -> Result<TreeList, NoMemory>
    ensures { IfOk result (λ list. list ≡ text_elements texts.entry) }
{
    let mut list = TreeList::new(alloc);
    for text in texts {
        list.push(Tree::Text(TextBox::make(alloc, text)?))?;
    }
    Ok(list)
}

fn header_of(alloc: Global, token: &TokenView<'_>) -> Result<TreeMap, NoMemory>
    requires printable { IsPrintable token.now }
    ensures { IfOk result (λ header. header ≡ spec.written_header token.now) }
{
    let mut header = copy_members(alloc, token.outer())?;
    if let Some(binding) = token.binding() {
        let jwt = print_jwt(alloc, &binding.to_parts(alloc)?)?;
        put(alloc, &mut header, Part::KbJwt, Tree::Text(jwt))?;
    }
    let disclosures = list_of(alloc, token.disclosures())?;
    put(
        alloc,
        &mut header,
        Part::Disclosures,
        Tree::List(disclosures),
    )?;
    Ok(header)
}

// The signature with what belongs to it.
fn entry_of(alloc: Global, token: &TokenView<'_>) -> Result<TreeMap, NoMemory>
    requires printable { IsPrintable token.now }
    ensures { IfOk result (λ entry. entry ≡ spec.entry_of token.now) }
{
    let header = header_of(alloc, token)?;
    let signed = token.signed();
    let mut entry = TreeMap::new(alloc);
    put(alloc, &mut entry, Part::Header, Tree::Object(header))?;
    put_text(alloc, &mut entry, Part::Protected, signed.protected)?;
    put_text(alloc, &mut entry, Part::Signature, signed.signature)?;
    Ok(entry)
}

/// The flattened JSON serialization of a token (RFC 9901 section 8): compact
/// JSON, which is read as this token.
pub fn print_flat(alloc: Global, token: &Token) -> Result<TextBox, NoMemory>
    requires printable { IsPrintable token.now }
    ensures text { IfOk result (λ text. text ≡ json_text (flat_of token.now)) }
    ensures back { IfOk result (IsFlat token.now) }
{
    flat_text(alloc, &token.view())
}

/// The same of a token that is borrowed, whose texts are not copied before they are written.
pub fn flat_text(alloc: Global, token: &TokenView<'_>) -> Result<TextBox, NoMemory>
    requires printable { IsPrintable token.now }
    ensures text { IfOk result (λ text. text ≡ json_text (flat_of token.now)) }
    ensures back { IfOk result (IsFlat token.now) }
{
    let mut members = entry_of(alloc, token)?;
    put_text(alloc, &mut members, Part::Payload, token.signed().payload)?;
    write(alloc, &Tree::Object(members))
}

/// The general JSON serialization of a token, with one signature: compact JSON. It is read as this
/// token where the members of its unprotected header leave room for the four levels around them.
pub fn print_general(alloc: Global, token: &Token) -> Result<TextBox, NoMemory>
    requires printable { IsPrintable token.now }
    ensures text { IfOk result (λ text. text ≡ json_text (general_of token.now)) }
    ensures back { members_depth token.now.outer ≤ 123 → IfOk result (IsGeneral token.now) }
{
    general_text(alloc, &token.view())
}

/// The same of a token that is borrowed, whose texts are not copied before they are written.
pub fn general_text(alloc: Global, token: &TokenView<'_>) -> Result<TextBox, NoMemory>
    requires printable { IsPrintable token.now }
    ensures text { IfOk result (λ text. text ≡ json_text (general_of token.now)) }
    ensures back { members_depth token.now.outer ≤ 123 → IfOk result (IsGeneral token.now) }
{
    let entry = entry_of(alloc, token)?;
    let mut signatures = TreeList::new(alloc);
    signatures.push(Tree::Object(entry))?;
    let mut members = TreeMap::new(alloc);
    put_text(alloc, &mut members, Part::Payload, token.signed().payload)?;
    put(
        alloc,
        &mut members,
        Part::Signatures,
        Tree::List(signatures),
    )?;
    write(alloc, &Tree::Object(members))
}
