// A question to the caller, as JSON.
ghost use Rattle.std.specs.Prelude.{◌≡◌, ◌≢◌, OnOk, IfOk, string_bytes};
ghost use Rattle.claim_tree.specs.JsonText.{json_text};
ghost use Rattle.claim_tree.specs.Tree.{inserted, object, no_members};
ghost use Rattle.claim_tree.specs.View.{tree_of};
ghost use Rattle.cli_parts.specs.Lines.{line};
ghost use Rattle.sdjwt_c.specs.Questions.{with_text, with_maybe, question_members, with_last, issuer_question, holder_question};

use b64url_text::encode;
use claim_tree::{Tree, TreeMap, write};
use cli_parts::as_line;
use sd_outside::{NoMemory, TextBox};
use std::alloc::Global;
use verifier_core::Question;

fn put(alloc: Global, members: &mut TreeMap, name: &str, tree: Tree) -> Result<(), NoMemory>
    ensures { OnOk result (members.new ≡ inserted members.old name.now (tree_of tree)) }
{
    members.insert(TextBox::make(alloc, name)?, tree)
}

fn put_text(alloc: Global, members: &mut TreeMap, name: &str, text: TextBox) -> Result<(), NoMemory>
    ensures { OnOk result (members.new ≡ with_text members.old name.now text) }
{
    put(alloc, members, name, Tree::Text(text))
}

fn put_maybe(
    alloc: Global,
    members: &mut TreeMap,
    name: &str,
    text: Option<TextBox>,
) -> Result<(), NoMemory>
    ensures { OnOk result (members.new ≡ with_maybe members.old name.now text) }
{
    match text {
        Some(text) => put_text(alloc, members, name, text),
        None => Ok(()),
    }
}

// The members of a question about the signature of the one that is named.
fn members_of(alloc: Global, whose: &str, question: Question) -> Result<TreeMap, NoMemory>
    ensures { IfOk result (λ members. members ≡ question_members whose.now question) }
{
    let Question {
        text,
        signature,
        header,
    } = question;
    let mut members = TreeMap::new(alloc);
    put_text(alloc, &mut members, "alg", header.alg)?;
    put_text(alloc, &mut members, "ask", TextBox::make(alloc, whose)?)?;
    put_maybe(alloc, &mut members, "kid", header.kid)?;
    let signature = encode(alloc, signature.bytes())?;
    put_text(alloc, &mut members, "signature", signature)?;
    put_text(alloc, &mut members, "text", text)?;
    put_maybe(alloc, &mut members, "typ", header.typ)?;
    Ok(members)
}

// The question about the issuer's signature, as a line.
pub(crate) fn issuer_line(alloc: Global, question: Question) -> Result<String, NoMemory>
    ensures { IfOk result
        (λ text. string_bytes text ≡ line (json_text (issuer_question question))) }
{
    let members = members_of(alloc, "issuer", question)?;
    as_line(write(alloc, &Tree::Object(members))?)
}

// The JSON text of an object of some members, with one more behind them.
fn text_with_last(
    alloc: Global,
    members: TreeMap,
    name: &str,
    last: &Tree,
) -> Result<TextBox, NoMemory>
    requires some { members ≢ no_members }
    ensures { IfOk result
        (λ text. text ≡ json_text (object (with_last members name.now (tree_of last.now)))) }
{
    let name = write(alloc, &Tree::Text(TextBox::make(alloc, name)?))?;
    let mut text = write(alloc, &Tree::Object(members))?.into_string();
    // the brace at its end
    let _ = text.pop();
    text.push_str(",")?;
    text.push_str(name.as_str())?;
    text.push_str(":")?;
    text.push_str(write(alloc, last)?.as_str())?;
    text.push_str("}")?;
    Ok(TextBox::from_string(text))
}

// The question about the holder's signature, with the processed payload at its end, as a line.
pub(crate) fn holder_line(
    alloc: Global,
    question: Question,
    payload: Tree,
) -> Result<String, NoMemory>
    ensures { IfOk result
        (λ text.
        string_bytes text ≡ line (json_text (holder_question question (tree_of payload)))) }
{
    let members = members_of(alloc, "holder", question)?;
    as_line(text_with_last(alloc, members, "payload", &payload)?)
}
