// What a caller says for a judgement: of the two signatures by numbers, and the
// algorithms of the holder as JSON.
ghost use Rattle.std.specs.Prelude.{◌≡◌, IfOk, IfErr, IfSome, IfNone};
ghost use Rattle.cli_parts.specs.Stops.{OnUnreadable, NotRefused, NotUnread};
ghost use Rattle.sdjwt_c.specs.Numbers.{answer_numbered, answers_numbered};
ghost use Rattle.sdjwt_c.specs.Said.{SaysAlgs, SaysNoAlgs, IsListText, IsNoListText};

use claim_tree::{ReadError, Tree, read, texts_of};
use cli_parts::{Stop, unreadable_line};
use file_members::{Field, FileFault};
use key_binding::SignatureAnswer;
use sd_outside::{NoMemory, TextBox, TextList};
use std::alloc::Global;
use verifier_core::{Answers, Policy};

// What was said of a signature.
pub(crate) fn answer_of(number: u8) -> Option<SignatureAnswer>
    ensures { result ≡ answer_numbered number }
{
    match number {
        1 => Some(SignatureAnswer::Unknown),
        2 => Some(SignatureAnswer::Bad),
        3 => Some(SignatureAnswer::Good),
        _ => None,
    }
}

// What was said of the issuer's signature and of the holder's. Of the holder's
// something may be said where the issuer's is good.
pub(crate) fn answers_of(issuer: u8, holder: u8) -> Option<Answers>
    ensures { result ≡ answers_numbered issuer holder }
{
    match (issuer, holder) {
        (0, 0) => Some(Answers::Nothing),
        (_, 0) => Some(Answers::Issuer(answer_of(issuer)?)),
        (3, _) => Some(Answers::Holder(answer_of(holder)?)),
        _ => None,
    }
}

// Copies of these texts.
fn copied(alloc: Global, texts: &TextList) -> Result<TextList, NoMemory>
    ensures { IfOk result (λ copies. copies ≡ texts.now) }
{
    let mut copies = TextList::new(alloc);
    for text in texts.elements() {
        copies.push(TextBox::make(alloc, text.as_str())?)?;
    }
    Ok(copies)
}

// The texts of a JSON list, where the text is one.
fn list_of(alloc: Global, text: &[u8]) -> Result<Option<TextList>, NoMemory>
    ensures list { IfOk result (λ found. IfSome found (IsListText text.now)) }
    ensures none { IfOk result (λ found. IfNone found (IsNoListText text.now)) }
{
    match read(alloc, text) {
        Ok(Tree::List(list)) => texts_of(alloc, list.trees()),
        Ok(_) => Ok(None),
        Err(ReadError::Memory) => Err(NoMemory),
        Err(ReadError::NotJson) => Ok(None),
        Err(ReadError::NotWhole) => Ok(None),
    }
}

// The algorithms that are taken of the holder: those of a JSON list, or those
// of the policy where the text is empty.
pub(crate) fn algs_of(alloc: Global, policy: &Policy, text: &[u8]) -> Result<TextList, Stop>
    ensures algs { IfOk result (SaysAlgs policy.now text.now) }
    ensures unreadable { IfErr result (λ stop. OnUnreadable stop (SaysNoAlgs text.now)) }
    ensures fit { IfErr result NotRefused }
    ensures read { IfErr result NotUnread }
{
    if text.is_empty() {
        return Ok(copied(alloc, &policy.algs)?);
    }
    match list_of(alloc, text)? {
        Some(algs) => Ok(algs),
        None => Err(Stop::Unreadable(unreadable_line(alloc, 2, FileFault::Wrong(Field::Algs))?)),
    }
}
