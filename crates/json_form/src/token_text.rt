// A token with its parts in one compact text, in whichever serialization it comes.
ghost use Rattle.std.specs.Prelude.{◌≡◌, ◌≢◌, true, false, IfOk, IfSome, IfNone, IsErrOf};
ghost use Rattle.compact_form.specs.Compact.{hashed as hashed_of, AreWords, IsCompact};
ghost use Rattle.compact_form.specs.Trim.{trimmed, is_json as is_json_test};
ghost use Rattle.refusals.specs.declared.fault.Fault.{Fault as TheFault};
ghost use Rattle.compact_form.specs.declared.parts.Parts.{Parts as SeenParts};
ghost use Rattle.json_form.specs.Token.{IsToken, IsTextRefused, IsTooMuch};
ghost use Rattle.json_form.specs.Printable.{IsPrintable};

use crate::{Token, TokenError, TokenView, parse_json};
use claim_tree::TreeMap;
use compact_form::{
    COMPACT_MAX, COUNT_MAX, FILE_MAX, Parts, View, is_json, print, read_view, trim,
};
use refusals::Condition;
use sd_outside::{NoMemory, TextBox};
use std::alloc::Global;
use std::marker::Model;

// Where the parts stand.
#[derive(Debug, Drop)]
enum Source<'a> {
    // in the text that was read
    Borrowed(View<'a>),
    // in a JSON serialization: the parts, and their compact text
    Owned(Parts, TextBox),
}

/// A token whose parts can be borrowed from one compact text: the text that was read where it is
/// the compact serialization, else one that is made of the parts. Contracts see the token.
#[derive(Debug, Drop)]
pub struct TokenText<'a> {
    source: Source<'a>,
    outer: TreeMap,
}

impl<'a> Model for TokenText<'a> {
    ghost use Rattle.json_form.specs.declared.token.Token.{Token};
    ghost use Rattle.json_form.specs.Code.{token_code};

    ghost Value = { Token };

    ghost coded = { token_code };

    ghost use Rattle.json_form.specs.Source.{source_parts, IsSourceSpelled};

    ghost view = { λ t. record { parts = source_parts t.source; outer = t.outer } };

    ghost invariant = { λ t. IsSourceSpelled t.source };
}

// The token of a compact text, with the blanks around it.
fn read_compact<'a>(alloc: Global, text: &'a [u8]) -> Result<TokenText<'a>, TokenError>
    requires plain { is_json_test (trimmed text.now) ≡ false }
    ensures ok { IfOk result (IsToken text.now) }
    ensures printable { IfOk result IsPrintable }
    ensures refused { (fault : TheFault) → IsErrOf result (TokenError.Fault fault)
        → IsTextRefused text.now fault }
    ensures no_memory { result ≢ Err TokenError.Memory }
{
    let view = read_view(text)?;
    Ok(TokenText {
        source: Source::Borrowed(view),
        outer: TreeMap::new(alloc),
    })
}

// The compact text of the parts, where they are not more than a token may have.
fn short_text(alloc: Global, parts: &Parts) -> Result<Option<TextBox>, NoMemory>
    requires words { AreWords parts.now }
    ensures text { IfOk result (λ text. IfSome text (IsCompact parts.now)) }
    ensures few { IfOk result (λ text. IfSome text (λ _. IsTooMuch parts.now → ⊥)) }
    ensures much { IfOk result (λ text. IfNone text (IsTooMuch parts.now)) }
{
    if parts.disclosures.len() > COUNT_MAX {
        return Ok(None);
    }
    let text = print(alloc, parts)?;
    if text.as_str().len() > COMPACT_MAX {
        return Ok(None);
    }
    Ok(Some(text))
}

// The token of a JSON text, which stands between the blanks of the whole text.
fn read_json<'a>(alloc: Global, text: &[u8], json: &[u8]) -> Result<TokenText<'a>, TokenError>
    requires between { json.now ≡ trimmed text.now }
    requires json { is_json_test json.now ≡ true }
    ensures ok { IfOk result (IsToken text.now) }
    ensures printable { IfOk result IsPrintable }
    ensures refused { (fault : TheFault) → IsErrOf result (TokenError.Fault fault)
        → IsTextRefused text.now fault }
{
    if text.len() > FILE_MAX {
        return Err(TokenError::Fault(Condition::TooLong.fault()));
    }
    let token = parse_json(alloc, json)?;
    let Token { parts, outer } = token;
    match short_text(alloc, &parts)? {
        Some(compact) => Ok(TokenText {
            source: Source::Owned(parts, compact),
            outer,
        }),
        None => Err(TokenError::Fault(Condition::TooMuch.fault())),
    }
}

// The parts that a compact text spells.
fn view_of(compact: &TextBox) -> View<'_>
    requires compact { (parts : SeenParts) × IsCompact parts compact.now }
    ensures { IsCompact result compact.now }
{
    match View::scan(compact.as_str().as_bytes()) {
        Ok(view) => view,
        Err(_) => unreachable!(),
    }
}

impl<'a> TokenText<'a> {
    /// The token of a text as it comes from a file, or the lowest condition of 1 to 3 that fails:
    /// what [`read_token`](crate::read_token) answers, without a copy of a compact text.
    pub fn read(alloc: Global, text: &'a [u8]) -> Result<TokenText<'a>, TokenError>
        ensures ok { IfOk result (IsToken text.now) }
        ensures printable { IfOk result IsPrintable }
        ensures refused { (fault : TheFault) → IsErrOf result (TokenError.Fault fault)
            → IsTextRefused text.now fault }

        // a compact text is read without memory
        ensures no_memory { is_json_test (trimmed text.now) ≡ false
            → result ≢ Err TokenError.Memory }
    {
        let token = trim(text);
        if is_json(token) {
            read_json(alloc, text, token)
        } else {
            read_compact(alloc, text)
        }
    }

    /// The token, borrowed.
    pub fn view(&self) -> TokenView<'_>
        ensures { result ≡ self.now }
    {
        match &self.source {
            Source::Borrowed(view) => TokenView::in_text(view.copy(), &self.outer),
            Source::Owned(parts, _) => TokenView::apart(parts, &self.outer),
        }
    }

    /// Its compact text up to and with the last tilde, which a key binding
    /// token hashes (RFC 9901 section 4.3.1).
    pub fn hashed(&self) -> &str
        ensures { result.now ≡ hashed_of self.now.parts }
    {
        match &self.source {
            Source::Borrowed(view) => view.hashed(),
            Source::Owned(_, compact) => view_of(compact).hashed(),
        }
    }

    /// The token, with texts of its own.
    pub fn into_token(self, alloc: Global) -> Result<Token, NoMemory>
        ensures { IfOk result (λ token. token ≡ self.entry) }
    {
        let outer = self.outer;
        match self.source {
            Source::Borrowed(view) => Ok(Token {
                parts: view.to_parts(alloc)?,
                outer,
            }),
            Source::Owned(parts, _) => Ok(Token { parts, outer }),
        }
    }
}
