//! Tokens that a row builds from JSON texts.

use crate::names::Names;
use crate::trouble::Trouble;
use b64url_text::{decode, encode};
use disclosure::{HashAlg, digest};
use hmac_sign::Hs256Key;
use sd_outside::{TextBox, TextList};
use std::alloc::Global;

// What stands before the first blank, and what stands behind it.
fn word(words: &str) -> (&str, &str) {
    words.split_once(' ').unwrap_or((words, ""))
}

// The letters and digits at the front, and the rest.
fn name_at_front(text: &str) -> (&str, &str) {
    let rest = text.trim_start_matches(|c: char| c.is_ascii_alphanumeric());
    (text.strip_suffix(rest).unwrap_or(""), rest)
}

// The digest of the disclosure of this number, or of what the file of this name holds.
fn digest_named(
    alloc: Global,
    digests: &TextList,
    files: &Names,
    name: &str,
) -> Result<TextBox, Trouble> {
    if let Ok(number) = name.parse::<usize>() {
        let digest = digests.at(number).ok_or(Trouble::Unread(
            "a $ names a disclosure that does not stand before it",
        ))?;
        return Ok(TextBox::make(alloc, digest.as_str())?);
    }
    let text = files
        .find(name)
        .ok_or(Trouble::Unread("a $ names no file"))?;
    Ok(digest(alloc, HashAlg::Sha256, text)?)
}

// The text with the digest for which each `$` stands.
fn filled(alloc: Global, digests: &TextList, files: &Names, text: &str) -> Result<String, Trouble> {
    let mut pieces = text.split('$');
    let mut whole = String::from_str(alloc, pieces.next().unwrap_or(""))?;
    for piece in pieces {
        let (name, rest) = name_at_front(piece);
        whole.push_str(digest_named(alloc, digests, files, name)?.as_str())?;
        whole.push_str(rest)?;
    }
    Ok(whole)
}

// The key of this base64url text.
fn key_of(alloc: Global, text: &str) -> Result<Hs256Key, Trouble> {
    let Ok(bytes) = decode(alloc, text.as_bytes()) else {
        return Err(Trouble::Unread("a key is no base64url text"));
    };
    Hs256Key::new(bytes.bytes()).map_err(|_| Trouble::Unread("a key is short"))
}

// The JWT of these JSON texts.
fn signed(alloc: Global, key: &Hs256Key, header: &str, payload: &str) -> Result<String, Trouble> {
    let head = encode(alloc, header.as_bytes())?;
    let body = encode(alloc, payload.as_bytes())?;
    let (head, body) = (head.as_str(), body.as_str());
    let signature = encode(alloc, &key.mac(head, body))?;
    let signature = signature.as_str();
    Ok(format!(in alloc; "{head}.{body}.{signature}")?)
}

// Disclosures: those that are sent, each with a tilde behind it, and the digests of all.
#[derive(Drop)]
struct Disclosures {
    sent: String,
    digests: TextList,
}

impl Disclosures {
    // The disclosures of these JSON texts, with blanks between. One behind a `!` is not sent.
    fn read(alloc: Global, files: &Names, words: &str) -> Result<Disclosures, Trouble> {
        let mut sent = String::new(alloc);
        let mut digests = TextList::new(alloc);
        for word in words.split(' ').filter(|word| !word.is_empty()) {
            let json = word.strip_prefix('!').unwrap_or(word);
            let json = filled(alloc, &digests, files, json)?;
            let text = encode(alloc, json.as_bytes())?;
            if !word.starts_with('!') {
                sent.push_str(text.as_str())?;
                sent.push('~')?;
            }
            digests.push(digest(alloc, HashAlg::Sha256, text.as_str())?)?;
        }
        Ok(Disclosures { sent, digests })
    }
}

/// The token of a key, a header, a payload and disclosures.
pub(crate) fn token(alloc: Global, files: &Names, words: &str) -> Result<String, Trouble> {
    let (key, rest) = word(words);
    let (header, rest) = word(rest);
    let (payload, rest) = word(rest);
    let key = key_of(alloc, key)?;
    let Disclosures { sent, digests } = Disclosures::read(alloc, files, rest)?;
    let payload = filled(alloc, &digests, files, payload)?;
    let mut token = signed(alloc, &key, header, payload.as_str())?;
    token.push('~')?;
    token.push_str(sent.as_str())?;
    Ok(token)
}

/// The key binding token of a key, a header and claims.
pub(crate) fn binding(alloc: Global, files: &Names, words: &str) -> Result<String, Trouble> {
    let (key, rest) = word(words);
    let (header, claims) = word(rest);
    let key = key_of(alloc, key)?;
    let claims = filled(alloc, &TextList::new(alloc), files, claims)?;
    signed(alloc, &key, header, claims.as_str())
}

// What stands before the first of these characters, and what stands behind it.
fn cut(text: &str, c: char) -> Result<(&str, &str), Trouble> {
    text.split_once(c)
        .ok_or(Trouble::Unread("it is no compact token"))
}

// The disclosures of a list with a tilde behind each, as JSON texts with commas between.
fn listed(alloc: Global, disclosures: &str) -> Result<String, Trouble> {
    let mut list = String::new(alloc);
    for text in disclosures.split('~').filter(|text| !text.is_empty()) {
        if !list.is_empty() {
            list.push(',')?;
        }
        list.push_str(format!(in alloc; "\"{text}\"")?.as_str())?;
    }
    Ok(list)
}

// The header of a flattened token: the disclosures, the key binding token where
// there is one, and the members of this object.
fn header_of(
    alloc: Global,
    disclosures: &str,
    binding: &str,
    object: &str,
) -> Result<String, Trouble> {
    let mut header = String::from_str(alloc, "{\"disclosures\":[")?;
    header.push_str(listed(alloc, disclosures)?.as_str())?;
    header.push(']')?;
    if !binding.is_empty() {
        header.push_str(format!(in alloc; ",\"kb_jwt\":\"{binding}\"")?.as_str())?;
    }
    let (_, members) = cut(object, '{')?;
    if members != "}" {
        header.push(',')?;
    }
    header.push_str(members)?;
    Ok(header)
}

/// The flattened form of a compact token, with the members of this JSON object in its header.
pub(crate) fn flattened(alloc: Global, token: &str, object: &str) -> Result<String, Trouble> {
    let (jwt, rest) = cut(token, '~')?;
    let (protected, body) = cut(jwt, '.')?;
    let (payload, signature) = cut(body, '.')?;
    let (disclosures, binding) = rest.rsplit_once('~').unwrap_or(("", rest));
    let header = header_of(alloc, disclosures, binding, object)?;
    let header = header.as_str();
    Ok(format!(in alloc;
        "{{\"payload\":\"{payload}\",\"protected\":\"{protected}\",\"signature\":\"{signature}\",\"header\":{header}}}"
    )?)
}
