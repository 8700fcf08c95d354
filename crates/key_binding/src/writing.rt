// The call that writes a key binding token.
ghost use Rattle.std.specs.Prelude.{◌≡◌, IfOk, OnOk, IsErrOf};
ghost use Rattle.sd_outside.specs.Causes.{Rose};
ghost use Rattle.b64url_text.specs.Base64url.{IsWord, b64};
ghost use Rattle.claim_tree.specs.Tree.{object, no_members, inserted};
ghost use Rattle.claim_tree.specs.JsonText.{json_text};
ghost use Rattle.claim_tree.specs.View.{tree_of};
ghost use Rattle.jws_part.specs.Header.{IsHeader, header_members, text_tree};
ghost use Rattle.jws_part.specs.Part.{IsBody};
ghost use Rattle.compact_form.specs.Compact.{HasWords};
ghost use Rattle.hmac_sign.specs.Agreement.{IsSameSigner};
ghost use Rattle.key_binding.specs.Binding.{IsBinding, IsUnsignedBinding, IsReadBack, AreReadBack, claims_for, claim_members, binding_header};
ghost use Rattle.key_binding.specs.declared.errors.BindError.{BindError};

use crate::BindError;
use claim_tree::{Tree, TreeMap, Whole};
use compact_form::JwtParts;
use disclosure::{HashAlg, digest};
use hmac_sign::{AlgName, Signer, UnsignedJwt};
use jws_part::{Header, write_body, write_header};
use sd_outside::{NoMemory, TextBox};
use std::alloc::Global;

fn header(alloc: Global, alg: &AlgName<'_>) -> Result<Header, NoMemory>
    ensures { IfOk result (λ header. header ≡ binding_header alg.now) }
{
    Ok(Header {
        alg: TextBox::make(alloc, alg.as_str())?,
        kid: None,
        typ: Some(TextBox::make(alloc, "kb+jwt")?),
    })
}

fn put(alloc: Global, members: &mut TreeMap, name: &str, claim: Tree) -> Result<(), NoMemory>
    ensures { OnOk result (members.new ≡ inserted members.old name.now (tree_of claim)) }
{
    members.insert(TextBox::make(alloc, name)?, claim)
}

fn put_text(alloc: Global, members: &mut TreeMap, name: &str, text: &str) -> Result<(), NoMemory>
    ensures { OnOk result (members.new ≡ inserted members.old name.now (text_tree text.now)) }
{
    let text = Tree::Text(TextBox::make(alloc, text)?);
    put(alloc, members, name, text)
}

// The protected header, written.
fn header_part(alloc: Global, alg: &AlgName<'_>) -> Result<TextBox, NoMemory>
    ensures text { IfOk result
        (λ part. part ≡ b64 (json_text (object (header_members (binding_header alg.now))))) }
    ensures back { IfOk result (λ part. IsHeader part no_members (binding_header alg.now)) }
{
    let header = header(alloc, alg)?;
    write_header(alloc, &header)
}

// The payload, written: the claims in the order of their names.
fn payload_part(
    alloc: Global,
    hash: HashAlg,
    hashed: &str,
    aud: &str,
    nonce: &str,
    iat: u64,
) -> Result<TextBox, NoMemory>
    ensures text { IfOk result
        (λ part. part
        ≡ b64
        (json_text
        (object (claim_members (claims_for hash hashed.now aud.now nonce.now iat))))) }
    ensures back { IfOk result
        (λ part. IsBody part
        (object (claim_members (claims_for hash hashed.now aud.now nonce.now iat)))) }
{
    let mut members = TreeMap::new(alloc);
    put_text(alloc, &mut members, "aud", aud)?;
    put(alloc, &mut members, "iat", Tree::Whole(Whole::from(iat)))?;
    put_text(alloc, &mut members, "nonce", nonce)?;
    let sd_hash = Tree::Text(digest(alloc, hash, hashed)?);
    put(alloc, &mut members, "sd_hash", sd_hash)?;
    write_body(alloc, &Tree::Object(members))
}

/// What is to be signed of a key binding token, RFC 9901 section 4.3, for an audience, with its
/// nonce, at a moment in seconds since 1970.
///
/// `alg` is the name of the algorithm that signs, `hashed` the text of the token that it is sent
/// with, up to and with the last tilde, and `hash` the algorithm of that token's digests.
pub fn unsigned_binding(
    alloc: Global,
    alg: &AlgName<'_>,
    hash: HashAlg,
    hashed: &str,
    aud: &str,
    nonce: &str,
    iat: u64,
) -> Result<UnsignedJwt, NoMemory>
    ensures texts { IfOk result (IsUnsignedBinding alg.now hash hashed.now aud.now nonce.now iat) }
    ensures back { IfOk result
        (λ unsigned. AreReadBack alg.now hash hashed.now aud.now nonce.now iat unsigned.protected
        unsigned.payload) }
    ensures words { IfOk result (λ unsigned. IsWord unsigned.protected × IsWord unsigned.payload) }
{
    let protected = header_part(alloc, alg)?;
    let payload = payload_part(alloc, hash, hashed, aud, nonce, iat)?;
    Ok(UnsignedJwt { protected, payload })
}

/// Writes a key binding token, as [`unsigned_binding`] says, with a signature
/// of the signer, which is asked once.
pub fn bind<S: Signer>(
    alloc: Global,
    signer: &mut S,
    hash: HashAlg,
    hashed: &str,
    aud: &str,
    nonce: &str,
    iat: u64,
) -> Result<JwtParts, BindError>
    ensures binding { IfOk result
        (IsBinding (S.alg_name_of signer.old) (S.good signer.old) hash hashed.now aud.now nonce.now
        iat) }
    ensures back { IfOk result
        (IsReadBack (S.alg_name_of signer.old) hash hashed.now aud.now nonce.now iat) }
    ensures words { IfOk result HasWords }
    ensures failed { IsErrOf result BindError.SignFailed
        → Rose (S.faults signer.old) (S.faults signer.new) }

    // what stays
    ensures kept { IsSameSigner S.good S.alg_name_of S.faults signer.old signer.new }
{
    let alg = signer.alg_name();
    let unsigned = match unsigned_binding(alloc, &alg, hash, hashed, aud, nonce, iat) {
        Ok(unsigned) => unsigned,
        Err(NoMemory) => return Err(BindError::Memory),
    };
    match unsigned.sign(alloc, signer) {
        Ok(token) => Ok(token),
        Err(error) => Err(BindError::from(error)),
    }
}
