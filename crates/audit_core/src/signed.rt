// The first part: what is signed.
ghost use Rattle.std.specs.Prelude.{◌≡◌, ◌↔◌, ℕ, List, None, IfOk, IsTrue};
ghost use Rattle.b64url_text.specs.Base64url.{b64, Decodes};
ghost use Rattle.claim_tree.specs.Tree.{object, no_members};
ghost use Rattle.claim_tree.specs.JsonText.{json_text};
ghost use Rattle.compact_form.specs.Views.{jwt_of};
ghost use Rattle.jws_part.specs.Header.{header_members};
ghost use Rattle.issuer_core.specs.Order.{order_of};
ghost use Rattle.issuer_core.specs.Written.{header_of};
ghost use Rattle.audit_core.specs.Audited.{IsSignedFor};

use b64url_text::{DecodeError, decode};
use compact_form::JwtView;
use hmac_sign::{AlgName, Checker};
use issuer_core::{Order, order_header};
use json_form::TokenView;
use jws_part::write_header;
use sd_outside::NoMemory;
use std::alloc::Global;

// Whether the protected header is that of the order.
fn is_header_of(
    alloc: Global,
    order: &Order,
    alg: &AlgName<'_>,
    protected: &str,
) -> Result<bool, NoMemory>
    ensures { IfOk result
        (λ is. IsTrue is
        ↔ (protected.now
        ≡ b64
        (json_text
        (object (header_members (header_of alg.now (order_of order.now))))))) }
{
    let header = order_header(alloc, order, alg)?;
    let wanted = write_header(alloc, &header)?;
    Ok(protected == wanted.as_str())
}

// Whether the signature is one that the checker accepts.
fn is_accepted<K: Checker>(
    alloc: Global,
    checker: &K,
    signed: JwtView<'_>,
) -> Result<bool, NoMemory>
    ensures { IfOk result
        (λ is. IsTrue is
        ↔ ((signature : List ℕ) × Decodes (jwt_of signed.entry).signature signature
        × K.good checker.now (jwt_of signed.entry).protected (jwt_of signed.entry).payload
        signature)) }
{
    match decode(alloc, signed.signature.as_bytes()) {
        Ok(signature) => { Ok(checker.check(signed.protected, signed.payload, signature.bytes())) }
        Err(DecodeError::NotBase64) => Ok(false),
        Err(DecodeError::Memory) => Err(NoMemory),
    }
}

// Whether nothing stands beside what is signed: no key binding token, and no unprotected header.
fn is_alone(token: &TokenView<'_>) -> bool
    ensures unbound { IsTrue result → token.now.parts.binding ≡ None }
    ensures plain { IsTrue result → token.now.outer ≡ no_members }
    ensures alone { token.now.parts.binding ≡ None → token.now.outer ≡ no_members → IsTrue result }
{
    token.binding().is_none() && token.outer().members().is_empty()
}

pub(crate) fn is_signed_for<K: Checker>(
    alloc: Global,
    order: &Order,
    alg: &AlgName<'_>,
    checker: &K,
    token: &TokenView<'_>,
) -> Result<bool, NoMemory>
    ensures { IfOk result
        (λ is.
        IsTrue is ↔ IsSignedFor (order_of order.now) alg.now (K.good checker.now) token.now) }
{
    let signed = token.signed();
    if !is_alone(token) || !is_header_of(alloc, order, alg, signed.protected)? {
        return Ok(false);
    }
    is_accepted(alloc, checker, signed)
}
