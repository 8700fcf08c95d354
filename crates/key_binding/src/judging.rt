// The conditions 27 to 38, in their order.
ghost use Rattle.std.specs.Prelude.{◌≡◌, ◌↔◌, Some, codes, IsTrue, OnOk, IfOk, IfErr, IfSome, IfNone, IsErrOf};
ghost use Rattle.std.specs.Option.{option_copied};
ghost use Rattle.claim_tree.specs.Tree.{InRange, no_members};
ghost use Rattle.claim_tree.specs.View.{tree_of};
ghost use Rattle.refusals.specs.Condition.{number_of};
ghost use Rattle.compact_form.specs.Views.{jwt_of};
ghost use Rattle.refusals.specs.declared.condition.Condition.{Condition};
ghost use Rattle.refusals.specs.Lowest.{NoneFails};
ghost use Rattle.refusals.specs.Passing.{Passes};
ghost use Rattle.disclosure.specs.Digest.{digest_of};
ghost use Rattle.jws_part.specs.Header.{IsHeader, IsHeaderUnreadable, IsHeaderCritical};
ghost use Rattle.jws_part.specs.Part.{IsBody};
ghost use Rattle.key_binding.specs.CallerSeen.{Tells};
ghost use Rattle.key_binding.specs.Judged.{judged, binding_rules, HasBindingHeader, HasClaims};
ghost use Rattle.key_binding.specs.JudgedSteps.{judged_of, IsHolder, IsAlgRefusedBy, IsUnknownBy, IsBadBy};
ghost use Rattle.key_binding.specs.BindingConditions.{BindingFails, IsHolderUnknown, IsStale, IsEarly, IsTimeRefused};
ghost use Rattle.key_binding.specs.BindingCalls.{IsLowestBinding, IsNumberOf, OnBindingFault, OnBoundFails};
ghost use Rattle.key_binding.specs.Read.{claims_of};

use crate::holder::holder_key;
use crate::reading::{Claims, read_claims};
use crate::{
    BindingError, BindingPolicy, BindingRules, BoundError, Caller, Holders, SignatureAnswer,
};
use claim_tree::{JsonReader, Tree, TreeMap};
use compact_form::{JwtParts, JwtView};
use disclosure::{HashAlg, digest};
use hmac_sign::Hs256Key;
use jws_part::{
    BodyError, Header, HeaderError, is_expired, is_not_yet, is_time_unreadable, read_body_with,
    read_header_with,
};
use refusals::Condition;
use sd_outside::{NoMemory, TextBox};
use std::alloc::Global;

/// A key binding token, and what it is judged by.
#[derive(Clone, Copy)]
pub struct Bound<'a> {
    /// The key binding token.
    pub token: JwtView<'a>,
    /// The processed payload of the token that it is sent with.
    pub payload: &'a Tree,
    /// What the verifier wants.
    pub rules: BindingRules<'a>,
    /// By how many seconds clocks may differ.
    pub skew: u32,
    /// The hash of the token that it is sent with.
    pub hash: HashAlg,
    /// The text of that token up to and with its last tilde.
    pub hashed: &'a str,
    /// The moment, in seconds since 1970.
    pub now: u64,
}

/// Judges a key binding token, RFC 9901 section 7.3, at a moment in seconds since 1970.
///
/// `payload` is the processed payload of the token that it is sent with, `hash` the algorithm of
/// its digests, and `hashed` its text up to and with the last tilde. The conditions 27 to 38 are
/// judged in the order of their numbers, and the first that fails is answered.
pub fn check_binding(
    alloc: Global,
    token: &JwtParts,
    payload: &Tree,
    policy: &BindingPolicy,
    skew: u32,
    hash: HashAlg,
    hashed: &str,
    now: u64,
) -> Result<(), BindingError>
    ensures passes { OnOk result
        (NoneFails
        (BindingFails
        (judged token.now (tree_of payload.now) (binding_rules policy.now) skew hash
        hashed.now now))) }
    ensures refused { IfErr result
        (λ e. OnBindingFault e
        (IsNumberOf
        (IsLowestBinding
        (judged token.now (tree_of payload.now) (binding_rules policy.now) skew hash
        hashed.now now)))) }
{
    let bound = Bound {
        token: token.view(),
        payload,
        rules: policy.rules(),
        skew,
        hash,
        hashed,
        now,
    };
    match check_bound(alloc, &mut JsonReader::new(alloc), bound) {
        Ok(()) => Ok(()),
        Err(BoundError::Memory) => Err(BindingError::Memory),
        Err(BoundError::Fails(condition)) => Err(BindingError::Fault(condition.number())),
    }
}

/// The same of borrowed texts, with no copy. The reader reads what they carry.
pub fn check_bound(
    alloc: Global,
    reader: &mut JsonReader,
    bound: Bound<'_>,
) -> Result<(), BoundError>
    ensures passes { OnOk result (NoneFails (BindingFails (judged_of bound.entry))) }
    ensures refused { IfErr result (λ e. OnBoundFails e (IsLowestBinding (judged_of bound.entry))) }
{
    let Some(holder) = holder_of(bound) else {
        return Err(BoundError::Fails(Condition::HolderKeyUnknown));
    };
    if let Err(error) = check_signed(alloc, reader, bound, holder) {
        return Err(error);
    }
    check_payload(alloc, reader, bound)
}

// What checks the signature of the holder.
#[derive(Clone, Copy)]
enum Holder<'a> {
    // the holder's key
    Key(&'a Hs256Key),
    // a caller that checks signatures itself
    Caller(Caller<'a>),
}

// What checks the signature, where it is a caller, or the key is known that the payload names.
fn holder_of(bound: Bound<'_>) -> Option<Holder<'_>>
    ensures some { IfSome result
        (IsHolder (judged_of bound.entry).rules.holders (judged_of bound.entry).payload) }
    ensures none { IfNone result
        (IsHolderUnknown (judged_of bound.entry).rules.holders (judged_of bound.entry)) }
{
    match bound.rules.holders {
        Holders::Keys(keys) => Some(Holder::Key(holder_key(keys, bound.payload)?)),
        Holders::Caller(caller) => Some(Holder::Caller(caller)),
    }
}

fn is_binding_type(typ: Option<&TextBox>) -> bool
    ensures { IsTrue result ↔ (option_copied typ.entry ≡ Some (codes "kb+jwt")) }
{
    match typ {
        Some(typ) => typ.as_str() == "kb+jwt",
        None => false,
    }
}

// The header of the token. There is no unprotected one.
fn header_of(alloc: Global, reader: &mut JsonReader, protected: &str) -> Result<Header, HeaderError>
    ensures ok { IfOk result (IsHeader protected.now no_members) }
    ensures unreadable { IsErrOf result HeaderError.Unreadable
        → IsHeaderUnreadable protected.now no_members }
    ensures critical { IsErrOf result HeaderError.Critical
        → IsHeaderCritical protected.now no_members }
{
    read_header_with(alloc, reader, protected, &TreeMap::new(alloc))
}

// The conditions 27 to 31, where what checks the signature is known: its header and its signature.
fn check_signed(
    alloc: Global,
    reader: &mut JsonReader,
    bound: Bound<'_>,
    holder: Holder<'_>,
) -> Result<(), BoundError>
    requires holder { IsHolder (judged_of bound).rules.holders (judged_of bound).payload holder }
    ensures ok { OnOk result
        (Passes (number_of Condition.BindingPayload) (BindingFails (judged_of bound.entry))) }
    ensures refused { IfErr result (λ e. OnBoundFails e (IsLowestBinding (judged_of bound.entry))) }
{
    match header_of(alloc, reader, bound.token.protected) {
        Ok(header) => check_header(alloc, bound, holder, &header),
        Err(HeaderError::Memory) => Err(BoundError::Memory),
        Err(HeaderError::Unreadable) => Err(BoundError::Fails(Condition::BindingHeader)),
        Err(HeaderError::Critical) => Err(BoundError::Fails(Condition::BindingHeader)),
    }
}

// Whether the holder may not sign with this algorithm.
fn is_alg_refused(holder: Holder<'_>, alg: &str) -> bool
    ensures { IsTrue result ↔ IsAlgRefusedBy holder.entry alg.now }
{
    match holder {
        Holder::Key(_) => alg != "HS256",
        Holder::Caller(caller) => caller.refuses(alg),
    }
}

// What there is to say of the signature.
fn answer_on(
    alloc: Global,
    holder: Holder<'_>,
    token: JwtView<'_>,
) -> Result<SignatureAnswer, NoMemory>
    ensures { IfOk result
        (λ answer. Tells answer (IsUnknownBy holder.entry (jwt_of token.entry))
        (IsBadBy holder.entry (jwt_of token.entry))) }
{
    let key = match holder {
        Holder::Key(key) => key,
        Holder::Caller(caller) => return caller.tells(alloc, token.signature),
    };
    let JwtView {
        protected,
        payload,
        signature,
    } = token;
    if key
        .as_key()
        .check_text(alloc, protected, payload, signature)?
    {
        Ok(SignatureAnswer::Good)
    } else {
        Ok(SignatureAnswer::Bad)
    }
}

// The conditions 27 and 29 to 31, of a header that is read.
fn check_header(
    alloc: Global,
    bound: Bound<'_>,
    holder: Holder<'_>,
    header: &Header,
) -> Result<(), BoundError>
    requires holder { IsHolder (judged_of bound).rules.holders (judged_of bound).payload holder }
    requires read { HasBindingHeader (judged_of bound).token header.now }
    ensures ok { OnOk result
        (Passes (number_of Condition.BindingPayload) (BindingFails (judged_of bound.entry))) }
    ensures refused { IfErr result (λ e. OnBoundFails e (IsLowestBinding (judged_of bound.entry))) }
{
    if is_alg_refused(holder, header.alg.as_str()) {
        return Err(BoundError::Fails(Condition::BindingAlg));
    }
    match answer_on(alloc, holder, bound.token) {
        Ok(SignatureAnswer::Good) => {}
        Ok(SignatureAnswer::Bad) => return Err(BoundError::Fails(Condition::BindingSignature)),
        Ok(SignatureAnswer::Unknown) => return Err(BoundError::Fails(Condition::HolderKeyUnknown)),
        Err(_) => return Err(BoundError::Memory),
    }
    if !is_binding_type(header.typ.as_ref()) {
        return Err(BoundError::Fails(Condition::BindingType));
    }
    Ok(())
}

// The conditions 32 to 38: its payload.
fn check_payload(alloc: Global, reader: &mut JsonReader, bound: Bound<'_>) -> Result<(), BoundError>
    requires below { Passes (number_of Condition.BindingPayload) (BindingFails (judged_of bound)) }
    ensures passes { OnOk result (NoneFails (BindingFails (judged_of bound.entry))) }
    ensures refused { IfErr result (λ e. OnBoundFails e (IsLowestBinding (judged_of bound.entry))) }
{
    match read_body_with(alloc, reader, bound.token.payload) {
        Ok(body) => check_body(alloc, bound, &body),
        Err(BodyError::Memory) => Err(BoundError::Memory),
        Err(BodyError::Unreadable) => Err(BoundError::Fails(Condition::BindingPayload)),
    }
}

// The conditions 32 to 38, of a payload that is read.
fn check_body(alloc: Global, bound: Bound<'_>, body: &Tree) -> Result<(), BoundError>
    requires below { Passes (number_of Condition.BindingPayload) (BindingFails (judged_of bound)) }
    requires read { IsBody (judged_of bound).token.payload (tree_of body.now) }
    ensures passes { OnOk result (NoneFails (BindingFails (judged_of bound.entry))) }
    ensures refused { IfErr result (λ e. OnBoundFails e (IsLowestBinding (judged_of bound.entry))) }
{
    let Some(claims) = read_claims(body) else {
        return Err(BoundError::Fails(Condition::BindingPayload));
    };
    if let Err(condition) = check_claims(bound, claims) {
        return Err(BoundError::Fails(condition));
    }
    let same = match is_digest_of(alloc, claims.sd_hash, bound.hash, bound.hashed) {
        Ok(same) => same,
        Err(_) => return Err(BoundError::Memory),
    };
    if !same {
        return Err(BoundError::Fails(Condition::HashDiffers));
    }
    if is_time_refused(body, bound.skew, bound.now) {
        return Err(BoundError::Fails(Condition::BindingTime));
    }
    Ok(())
}

// Whether a text is the digest of another.
fn is_digest_of(alloc: Global, text: &str, hash: HashAlg, hashed: &str) -> Result<bool, NoMemory>
    ensures { IfOk result (λ same. IsTrue same ↔ (text.now ≡ digest_of hash hashed.now)) }
{
    let digest = digest(alloc, hash, hashed)?;
    Ok(text == digest.as_str())
}

// The conditions 33 to 36, of the claims that are read.
fn check_claims(bound: Bound<'_>, claims: Claims<'_>) -> Result<(), Condition>
    requires below { Passes (number_of Condition.BindingStale) (BindingFails (judged_of bound)) }
    requires read { HasClaims (judged_of bound).token (claims_of claims) }
    requires ranged { InRange claims.iat }
    ensures ok { OnOk result
        (Passes (number_of Condition.HashDiffers) (BindingFails (judged_of bound.entry))) }
    ensures refused { IfErr result (IsLowestBinding (judged_of bound.entry)) }
{
    if is_stale(&claims, bound.rules.max_age, bound.skew, bound.now) {
        return Err(Condition::BindingStale);
    }
    if is_early(&claims, bound.skew, bound.now) {
        return Err(Condition::BindingEarly);
    }
    if claims.nonce != bound.rules.nonce.as_str() {
        return Err(Condition::NonceDiffers);
    }
    if !bound.rules.aud.contains(claims.aud) {
        return Err(Condition::AudienceDiffers);
    }
    Ok(())
}

// Whether the token's own times are no whole numbers, or do not hold.
fn is_time_refused(body: &Tree, skew: u32, now: u64) -> bool
    ensures { IsTrue result ↔ IsTimeRefused (tree_of body.now) skew now }
{
    is_time_unreadable(body) || is_expired(body, skew, now) || is_not_yet(body, skew, now)
}

// Whether the token was made too long ago.
fn is_stale(claims: &Claims<'_>, max_age: u32, skew: u32, now: u64) -> bool
    requires { InRange claims.now.iat }
    ensures { IsTrue result ↔ IsStale claims.now.iat max_age skew now }
{
    claims.iat + i128::from(max_age) + i128::from(skew) < i128::from(now)
}

// Whether the token is of the future.
fn is_early(claims: &Claims<'_>, skew: u32, now: u64) -> bool
    requires { InRange claims.now.iat }
    ensures { IsTrue result ↔ IsEarly claims.now.iat skew now }
{
    i128::from(now) + i128::from(skew) < claims.iat
}
