// The header of a token, and its signature.
ghost use Rattle.std.specs.Prelude.{◌≡◌, List, IfOk, IfErr, OnOk, option_map};
ghost use Rattle.std.specs.Option.{option_copied};
ghost use Rattle.compact_form.specs.Views.{jwt_of};
ghost use Rattle.claim_tree.specs.Tree.{Text};
ghost use Rattle.key_binding.specs.CallerSeen.{Tells};
ghost use Rattle.verifier_core.specs.Verdict.{of_keys, key_for as key_for_of, IsAlgRefused, IsAlgRefusedBy, IsTypeRefused, IsUnknownBy, IsBadBy};
ghost use Rattle.verifier_core.specs.Seen.{issuers_of};
ghost use Rattle.verifier_core.specs.Check.{OnFault, TestTells, IsSigned, IsSignedFault};
ghost use Rattle.refusals.specs.Faults.{unplaced};
ghost use Rattle.verifier_core.specs.declared.token_checking.VerifyError as error;

use crate::{Issuers, Rules, VerifyError};
use claim_tree::{JsonReader, TreeMap};
use compact_form::JwtView;
use hmac_sign::{HsKey, KeySet, alg_named};
use jws_part::{Header, HeaderError, read_header_with};
use key_binding::SignatureAnswer;
use refusals::Condition;
use sd_outside::{NoMemory, TextBox, TextList};
use std::alloc::Global;

// The fault of a condition without a place.
pub(crate) fn fails(condition: Condition) -> VerifyError
    ensures { result ≡ error.VerifyError.Fault (unplaced condition) }
{
    VerifyError::Fault(condition.fault())
}

// The key for a header: by its `kid`, if it has one, and its algorithm.
fn key_for<'a>(keys: &'a KeySet, header: &Header) -> Option<&'a HsKey>
    ensures { option_map (λ key. key.now) result ≡ key_for_of keys.now header.now }
{
    let alg = alg_named(header.alg.as_str())?;
    match &header.kid {
        Some(kid) => keys.pick(Some(kid.as_str()), alg),
        None => keys.pick(None, alg),
    }
}

// Whether the algorithm of this name is unknown or is not in the list.
fn is_name_refused(algs: &TextList, alg: &str) -> bool
    ensures { TestTells result (IsAlgRefused algs.now alg.now) }
{
    let Some(_) = alg_named(alg) else {
        return true;
    };
    !algs.contains(alg)
}

// Whether the verifier refuses signatures of this algorithm.
fn is_alg_refused(issuers: Issuers<'_>, alg: &str) -> bool
    ensures { TestTells result (IsAlgRefusedBy (issuers_of issuers.entry) alg.now) }
{
    match issuers {
        Issuers::Keys { keys: _, algs } => is_name_refused(algs, alg),
        Issuers::Caller(caller) => caller.refuses(alg),
    }
}

// Says whether the signature is good or bad under the key for the header, or the key is unknown.
fn answer_of_keys(
    alloc: Global,
    keys: &KeySet,
    header: &Header,
    signed: JwtView<'_>,
) -> Result<SignatureAnswer, NoMemory>
    ensures { (algs : List Text)
        → IfOk result
        (λ answer. Tells answer
        (IsUnknownBy (of_keys keys.now algs) header.now (jwt_of signed.entry))
        (IsBadBy (of_keys keys.now algs) header.now (jwt_of signed.entry))) }
{
    let Some(key) = key_for(keys, header) else {
        return Ok(SignatureAnswer::Unknown);
    };
    if key.check_text(alloc, signed.protected, signed.payload, signed.signature)? {
        Ok(SignatureAnswer::Good)
    } else {
        Ok(SignatureAnswer::Bad)
    }
}

// Says whether the signature is good or bad, or its key is unknown.
fn answer_on(
    alloc: Global,
    issuers: Issuers<'_>,
    header: &Header,
    signed: JwtView<'_>,
) -> Result<SignatureAnswer, NoMemory>
    ensures { IfOk result
        (λ answer. Tells answer
        (IsUnknownBy (issuers_of issuers.entry) header.now (jwt_of signed.entry))
        (IsBadBy (issuers_of issuers.entry) header.now (jwt_of signed.entry))) }
{
    match issuers {
        Issuers::Keys { keys, algs: _ } => answer_of_keys(alloc, keys, header, signed),
        Issuers::Caller(caller) => caller.tells(alloc, signed.signature),
    }
}

fn is_type_refused(asked: Option<&TextBox>, typ: Option<&TextBox>) -> bool
    ensures { TestTells result
        (IsTypeRefused (option_copied asked.entry) (option_copied typ.entry)) }
{
    let Some(name) = asked else {
        return false;
    };
    let Some(typ) = typ else {
        return true;
    };
    typ.as_str() != name.as_str()
}

/// The conditions 5 to 10.
pub(crate) fn check_signed(
    alloc: Global,
    reader: &mut JsonReader,
    signed: JwtView<'_>,
    outer: &TreeMap,
    rules: &Rules<'_>,
) -> Result<(), VerifyError>
    ensures ok { OnOk result (IsSigned (jwt_of signed.entry) outer.now rules.now) }
    ensures refused { IfErr result
        (λ e. OnFault e (IsSignedFault (jwt_of signed.entry) outer.now rules.now)) }
{
    let header = match read_header_with(alloc, reader, signed.protected, outer) {
        Ok(header) => header,
        Err(HeaderError::Memory) => return Err(VerifyError::Memory),
        Err(HeaderError::Unreadable) => return Err(fails(Condition::HeaderUnreadable)),
        Err(HeaderError::Critical) => return Err(fails(Condition::HeaderCritical)),
    };
    if is_alg_refused(rules.issuers, header.alg.as_str()) {
        return Err(fails(Condition::AlgRefused));
    }
    if is_type_refused(rules.typ, header.typ.as_ref()) {
        return Err(fails(Condition::TypeRefused));
    }
    match answer_on(alloc, rules.issuers, &header, signed)? {
        SignatureAnswer::Good => Ok(()),
        SignatureAnswer::Bad => Err(fails(Condition::BadSignature)),
        SignatureAnswer::Unknown => Err(fails(Condition::IssuerKeyUnknown)),
    }
}
