// Presenting in two steps, where the caller checks the issuer's signature and makes the holder's.
ghost use Rattle.std.specs.Prelude.{◌≡◌, ◌≢◌, ◌⊎◌, ◌<◌, true, None, length, option_map, IfOk, OnOk, IfErr, IsErrOf};
ghost use Rattle.std.specs.Option.{is_some};
ghost use Rattle.sd_outside.specs.Causes.{Rose};
ghost use Rattle.sd_outside.specs.Limits.{compact_max};
ghost use Rattle.compact_form.specs.Compact.{AreWords, compact as compact_text};
ghost use Rattle.refusals.specs.Lowest.{IsLowest};
ghost use Rattle.compact_form.specs.declared.parts.Parts.{Parts as SeenParts};
ghost use Rattle.hmac_sign.specs.Agreement.{IsSameSigner};
ghost use Rattle.hmac_sign.specs.AlgNames.{IsNoAlgName};
ghost use Rattle.json_form.specs.Token.{IsToken};
ghost use Rattle.json_form.specs.declared.token.Token.{Token as SeenToken};
ghost use Rattle.verifier_core.specs.Verdict.{TokenFails};
ghost use Rattle.verifier_core.specs.Check.{IsSigned, IsCounted, IsReadCounted, IsCountedWithin, IsReadWithin, IsUncounted};
ghost use Rattle.holder_core.specs.Asked.{asked_by_caller, alg_asked, caller_rules};
ghost use Rattle.holder_core.specs.AskedSeen.{binding_seen};
ghost use Rattle.holder_core.specs.Present.{IsAnswer, IsNoAnswer, IsPresented, IsNotPresented};
ghost use Rattle.holder_core.specs.PresentCalls.{OnTokenFault, PresentFails};
ghost use Rattle.holder_core.specs.PresentSteps.{IsUnboundToken, IsShort, IsUnsigned, IsUnsignedOf, IsLongAlone, IsWithBinding, IsUnsent, OnUnsigned, IsSignedOrEarly, AsksOf};
ghost use Rattle.holder_core.specs.ToSign.{none_good, AreUnsignedWords, IsIssuerAsked, AsksIssuer, IsToSign, IsToPresent, IsSentWith, IsSentBy, IsUnsentWith, OnAsksIssuer, OnToSign, OnPresented, OnPicked, AsksOrNoMemory};
ghost use Rattle.holder_core.specs.declared.errors.PresentError.{PresentError};

use crate::asked::{Asked, AskedBinding};
use crate::presenting::{Unbound, read_unbound, unbound_parts};
use crate::{CallerAsk, PresentError};
use claim_tree::{Path, Tree};
use compact_form::{COMPACT_MAX, JwtParts, Parts, hashed_text, is_longer_than};
use digest_index::Steps;
use disclosure::HashAlg;
use hmac_sign::{AlgName, SignError, Signer, UnsignedJwt};
use json_form::TokenView;
use key_binding::{SignatureAnswer, unsigned_binding};
use sd_outside::NoMemory;
use selection_core::Consent;
use std::alloc::Global;
use verifier_core::{Question, question_on};

/// What is presented but for the holder's signature.
#[derive(Debug, Drop)]
pub struct UnsignedPresentation {
    /// The issuer's JWT and the disclosures, without key binding token.
    pub parts: Parts,
    /// What is to be signed: the key binding token that goes with them.
    pub binding: UnsignedJwt,
    /// What the disclosures show, in which the claim `cnf` tells the holder's
    /// key (RFC 7800 section 3).
    pub payload: Tree,
}

/// How far a token is presented.
#[derive(Debug, Drop)]
pub enum Presentation {
    /// The caller is to say whether the issuer's signature is good.
    AsksIssuer(Question),
    /// The caller is to sign the key binding token that is asked for.
    ToSign(UnsignedPresentation),
    /// These are presented, where no key binding token is asked for.
    Presented(Parts),
}

// What is presented as it is, or once its key binding token is signed.
#[derive(Drop)]
pub(crate) enum Unsigned {
    Alone(Parts),
    ToSign(UnsignedPresentation),
}

// The parts, unless they are too long.
fn short_parts(parts: Parts) -> Result<Parts, PresentError>
    ensures same { IfOk result (λ answer. answer ≡ parts) }
    ensures short { IfOk result IsShort }
    ensures long { IfErr result
        (λ e. (e ≡ PresentError.TooLong) × (compact_max < length (compact_text parts))) }
{
    if is_longer_than(&parts, COMPACT_MAX) {
        return Err(PresentError::TooLong);
    }
    Ok(parts)
}

// The parts with this key binding token, unless they are too long.
fn parts_with_binding(unbound: Parts, token: JwtParts) -> Result<Parts, PresentError>
    ensures bound { IfOk result (IsWithBinding unbound token) }
    ensures short { IfOk result IsShort }
    ensures long { IfErr result
        (λ e. (e ≡ PresentError.TooLong) × (answer : SeenParts) × IsWithBinding unbound token answer
        × (compact_max < length (compact_text answer))) }
{
    short_parts(Parts {
        signed: unbound.signed,
        disclosures: unbound.disclosures,
        binding: Some(token),
    })
}

impl UnsignedPresentation {
    /// What is presented, with these bytes as the signature of the key binding
    /// token, whoever made them. Where there are none, nobody signed: the answer is
    /// [`PresentError::SignFailed`].
    pub fn signed(self, alloc: Global, signature: &[u8]) -> Result<Parts, PresentError>
        ensures sent { IfOk result (IsSentWith self signature.now) }
        ensures some { OnOk result (0 < length signature.now) }
        ensures words { AreUnsignedWords self → IfOk result AreWords }
        ensures short { IfOk result IsShort }
        ensures refused { IfErr result (IsUnsentWith self signature.now) }
    {
        let token = match self.binding.with_signature(alloc, signature) {
            Ok(token) => token,
            Err(SignError::Memory) => return Err(PresentError::Memory),
            Err(SignError::Failed) => return Err(PresentError::SignFailed),
        };
        parts_with_binding(self.parts, token)
    }

    // The same, with a signature of the signer, which is asked once.
    pub(crate) fn sign<S: Signer>(
        self,
        alloc: Global,
        signer: &mut S,
    ) -> Result<Parts, PresentError>
        ensures sent { IfOk result (IsSentBy self (S.good signer.old)) }
        ensures words { AreUnsignedWords self → IfOk result AreWords }
        ensures short { IfOk result IsShort }
        ensures refused { IfErr result (IsUnsent self (S.good signer.old)) }
        ensures failed { IsErrOf result PresentError.SignFailed
            → Rose (S.faults signer.old) (S.faults signer.new) }
        ensures kept { IsSameSigner S.good S.alg_name_of S.faults signer.old signer.new }
    {
        let token = match self.binding.sign(alloc, signer) {
            Ok(token) => token,
            Err(SignError::Memory) => return Err(PresentError::Memory),
            Err(SignError::Failed) => return Err(PresentError::SignFailed),
        };
        parts_with_binding(self.parts, token)
    }
}

// What is presented of these parts as they are, or once the key binding token
// that is asked for is signed.
fn unsigned_of(
    alloc: Global,
    unbound: Unbound,
    hash: HashAlg,
    binding: Option<AskedBinding<'_>>,
    alg: &str,
    now: u64,
) -> Result<Unsigned, PresentError>
    requires words { AreWords unbound.parts }
    requires shown { is_some binding ≡ true → is_some unbound.payload ≡ true }
    requires a_name { is_some binding ≡ true → IsNoAlgName alg.now → ⊥ }
    ensures unsigned { IfOk result
        (IsUnsignedOf (option_map binding_seen binding.entry) alg.now hash now unbound) }
    ensures words { IfOk result (λ unsigned. OnUnsigned unsigned AreWords AreUnsignedWords) }
    ensures short { IfOk result (λ unsigned. OnUnsigned unsigned IsShort (λ _. Unit)) }
    ensures long { IfErr result
        (IsLongAlone (option_map binding_seen binding.entry) unbound.parts) }
{
    let Unbound { parts, payload } = unbound;
    let Some(ask) = binding else {
        return match short_parts(parts) {
            Ok(parts) => Ok(Unsigned::Alone(parts)),
            Err(error) => Err(error),
        };
    };
    let Some(payload) = payload else {
        unreachable!()
    };
    let hashed = hashed_text(alloc, &parts)?;
    let (aud, nonce) = (ask.aud.as_str(), ask.nonce.as_str());
    let Some(alg) = AlgName::new(alg) else {
        unreachable!()
    };
    let binding = unsigned_binding(alloc, &alg, hash, hashed.as_str(), aud, nonce, now)?;
    Ok(Unsigned::ToSign(UnsignedPresentation {
        parts,
        binding,
        payload,
    }))
}

// What is presented of a token that has no key binding token, as it is or once
// it is signed with this algorithm.
pub(crate) fn unsigned_parts<F: Fn(&Path) -> bool>(
    alloc: Global,
    token: &TokenView<'_>,
    asked: &Asked<'_>,
    alg: &str,
    consent: &Consent<F>,
    now: u64,
    steps: &mut Steps,
) -> Result<Unsigned, PresentError>
    requires unbound { IsUnboundToken token.now }
    requires callable { F.IsAlwaysCallable consent.now }
    requires a_name { is_some asked.now.binding ≡ true → IsNoAlgName alg.now → ⊥ }
    ensures unsigned { IfOk result (IsUnsigned F.Fn consent.now token.now asked.now alg.now now) }
    ensures words { IfOk result (λ unsigned. OnUnsigned unsigned AreWords AreUnsignedWords) }
    ensures short { IfOk result (λ unsigned. OnUnsigned unsigned IsShort (λ _. Unit)) }
    ensures refused { IfErr result
        (IsNoAnswer F.Fn consent.now token.now asked.now alg.now none_good now) }
    ensures no_signer { IsErrOf result PresentError.SignFailed → ⊥ }

    // the issuer's signature
    ensures signed { OnOk result (IsSigned token.now.parts.signed token.now.outer asked.now.rules) }
    ensures early { IfErr result (IsSignedOrEarly token.now asked.now.rules) }

    // the look-ups
    ensures counted { IfOk result (λ _. IsCounted token.now steps.old steps.new) }
    ensures within { IsCountedWithin token.now steps.old steps.new }
    ensures uncounted { IsUncounted (TokenFails token.now asked.now.rules) steps.old steps.new }
{
    let (unbound, hash) = match unbound_parts(alloc, token, asked, consent, steps) {
        Ok(ready) => ready,
        Err(error) => return Err(error),
    };
    unsigned_of(alloc, unbound, hash, asked.binding, alg, now)
}

// Asks for the issuer's signature, where nothing was said of it and no
// condition before it fails; else the token is refused.
fn ask_or_refuse(
    alloc: Global,
    token: &TokenView<'_>,
    ask: &CallerAsk,
    answer: Option<SignatureAnswer>,
    error: PresentError,
) -> Result<Presentation, PresentError>
    requires unbound { token.now.parts.binding ≡ None }
    requires lowest { OnTokenFault error
        (IsLowest (TokenFails token.now (caller_rules ask.now.algs answer))) }
    requires early { IsSignedOrEarly token.now (caller_rules ask.now.algs answer) error }
    ensures asks { IfOk result (AsksOf token.now ask.now answer) }
    ensures asked { answer ≡ None → IsIssuerAsked ask.now token.now → AsksOrNoMemory result }
    ensures same { IfErr result (λ e. (e ≡ error) ⊎ (e ≡ PresentError.Memory)) }
{
    let PresentError::Token(fault) = error else {
        return Err(error);
    };
    if fault.number != 10 || answer.is_some() {
        return Err(error);
    }
    match question_on(alloc, token.signed(), token.outer()) {
        Ok(Some(question)) => Ok(Presentation::AsksIssuer(question)),
        Ok(None) => Err(error),
        Err(NoMemory) => Err(PresentError::Memory),
    }
}

// The name of the algorithm of the holder's signature. Where none is to be
// made, it is not looked at.
fn holder_alg(ask: &CallerAsk) -> &str
    ensures same { result.now ≡ alg_asked ask.now.binding }
    ensures a_name { is_some ask.now.binding ≡ true → IsNoAlgName result.now → ⊥ }
{
    match &ask.binding {
        Some(binding) => binding.alg.name().as_str(),
        None => "",
    }
}

// Presents a token that has no key binding token, but for the signature.
fn present_token<F: Fn(&Path) -> bool>(
    alloc: Global,
    token: &TokenView<'_>,
    ask: &CallerAsk,
    answer: Option<SignatureAnswer>,
    consent: &Consent<F>,
    now: u64,
    steps: &mut Steps,
) -> Result<Presentation, PresentError>
    requires unbound { IsUnboundToken token.now }
    requires callable { F.IsAlwaysCallable consent.now }
    ensures asks { IfOk result (λ p. OnAsksIssuer p (λ _. AsksOf token.now ask.now answer p)) }
    ensures asked { answer ≡ None → IsIssuerAsked ask.now token.now → AsksOrNoMemory result }
    ensures to_sign { IfOk result
        (λ p. OnToSign p
        (IsToSign F.Fn consent.now token.now (asked_by_caller ask.now answer)
        (alg_asked ask.now.binding) now)) }
    ensures presented { IfOk result
        (λ p. OnPresented p
        (IsAnswer F.Fn consent.now token.now (asked_by_caller ask.now answer)
        (alg_asked ask.now.binding) none_good now)) }
    ensures words { IfOk result (λ p. OnToSign p AreUnsignedWords × OnPresented p AreWords) }
    ensures short { IfOk result (λ p. OnPresented p IsShort) }
    ensures refused { IfErr result
        (IsNoAnswer F.Fn consent.now token.now (asked_by_caller ask.now answer)
        (alg_asked ask.now.binding) none_good now) }
    ensures no_signer { IsErrOf result PresentError.SignFailed → ⊥ }

    // the look-ups
    ensures counted { IfOk result (λ p. OnPicked p (IsCounted token.now steps.old steps.new)) }
    ensures none_yet { IfOk result (λ p. OnAsksIssuer p (λ _. steps.new ≡ steps.old)) }
    ensures within { IsCountedWithin token.now steps.old steps.new }
    ensures uncounted { IsUncounted (TokenFails token.now (caller_rules ask.now.algs answer))
        steps.old steps.new }
{
    let asked = Asked::by_caller(ask, answer);
    match unsigned_parts(alloc, token, &asked, holder_alg(ask), consent, now, steps) {
        Ok(Unsigned::Alone(parts)) => Ok(Presentation::Presented(parts)),
        Ok(Unsigned::ToSign(unsigned)) => Ok(Presentation::ToSign(unsigned)),
        Err(error) => ask_or_refuse(alloc, token, ask, answer, error),
    }
}

/// Presents a token as [`present`](crate::present) does, but without keys: the caller checks the
/// issuer's signature and makes the holder's, as where keys are kept in hardware, or are of
/// elliptic curves (RFC 7518 section 3.4, RFC 8037).
///
/// The caller calls with no answer, and again with what it found out where it is
/// asked for the issuer's signature. Each call judges the text anew and keeps
/// nothing. The caller answers for its word: it has checked the signature over the
/// bytes of the question and no others, with a key that serves the algorithm that
/// the header names, and that it trusts. What it says unasked is not looked at.
///
/// Where a key binding token is asked for, the caller signs it with the holder's key, which the
/// claim `cnf` of the payload tells, and [`UnsignedPresentation::signed`] puts the signature in. Of
/// the key only the name is compared here, where the ask has one.
pub fn present_unsigned<F: Fn(&Path) -> bool>(
    alloc: Global,
    text: &[u8],
    ask: &CallerAsk,
    answer: Option<SignatureAnswer>,
    consent: &Consent<F>,
    now: u64,
    steps: &mut Steps,
) -> Result<Presentation, PresentError>
    requires callable { F.IsAlwaysCallable consent.now }
    ensures asks_issuer { IfOk result (λ p. OnAsksIssuer p (AsksIssuer text.now ask.now answer)) }
    ensures asked { answer ≡ None → (token : SeenToken) → IsToken text.now token
        → IsIssuerAsked ask.now token → AsksOrNoMemory result }
    ensures to_sign { IfOk result
        (λ p. OnToSign p
        (IsToPresent F.Fn consent.now text.now (asked_by_caller ask.now answer)
        (alg_asked ask.now.binding) now)) }
    ensures presented { IfOk result
        (λ p. OnPresented p
        (IsPresented F.Fn consent.now text.now (asked_by_caller ask.now answer)
        (alg_asked ask.now.binding) none_good now)) }
    ensures words { IfOk result (λ p. OnToSign p AreUnsignedWords × OnPresented p AreWords) }
    ensures short { IfOk result (λ p. OnPresented p IsShort) }
    ensures refused { IfErr result
        (IsNotPresented F.Fn consent.now text.now (asked_by_caller ask.now answer)
        (alg_asked ask.now.binding) none_good now) }
    ensures no_signer { IsErrOf result PresentError.SignFailed → ⊥ }

    // the look-ups
    ensures counted { IfOk result (λ p. OnPicked p (IsReadCounted text.now steps.old steps.new)) }
    ensures none_yet { IfOk result (λ p. OnAsksIssuer p (λ _. steps.new ≡ steps.old)) }
    ensures within { IsReadWithin text.now steps.old steps.new }
    ensures uncounted { IsUncounted (PresentFails text.now (asked_by_caller ask.now answer))
        steps.old steps.new }
    ensures unopened { (token : SeenToken) → IsToken text.now token → token.parts.binding ≢ None
        → steps.new ≡ steps.old }
{
    let token = match read_unbound(alloc, text) {
        Ok(token) => token,
        Err(error) => return Err(error),
    };
    present_token(alloc, &token.view(), ask, answer, consent, now, steps)
}
