// The call that presents.
ghost use Rattle.std.specs.Prelude.{◌≡◌, ◌≢◌, ◌≤◌, ◌<◌, ◌-◌, ◌^◌, None, length, option_map, IfOk, OnOk, IfErr, IsErrOf};
ghost use Rattle.sd_outside.specs.Causes.{Rose};
ghost use Rattle.claim_tree.specs.Tree.{depth as depth_of};
ghost use Rattle.claim_tree.specs.View.{tree_of};
ghost use Rattle.compact_form.specs.Compact.{AreWords, compact as compact_text};
ghost use Rattle.refusals.specs.Lowest.{IsLowest};
ghost use Rattle.sd_outside.specs.Limits.{compact_max, json_depth_max};
ghost use Rattle.hmac_sign.specs.Agreement.{IsSameSigner};
ghost use Rattle.json_form.specs.Token.{IsToken};
ghost use Rattle.json_form.specs.declared.token.Token.{Token as SeenToken};
ghost use Rattle.marked_tree.specs.Choice.{IsUnmixed};
ghost use Rattle.marked_tree.specs.Marked.{strip, prune as pruned_by};
ghost use Rattle.marked_tree.specs.Numbers.{has};
ghost use Rattle.marked_tree.specs.View.{marked_of};
ghost use Rattle.verifier_core.specs.Verdict.{TokenFails, HasHash, asked as asked_rules};
ghost use Rattle.verifier_core.specs.Check.{OnFault, IsUnopened, IsContent, IsSigned, IsCounted, IsCountedWithin, IsReadWithin, IsUncounted};
ghost use Rattle.holder_core.specs.Asked.{held_rules, asked_by};
ghost use Rattle.holder_core.specs.AskedSeen.{binding_seen};
ghost use Rattle.holder_core.specs.Present.{picked, IsHeld, IsPresented, IsNotPresented, NamesKey};
ghost use Rattle.holder_core.specs.PresentCalls.{IsUnchecked, OnTokenFault, PresentFails};
ghost use Rattle.holder_core.specs.PresentSteps.{IsUnread, IsUnboundToken, IsUnchosen, IsChosen, IsOtherKey, IsShown, IsReady, IsUnready, IsMadeReady, IsUncheckedOrUnready, IsAnswered, IsShort, IsSignedOrEarly};
ghost use Rattle.holder_core.specs.declared.errors.PresentError.{PresentError};

use crate::asked::{Asked, AskedBinding};
use crate::signing::{Unsigned, unsigned_parts};
use crate::whole::wanted_parts;
use crate::{Ask, PresentError};
use claim_tree::{Path, PathList, Tree};
use compact_form::Parts;
use digest_index::Steps;
use disclosure::{DisclosureReader, HashAlg};
use hmac_sign::{KeySet, Signer, alg_names};
use json_form::{Disclosures, TokenError, TokenText, TokenView};
use key_binding::holder_kid;
use marked_tree::{ChosenSet, Marked, into_tree, prune};
use sd_outside::{NoMemory, TextBox, TextList};
use selection_core::{AllowError, ChooseError, Consent, allow, choose};
use std::alloc::Global;
use verifier_core::{Content, Rules, VerifyError};

/// Presents a token as it comes from a file, RFC 9901 section 7.2: the issuer's JWT, the
/// disclosures that lead to the wanted places in their order, and a key binding token of a moment
/// in seconds since 1970 where one is asked for.
///
/// The token is checked by the conditions 5 to 21, with each algorithm allowed that is known, and
/// whatever its type is. The rule is asked for the place of each disclosure that is chosen. The
/// signer is asked once, when all else is there, and not at all where no key binding token is asked
/// for. `steps` counts the look-ups of digests.
pub fn present<S: Signer, F: Fn(&Path) -> bool>(
    alloc: Global,
    text: &[u8],
    ask: &Ask,
    consent: &Consent<F>,
    signer: &mut S,
    now: u64,
    steps: &mut Steps,
) -> Result<Parts, PresentError>
    requires callable { F.IsAlwaysCallable consent.now }
    ensures presented { IfOk result
        (IsPresented F.Fn consent.now text.now (asked_by ask.now) (S.alg_name_of signer.old)
        (S.good signer.old) now) }
    ensures words { IfOk result AreWords }
    ensures short { IfOk result (λ answer. length (compact_text answer) ≤ compact_max) }
    ensures refused { IfErr result
        (IsNotPresented F.Fn consent.now text.now (asked_by ask.now) (S.alg_name_of signer.old)
        (S.good signer.old) now) }
    ensures failed { IsErrOf result PresentError.SignFailed
        → Rose (S.faults signer.old) (S.faults signer.new) }

    // what stays
    ensures unasked { ask.now.binding ≡ None → signer.new ≡ signer.old }
    ensures kept { IsSameSigner S.good S.alg_name_of S.faults signer.old signer.new }

    // the look-ups
    ensures counted { IfOk result
        (λ _. (token : SeenToken) × IsToken text.now token × IsCounted token steps.old steps.new) }
    ensures within { IsReadWithin text.now steps.old steps.new }
    ensures uncounted { IsUncounted (PresentFails text.now (asked_by ask.now)) steps.old steps.new }
    ensures unopened { (token : SeenToken) → IsToken text.now token → token.parts.binding ≢ None
        → steps.new ≡ steps.old }
{
    let token = match read_unbound(alloc, text) {
        Ok(token) => token,
        Err(error) => return Err(error),
    };
    present_token(alloc, &token.view(), ask, consent, signer, now, steps)
}

// The token of a text, which has no key binding token.
pub(crate) fn read_unbound<'a>(alloc: Global, text: &'a [u8]) -> Result<TokenText<'a>, PresentError>
    ensures token { IfOk result (IsToken text.now) }
    ensures unbound { IfOk result IsUnboundToken }
    ensures refused { IfErr result (IsUnread text.now) }
{
    let token = match TokenText::read(alloc, text) {
        Ok(token) => token,
        Err(TokenError::Memory) => return Err(PresentError::Memory),
        Err(TokenError::Fault(fault)) => return Err(PresentError::Token(fault)),
    };
    if token.view().binding().is_some() {
        return Err(PresentError::HasBinding);
    }
    Ok(token)
}

// Presents a token that has no key binding token.
fn present_token<S: Signer, F: Fn(&Path) -> bool>(
    alloc: Global,
    token: &TokenView<'_>,
    ask: &Ask,
    consent: &Consent<F>,
    signer: &mut S,
    now: u64,
    steps: &mut Steps,
) -> Result<Parts, PresentError>
    requires unbound { IsUnboundToken token.now }
    requires callable { F.IsAlwaysCallable consent.now }
    ensures answer { IsAnswered F.Fn consent.now token.now (asked_by ask.now)
        (S.alg_name_of signer.old) (S.good signer.old) now result }
    ensures words { IfOk result AreWords }
    ensures short { IfOk result IsShort }
    ensures failed { IsErrOf result PresentError.SignFailed
        → Rose (S.faults signer.old) (S.faults signer.new) }
    ensures unasked { ask.now.binding ≡ None → signer.new ≡ signer.old }
    ensures kept { IsSameSigner S.good S.alg_name_of S.faults signer.old signer.new }
    ensures counted { IfOk result (λ _. IsCounted token.now steps.old steps.new) }
    ensures within { IsCountedWithin token.now steps.old steps.new }
    ensures uncounted { IsUncounted (TokenFails token.now (held_rules ask.now.keys)) steps.old
        steps.new }
{
    let algs = match alg_names(alloc) {
        Ok(algs) => algs,
        Err(NoMemory) => return Err(PresentError::Memory),
    };
    let asked = Asked::by_keys(ask, &algs);
    let alg = signer.alg_name();
    match unsigned_parts(alloc, token, &asked, alg.as_str(), consent, now, steps) {
        Ok(Unsigned::Alone(parts)) => Ok(parts),
        Ok(Unsigned::ToSign(unsigned)) => unsigned.sign(alloc, signer),
        Err(error) => Err(error),
    }
}

// The token with the disclosures that are asked for and no key binding token,
// and what they show, where one is asked for.
#[derive(Drop)]
pub(crate) struct Unbound {
    pub(crate) parts: Parts,
    pub(crate) payload: Option<Tree>,
}

// The token with the disclosures that are asked for, if nothing is refused, and
// the algorithm of its digests.
#[tactic(auto, using(crate::proofs::Steps::once_read))]
pub(crate) fn unbound_parts<F: Fn(&Path) -> bool>(
    alloc: Global,
    token: &TokenView<'_>,
    asked: &Asked<'_>,
    consent: &Consent<F>,
    steps: &mut Steps,
) -> Result<(Unbound, HashAlg), PresentError>
    requires unbound { IsUnboundToken token.now }
    requires callable { F.IsAlwaysCallable consent.now }
    ensures ready { IfOk result (λ r. IsMadeReady F.Fn consent.now token.now asked.now r.0) }
    ensures words { IfOk result (λ r. AreWords r.0.parts) }
    ensures none { IfOk result (λ r. r.0.parts.binding ≡ None) }
    ensures hash { IfOk result (λ r. HasHash token.now r.1) }
    ensures refused { IfErr result (IsUncheckedOrUnready F.Fn consent.now token.now asked.now) }
    ensures signed { OnOk result (IsSigned token.now.parts.signed token.now.outer asked.now.rules) }
    ensures early { IfErr result (IsSignedOrEarly token.now asked.now.rules) }
    ensures counted { IfOk result (λ _. IsCounted token.now steps.old steps.new) }
    ensures within { IsCountedWithin token.now steps.old steps.new }
    ensures uncounted { IsUncounted (TokenFails token.now asked.now.rules) steps.old steps.new }
{
    let content = read_asked(alloc, token, asked)?;
    let hash = content.hash();
    if token.count() == 0 {
        let payload = content.open_payload(alloc, steps)?;
        let unbound = wanted_parts(alloc, token, payload, asked)?;
        return Ok((unbound, hash));
    }
    let marked = content.open(alloc, steps)?;
    match allowed_parts(alloc, token, &marked, asked, consent) {
        Ok(unbound) => Ok((unbound, hash)),
        Err(error) => Err(error),
    }
}

// The conditions 5 to 13 of a token of which this is asked.
fn read_asked(
    alloc: Global,
    token: &TokenView<'_>,
    asked: &Asked<'_>,
) -> Result<Content, PresentError>
    requires few { length token.now.parts.disclosures < 2 ^ 32 - 1 }
    ensures content { IfOk result (IsContent token.now asked.now.rules) }
    ensures refused { IfErr result (IsUnchecked token.now asked.now.rules) }
    ensures unopened { IfErr result (λ e. OnTokenFault e IsUnopened) }
    ensures signed { OnOk result (IsSigned token.now.parts.signed token.now.outer asked.now.rules) }
    ensures early { IfErr result (IsSignedOrEarly token.now asked.now.rules) }
{
    let read = Content::read(
        alloc,
        &mut DisclosureReader::new(alloc),
        token,
        &asked.rules,
    );
    match read {
        Ok(content) => Ok(content),
        Err(error) => Err(PresentError::from(error)),
    }
}

// The token with the disclosures that are asked for, if nothing is refused.
fn allowed_parts<F: Fn(&Path) -> bool>(
    alloc: Global,
    token: &TokenView<'_>,
    marked: &Marked,
    asked: &Asked<'_>,
    consent: &Consent<F>,
) -> Result<Unbound, PresentError>
    requires few { length token.now.parts.disclosures < 2 ^ 32 - 1 }
    requires words { AreWords token.now.parts }
    requires held { IsHeld token.now asked.now (marked_of marked.now) }
    requires callable { F.IsAlwaysCallable consent.now }
    ensures ready { IfOk result
        (IsReady F.Fn consent.now token.now asked.now (marked_of marked.now)) }
    ensures words { IfOk result (λ unbound. AreWords unbound.parts) }
    ensures refused { IfErr result (IsUnready F.Fn consent.now token.now asked.now) }
{
    let chosen = match choose_allowed(alloc, marked, asked.want, consent) {
        Ok(chosen) => chosen,
        Err(error) => return Err(error),
    };
    let payload = match shown_payload(alloc, asked.binding, marked, &chosen) {
        Ok(payload) => payload,
        Err(error) => return Err(error),
    };
    let parts = parts_with_chosen(alloc, token, &chosen)?;
    Ok(Unbound { parts, payload })
}

// The conditions 5 to 13, but 8, where the token may be signed with these algorithms.
fn read_signed<'a>(
    alloc: Global,
    token: &TokenView<'_>,
    keys: &'a KeySet,
    algs: &'a TextList,
) -> Result<Content, VerifyError>
    requires few { length token.now.parts.disclosures < 2 ^ 32 - 1 }
    ensures content { IfOk result (IsContent token.now (asked_rules keys.now algs.now None)) }
    ensures refused { IfErr result
        (λ e. OnFault e (IsLowest (TokenFails token.now (asked_rules keys.now algs.now None)))) }
    ensures unopened { IfErr result (λ e. OnFault e IsUnopened) }
{
    let mut reader = DisclosureReader::new(alloc);
    Content::read(alloc, &mut reader, token, &Rules::of_keys(keys, algs, None))
}

/// Judges a token that is held by the conditions 5 to 13, but 8, RFC 9901
/// section 7.3: it may be signed by one of the keys with any algorithm that is
/// known, whatever its type is. The first condition that fails is answered.
pub fn check_held(
    alloc: Global,
    token: &TokenView<'_>,
    keys: &KeySet,
) -> Result<Content, PresentError>
    requires few { length token.now.parts.disclosures < 2 ^ 32 - 1 }
    ensures content { IfOk result (IsContent token.now (held_rules keys.now)) }
    ensures refused { IfErr result (IsUnchecked token.now (held_rules keys.now)) }
    ensures unopened { IfErr result (λ e. OnTokenFault e IsUnopened) }
{
    let names = alg_names(alloc)?;
    Ok(read_signed(alloc, token, keys, &names)?)
}

// The disclosures that lead to the wanted places, if each place is there and
// the rule allows all that is chosen.
fn choose_allowed<F: Fn(&Path) -> bool>(
    alloc: Global,
    marked: &Marked,
    want: &PathList,
    consent: &Consent<F>,
) -> Result<ChosenSet, PresentError>
    requires callable { F.IsAlwaysCallable consent.now }
    requires depth { depth_of (strip (marked_of marked.now)) ≤ json_depth_max }
    requires unmixed { IsUnmixed (marked_of marked.now) }
    ensures chosen { IfOk result (IsChosen F.Fn consent.now (marked_of marked.now) want.now) }
    ensures refused { IfErr result (IsUnchosen F.Fn consent.now (marked_of marked.now) want.now) }
{
    let chosen = match choose(alloc, marked, want) {
        Ok(chosen) => chosen,
        Err(ChooseError::Memory) => return Err(PresentError::Memory),
        Err(ChooseError::NoSuchPlace(k)) => return Err(PresentError::NoSuchPlace(k)),
    };
    match allow(alloc, consent, marked, &chosen) {
        Ok(()) => Ok(chosen),
        Err(AllowError::Memory) => Err(PresentError::Memory),
        Err(AllowError::Refused(mark)) => Err(PresentError::ConsentRefused(mark)),
    }
}

// What is shown, where a key binding token is asked for, if it names the key of the ask.
fn shown_payload(
    alloc: Global,
    binding: Option<AskedBinding<'_>>,
    marked: &Marked,
    chosen: &ChosenSet,
) -> Result<Option<Tree>, PresentError>
    requires depth { depth_of (strip (marked_of marked.now)) ≤ json_depth_max }
    ensures named { OnOk result
        (NamesKey (option_map binding_seen binding.entry)
        (strip (pruned_by (marked_of marked.now) (has chosen.now)))) }
    ensures shown { IfOk result
        (IsShown (option_map binding_seen binding.entry)
        (strip (pruned_by (marked_of marked.now) (has chosen.now)))) }
    ensures refused { IfErr result
        (IsOtherKey (option_map binding_seen binding.entry)
        (strip (pruned_by (marked_of marked.now) (has chosen.now)))) }
{
    if binding.is_none() {
        return Ok(None);
    }
    let pruned = prune(alloc, marked, chosen)?;
    let payload = into_tree(alloc, pruned)?;
    match check_named(binding, &payload) {
        Ok(()) => Ok(Some(payload)),
        Err(error) => Err(error),
    }
}

// Whether the payload names the key of the ask, where a key binding token is asked for.
pub(crate) fn check_named(
    binding: Option<AskedBinding<'_>>,
    payload: &Tree,
) -> Result<(), PresentError>
    ensures named { OnOk result
        (NamesKey (option_map binding_seen binding.entry) (tree_of payload.now)) }
    ensures refused { IfErr result
        (IsOtherKey (option_map binding_seen binding.entry) (tree_of payload.now)) }
{
    let Some(ask) = binding else {
        return Ok(());
    };
    let Some(kid) = ask.kid else {
        return Ok(());
    };
    let Some(named) = holder_kid(payload) else {
        return Err(PresentError::BindingKeyDiffers);
    };
    if named != kid.as_str() {
        return Err(PresentError::BindingKeyDiffers);
    }
    Ok(())
}

/// The token of the issuer with the chosen disclosures alone, in their order,
/// and no key binding token.
pub fn parts_with_chosen(
    alloc: Global,
    token: &TokenView<'_>,
    chosen: &ChosenSet,
) -> Result<Parts, NoMemory>
    requires few { length token.now.parts.disclosures < 2 ^ 32 - 1 }
    ensures signed { IfOk result (λ parts. parts.signed ≡ token.now.parts.signed) }
    ensures disclosures { IfOk result
        (λ parts. parts.disclosures ≡ picked (has chosen.now) token.now.parts.disclosures) }
    ensures unbound { IfOk result (λ parts. parts.binding ≡ None) }
    ensures words { AreWords token.now.parts → IfOk result AreWords }
{
    let signed = token.signed().to_parts(alloc)?;
    let disclosures = pick(alloc, token.disclosures(), chosen)?;
    Ok(Parts {
        signed,
        disclosures,
        binding: None,
    })
}

// The chosen disclosures, in their order.
fn pick(
    alloc: Global,
    disclosures: Disclosures<'_>,
    chosen: &ChosenSet,
) -> Result<TextList, NoMemory>
    requires few { length disclosures < 2 ^ 32 - 1 }
    ensures { IfOk result (λ texts. texts ≡ picked (has chosen.now) disclosures.entry) }
{
    let marks = chosen.marks();
    let mut texts = TextList::new(alloc);
    let mut next = 0;
    let mut number = 0u32;
    for text in disclosures {
        if next < marks.len() && marks[next] == number {
            texts.push(TextBox::make(alloc, text)?)?;
            next += 1;
        }
        number += 1;
    }
    Ok(texts)
}
