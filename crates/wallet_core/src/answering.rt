// The credential that answers a query.
ghost use Rattle.std.specs.Prelude.{◌≡◌, ◌≤◌, ◌<◌, ◌-◌, ◌^◌, None, Some, length, IfOk, IfSome, IfNone, IsErrOf};
ghost use Rattle.sd_outside.specs.Limits.{json_depth_max};
ghost use Rattle.claim_tree.specs.Tree.{depth};
ghost use Rattle.compact_form.specs.Compact.{AreWords};
ghost use Rattle.holder_core.specs.Asked.{held_rules};
ghost use Rattle.marked_tree.specs.Choice.{IsUnmixed};
ghost use Rattle.marked_tree.specs.Marked.{Marked as SeenMarked, strip};
ghost use Rattle.marked_tree.specs.View.{marked_of};
ghost use Rattle.selection_core.specs.AllowCalls.{IsDecided};
ghost use Rattle.verifier_core.specs.Check.{IsCountedWithin, IsUncounted};
ghost use Rattle.verifier_core.specs.Verdict.{TokenFails, IsChecked};
ghost use Rattle.wallet_core.specs.LookUps.{RoseWithinSum};
ghost use Rattle.wallet_core.specs.Meets.{asked_places as asked_of, Meets};
ghost use Rattle.wallet_core.specs.WalletCalls.{MayMeet};
ghost use Rattle.wallet_core.specs.Picked.{IsPicked, IsFewest, HasNoAnswer};
ghost use Rattle.wallet_core.specs.WalletSteps.{IsLeastSet, IsUnanswered, IsTold, IsToldOf, IsBetter, IsWithinBound};
ghost use Rattle.wallet_core.specs.declared.error.WalletError.TheVariants.{NoAnswer};

use crate::values::has_values;
use crate::{CredentialList, Query, WalletError};
use claim_tree::{Path, PathList, copy_paths};
use compact_form::Parts;
use digest_index::Steps;
use hmac_sign::KeySet;
use holder_core::{PresentError, check_held, parts_with_chosen};
use json_form::{TokenError, TokenText, TokenView};
use marked_tree::{ChosenSet, Marked};
use sd_outside::NoMemory;
use selection_core::{AllowError, ChooseError, Consent, allow, choose};
use std::alloc::Global;
use verifier_core::VerifyError;

/// A credential that is picked, by its position, counted from 0, and what is presented of it.
#[derive(Drop)]
pub struct Picked {
    pub index: usize,
    pub parts: Parts,
}

/// Of the credentials that may be used and answer the query, the one that needs the fewest
/// disclosures for it, and of those the first.
///
/// A credential may be used if it has no key binding token, and the conditions
/// 1 to 21, but 8, RFC 9901 section 7.3, do not fail. It answers the query if
/// it has each place, with the value that is asked for, and the rule allows the
/// place of each disclosure on the way. Each credential is judged once, and one
/// processed payload is held at a time. `steps` counts the look-ups of digests.
pub fn answer<F: Fn(&Path) -> bool>(
    alloc: Global,
    held: &CredentialList,
    query: &Query,
    consent: &Consent<F>,
    steps: &mut Steps,
) -> Result<Picked, WalletError>
    requires callable { F.IsAlwaysCallable consent.now }
    ensures picked { IfOk result (IsPicked (MayMeet F.Fn consent.now) held.now query.now) }
    ensures meets { IsDecided F.Fn consent.now
        → IfOk result (IsPicked (Meets F.Fn consent.now) held.now query.now) }
    ensures fewest { IfOk result (IsFewest F.Fn consent.now held.now query.now) }
    ensures words { IfOk result (λ choice. AreWords choice.parts) }
    ensures none { IsErrOf result NoAnswer → HasNoAnswer F.Fn consent.now held.now query.now }
    ensures within { RoseWithinSum query.now.keys held.now steps.old steps.new }
{
    let asked = asked_places(alloc, query)?;
    let mut best = None;
    for (index, text) in held.elements().iter().enumerate() {
        let sent = sent_parts(alloc, text.bytes(), query, &asked, consent, steps)?;
        best = better(best, index, sent);
    }
    match best {
        Some(choice) => Ok(choice),
        None => Err(WalletError::NoAnswer),
    }
}

// The places that are wanted, and those whose values are asked for.
fn asked_places(alloc: Global, query: &Query) -> Result<PathList, NoMemory>
    ensures { IfOk result (λ asked. asked ≡ asked_of query.now) }
{
    let mut asked = copy_paths(alloc, &query.want)?;
    for equal in query.equal.elements() {
        asked.push(equal.at.copy(alloc)?)?;
    }
    Ok(asked)
}

// What was best so far, or these parts where they have fewer disclosures.
fn better(best: Option<Picked>, index: usize, sent: Option<Parts>) -> Option<Picked>
    ensures better { IsBetter best index sent result }
    ensures words { IfSome best (λ choice. AreWords choice.parts) → IfSome sent AreWords
        → IfSome result (λ choice. AreWords choice.parts) }
{
    let Some(parts) = sent else {
        return best;
    };
    match best {
        Some(choice) if choice.parts.disclosures.len() <= parts.disclosures.len() => Some(choice),
        _ => Some(Picked { index, parts }),
    }
}

// What is presented of a text, where it may be used and answers the query.
fn sent_parts<F: Fn(&Path) -> bool>(
    alloc: Global,
    text: &[u8],
    query: &Query,
    asked: &PathList,
    consent: &Consent<F>,
    steps: &mut Steps,
) -> Result<Option<Parts>, NoMemory>
    requires callable { F.IsAlwaysCallable consent.now }
    requires asked { asked.now ≡ asked_of query.now }
    ensures told { IfOk result (IsTold F.Fn consent.now query.now text.now) }
    ensures words { IfOk result (λ sent. IfSome sent AreWords) }
    ensures within { IsWithinBound query.now.keys text.now steps.old steps.new }
{
    let token = match TokenText::read(alloc, text) {
        Ok(token) => token,
        Err(TokenError::Memory) => return Err(NoMemory),
        Err(TokenError::Fault(_)) => return Ok(None),
    };
    let view = token.view();
    if view.binding().is_some() {
        return Ok(None);
    }
    token_parts(alloc, &view, query, asked, consent, steps)
}

// The same of a token that has no key binding token.
fn token_parts<F: Fn(&Path) -> bool>(
    alloc: Global,
    token: &TokenView<'_>,
    query: &Query,
    asked: &PathList,
    consent: &Consent<F>,
    steps: &mut Steps,
) -> Result<Option<Parts>, NoMemory>
    requires few { length token.now.parts.disclosures < 2 ^ 32 - 1 }
    requires words { AreWords token.now.parts }
    requires callable { F.IsAlwaysCallable consent.now }
    requires asked { asked.now ≡ asked_of query.now }
    ensures told { IfOk result (IsToldOf F.Fn consent.now query.now token.now) }
    ensures words { IfOk result (λ sent. IfSome sent AreWords) }
    ensures within { IsCountedWithin token.now steps.old steps.new }
    ensures uncounted { IsUncounted (TokenFails token.now (held_rules query.now.keys)) steps.old
        steps.new }
{
    let Some(marked) = open_held(alloc, token, &query.keys, steps)? else {
        return Ok(None);
    };
    match chosen_marks(alloc, &marked, query, asked, consent)? {
        Some(chosen) => Ok(Some(parts_with_chosen(alloc, token, &chosen)?)),
        None => Ok(None),
    }
}

// The processed payload of a token that the conditions 5 to 21 accept, but 8.
fn open_held(
    alloc: Global,
    token: &TokenView<'_>,
    keys: &KeySet,
    steps: &mut Steps,
) -> Result<Option<Marked>, NoMemory>
    requires few { length token.now.parts.disclosures < 2 ^ 32 - 1 }
    ensures checked { IfOk result
        (λ opened. IfSome opened
        (λ marked. IsChecked token.now (held_rules keys.now) (marked_of marked))) }
    ensures none { IfOk result
        (λ opened. IfNone opened
        ((marked : SeenMarked) → IsChecked token.now (held_rules keys.now) marked → ⊥)) }
    ensures within { IsCountedWithin token.now steps.old steps.new }
    ensures uncounted { IsUncounted (TokenFails token.now (held_rules keys.now)) steps.old
        steps.new }
{
    let content = match check_held(alloc, token, keys) {
        Ok(content) => content,
        Err(PresentError::Memory) => return Err(NoMemory),
        Err(_) => return Ok(None),
    };
    match content.open(alloc, steps) {
        Ok(marked) => Ok(Some(marked)),
        Err(VerifyError::Memory) => Err(NoMemory),
        Err(VerifyError::Fault(_)) => Ok(None),
    }
}

// The marks on the way to each place of the query, where each is there with its
// value, and the rule allows them.
fn chosen_marks<F: Fn(&Path) -> bool>(
    alloc: Global,
    marked: &Marked,
    query: &Query,
    asked: &PathList,
    consent: &Consent<F>,
) -> Result<Option<ChosenSet>, NoMemory>
    requires callable { F.IsAlwaysCallable consent.now }
    requires asked { asked.now ≡ asked_of query.now }
    requires depth { depth (strip (marked_of marked.now)) ≤ json_depth_max }
    requires unmixed { IsUnmixed (marked_of marked.now) }
    ensures least { IfOk result
        (λ chosen. IfSome chosen (IsLeastSet F.Fn consent.now (marked_of marked.now) query.now)) }
    ensures none { IfOk result
        (λ chosen. IfNone chosen (IsUnanswered F.Fn consent.now (marked_of marked.now) query.now)) }
{
    let chosen = match choose(alloc, marked, asked) {
        Ok(chosen) => chosen,
        Err(ChooseError::Memory) => return Err(NoMemory),
        Err(ChooseError::NoSuchPlace(_)) => return Ok(None),
    };
    if !has_values(marked, &query.equal) {
        return Ok(None);
    }
    match allow(alloc, consent, marked, &chosen) {
        Ok(()) => Ok(Some(chosen)),
        Err(AllowError::Memory) => Err(NoMemory),
        Err(AllowError::Refused(_)) => Ok(None),
    }
}
