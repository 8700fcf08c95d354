// A credential from its issuer through its holder to a verifier.
ghost use Rattle.std.specs.Prelude.{◌≡◌, ◌≢◌, ◌≤◌, IfOk, IfErr, codes};
ghost use Rattle.sd_outside.specs.Limits.{json_depth_max};
ghost use Rattle.claim_tree.specs.Tree.{depth};
ghost use Rattle.claim_tree.specs.View.{tree_of};
ghost use Rattle.refusals.specs.Lowest.{IsLowest, NoneApplies};
ghost use Rattle.refusals.specs.declared.fault.Fault.{Fault};
ghost use Rattle.hmac_sign.specs.Algs.{alg_text};
ghost use Rattle.hmac_sign.specs.Hmac.{hs256_key, IsGood};
ghost use Rattle.verifier_core.specs.Verdict.{Fails};
ghost use Rattle.verifier_core.specs.Verdicts.{IsAcceptedAs};
ghost use Rattle.holder_core.specs.Asked.{asked_by};
ghost use Rattle.holder_core.specs.Present.{IsNotPresented};
ghost use Rattle.holder_core.specs.declared.errors.PresentError.{PresentError as Unpresented};
ghost use Rattle.holder_core.specs.declared.errors.PresentError.TheVariants.{Memory, SignFailed};
ghost use Rattle.issuer_core.specs.Issue.{AppliesToIssue};
ghost use Rattle.issuer_core.specs.IssueCalls.{IsNotIssued};
ghost use Rattle.issuer_core.specs.Order.{order_of};
ghost use Rattle.issuer_core.specs.Seed.{maker_of};
ghost use Rattle.issuer_core.specs.declared.errors.IssueError.{IssueError};
ghost use Rattle.sdjwt_cli.specs.PresentedValues.{AreShort};
ghost use Rattle.sdjwt_cli.specs.Suits.{Suits, claims_for};
ghost use Rattle.sdjwt_lib.specs.EndToEnd.{IsIssuedText, IsPresentedText};

use claim_tree::{Path, Tree};
use compact_form::print;
use digest_index::Steps;
use hmac_sign::{Hs256Key, HsKey};
use holder_core::{Ask, PresentError, present};
use issuer_core::{IssueError, Order, issue_owned};
use sd_outside::{NoMemory, TextBox};
use sdjwt_cli::laws::presented_values;
use selection_core::Consent;
use std::alloc::Global;
use verifier_core::{Policy, VerifyError, verify_payload};

/// An issuer: the order, the seed of the salts, and the signing key.
#[derive(Drop)]
pub struct Issuer {
    pub order: Order,
    pub seed: [u8; 32],
    pub key: HsKey,
}

/// A holder: the request for a presentation, and the rule for which places may be shown.
#[derive(Drop)]
pub struct Holder<F: Fn(&Path) -> bool> {
    pub ask: Ask,
    pub consent: Consent<F>,
}

// The compact form of the issued token.
fn issued(alloc: Global, issuer: Issuer) -> Result<TextBox, IssueError>
    requires depth { depth (tree_of issuer.order.payload) ≤ json_depth_max }
    ensures issued { IfOk result (IsIssuedText issuer.seed (order_of issuer.order) issuer.key) }
    ensures refused { IfErr result
        (IsNotIssued (maker_of issuer.seed) (order_of issuer.order) (alg_text issuer.key.alg)
        (IsGood issuer.key)) }
    ensures signed { IfErr result (λ error. error ≢ IssueError.SignFailed) }
{
    let Issuer {
        order,
        seed,
        mut key,
    } = issuer;
    match issue_owned(alloc, order, &seed, &mut key) {
        Ok(parts) => Ok(print(alloc, &parts)?),
        Err(error) => Err(error),
    }
}

// The compact form of the presentation of a token, if no refusal applies to the request.
fn presented<F: Fn(&Path) -> bool>(
    alloc: Global,
    token: &str,
    holder: &Holder<F>,
    mut key: Hs256Key,
    now: u64,
) -> Result<TextBox, NoMemory>
    requires callable { F.IsAlwaysCallable holder.now.consent }
    requires unrefused { (error : Unpresented) → error ≢ Memory → error ≢ SignFailed
        → IsNotPresented F.Fn holder.now.consent token.now (asked_by holder.now.ask) (codes "HS256")
        (IsGood (hs256_key key)) now error → ⊥ }
    ensures { IfOk result
        (IsPresentedText F.Fn holder.now.consent token.now holder.now.ask (IsGood (hs256_key key))
        now) }
{
    let steps = &mut Steps::new();
    let Holder { ask, consent } = holder;
    match present(alloc, token.as_bytes(), ask, consent, &mut key, now, steps) {
        Ok(parts) => print(alloc, &parts),
        Err(PresentError::Memory) => Err(NoMemory),
        Err(_) => unreachable!(),
    }
}

// The processed payload of a presentation that fails no condition.
fn verified(alloc: Global, presentation: &str, policy: &Policy, now: u64) -> Result<Tree, NoMemory>
    requires passes { (fault : Fault) → IsLowest (Fails presentation.now policy.now now) fault → ⊥ }
    ensures { IfOk result
        (λ payload. IsAcceptedAs presentation.now policy.now now (tree_of payload)) }
{
    let text = presentation.as_bytes();
    match verify_payload(alloc, text, policy, now, &mut Steps::new()) {
        Ok(payload) => Ok(payload),
        Err(VerifyError::Memory) => Err(NoMemory),
        Err(VerifyError::Fault(_)) => unreachable!(),
    }
}

/// Issues a token for an order, presents the requested claims, verifies the presentation, and
/// returns the processed payload. Times are in seconds since 1970.
///
/// The policy must suit the request (`suits`). On success the result is the order's payload without
/// the hidden places that lead to no requested place (`shown`). Only the issuer can refuse, for a
/// cause that `refused` names; an order to which a refusal applies never succeeds (`issued`). The
/// call also fails if memory runs out.
pub fn issue_present_verify<F: Fn(&Path) -> bool>(
    alloc: Global,
    issuer: Issuer,
    holder: &Holder<F>,
    holder_key: Hs256Key,
    presented_at: u64,
    policy: &Policy,
    verified_at: u64,
) -> Result<Tree, IssueError>
    requires depth { depth (tree_of issuer.order.payload) ≤ json_depth_max }
    requires callable { F.IsAlwaysCallable holder.now.consent }
    requires short { AreShort holder.now.ask.binding }
    requires suits { Suits F.Fn holder.now.consent (order_of issuer.order) issuer.key holder.now.ask
        holder_key policy.now presented_at verified_at }
    ensures shown { IfOk result
        (λ payload. tree_of payload ≡ claims_for (order_of issuer.order) holder.now.ask.want) }
    ensures issued { IfOk result
        (λ _. NoneApplies
        (AppliesToIssue (maker_of issuer.seed) (order_of issuer.order) (alg_text issuer.key.alg)
        (IsGood issuer.key))) }
    ensures refused { IfErr result
        (IsNotIssued (maker_of issuer.seed) (order_of issuer.order) (alg_text issuer.key.alg)
        (IsGood issuer.key)) }
    ensures signed { IfErr result (λ error. error ≢ IssueError.SignFailed) }
{
    presented_values::<F>();
    let token = issued(alloc, issuer)?;
    let presentation = presented(alloc, token.as_str(), holder, holder_key, presented_at)?;
    Ok(verified(alloc, presentation.as_str(), policy, verified_at)?)
}
