// The call that audits.
ghost use Rattle.std.specs.Prelude.{◌≡◌, ◌≤◌, ℕ, List, length, OnOk, IfOk, IfErr};
ghost use Rattle.sd_outside.specs.Limits.{count_max, json_depth_max};
ghost use Rattle.claim_tree.specs.Tree.{Tree as SeenTree, depth as depth_of};
ghost use Rattle.claim_tree.specs.View.{tree_of};
ghost use Rattle.refusals.specs.Lowest.{NoneApplies};
ghost use Rattle.hmac_sign.specs.Algs.{alg_text};
ghost use Rattle.digest_sites.specs.Given.{Given as SeenGiven};
ghost use Rattle.marked_tree.specs.Paths.{Path, is_among};
ghost use Rattle.rebuild_core.specs.Answer.{IsPayload, ValuesShallow};
ghost use Rattle.rebuild_core.specs.LookUps.{look_ups, counted, RoseWithin};
ghost use Rattle.rebuild_core.specs.Payload.{without_alg as without_alg_of};
ghost use Rattle.rebuild_core.specs.Soundness.{IsSound};
ghost use Rattle.issuer_core.specs.JudgeCalls.{IsOrderRefused};
ghost use Rattle.issuer_core.specs.Order.{Order as SeenOrder, order_of};
ghost use Rattle.issuer_core.specs.OrderRefusals.{AppliesToOrder};
ghost use Rattle.audit_core.specs.declared.errors.AuditError.{AuditError as SeenError};
ghost use Rattle.audit_core.specs.Asked.{IsAskedFor};
ghost use Rattle.audit_core.specs.Audited.{IsAudited, IsAuditedFor, IsSignedFor, IsWrittenFor, ShowsClaims, HasDigests, HasDecoys};
ghost use Rattle.audit_core.specs.Audit.{PassesAudit, FailsAudit, DiffersIn, ContentDiffers};
ghost use Rattle.audit_core.specs.AuditCalls.{IsAuditRefused, IsAuditCounted, IsAuditedWithin, IsAuditUnopened, IsBeforeOpening, IsSoundCounted, FromPart};
ghost use Rattle.audit_core.specs.AuditSteps.{IsTokenCounted, IsTokenSoundCounted, IsTokenWithin, IsWrittenWith, OnOrderRefused, OnPart};
ghost use Rattle.audit_core.specs.Found.{AreCounted};

use crate::AuditError;
use crate::asked::{Asked, asked_of};
use crate::claims::shows;
use crate::counts::are_so_many;
use crate::found::{are_digests, standings_of};
use crate::part::{AuditPart, differs};
use crate::places::others_of;
use crate::signed::is_signed_for;
use crate::sorted::has_sorted_digests;
use crate::standing::are_alike;
use crate::written::{Written, bare, read_written};
use claim_tree::PathList;
use digest_index::Steps;
use hmac_sign::{Alg, AlgName, Checker};
use issuer_core::{IssueError, Order, judged_places, order_refusal};
use json_form::{TokenError, TokenText, TokenView};
use sd_outside::TextBox;
use std::alloc::Global;

// Refusal 80: the order itself is refused. Else the places that it hides, each once.
fn judge_order(alloc: Global, order: &Order) -> Result<PathList, AuditError>
    requires { depth_of (tree_of order.now.payload) ≤ json_depth_max }
    ensures same { IfOk result
        (λ places. (path : Path) → is_among places path ≡ is_among order.now.hide path) }
    ensures few { IfOk result (λ places. length places ≤ count_max) }
    ensures passes { IfOk result (λ _. NoneApplies (AppliesToOrder (order_of order.now))) }
    ensures refused { IfErr result (λ e. OnOrderRefused e (order_of order.now)) }
{
    match judged_places(alloc, order) {
        Ok(places) => Ok(places),
        Err(error) => Err(order_error(&error)),
    }
}

fn order_error(error: &IssueError) -> AuditError
    requires { (o : SeenOrder) × IsOrderRefused o error.now }
    ensures { (o : SeenOrder) → IsOrderRefused o error.now → OnOrderRefused result o }
{
    match order_refusal(error) {
        Some(refusal) => AuditError::Order(refusal.number()),
        None => AuditError::Memory,
    }
}

// The digests of no disclosure: what part 4 says of them, and part 5. They are
// counted, so an order without decoys has none. A place whose path is longer
// than `longest` ends it as want of memory does.
fn judge_others(
    alloc: Global,
    asked: &Asked,
    content: &Written,
    longest: usize,
) -> Result<(), AuditError>
    requires { length content.now.given ≡ asked.now.hidden }
    ensures hold { OnOk result
        ((o : SeenOrder) → IsAskedFor o asked.now
        → AreCounted o (tree_of content.now.body) content.now.given
        → HasDigests o (tree_of content.now.body) content.now.given
        × HasDecoys o (tree_of content.now.body) content.now.given) }
    ensures differs { IfErr result
        (λ e. (o : SeenOrder) → IsAskedFor o asked.now
        → AreCounted o (tree_of content.now.body) content.now.given
        → OnPart e (ContentDiffers o (tree_of content.now.body) content.now.given)) }
{
    if asked.decoys == 0 {
        return Ok(());
    }
    let Written { body, given, seed } = content;
    let others = others_of(alloc, &asked.claims, body, given, *seed, longest)?;
    if !are_digests(asked.hash, others.elements()) {
        return Err(differs(AuditPart::Digests));
    }
    let standings = standings_of(alloc, others.elements())?;
    if !are_alike(standings, asked.standings.as_slice())? {
        return Err(differs(AuditPart::Decoys));
    }
    Ok(())
}

// The parts 4 to 6, of a payload without its own `_sd_alg`.
fn judge_digests(
    alloc: Global,
    asked: &Asked,
    content: &Written,
    longest: usize,
) -> Result<(), AuditError>
    requires count { length content.now.given ≡ asked.now.hidden }
    requires few { length content.now.given ≤ count_max }
    requires decoys { asked.now.decoys ≤ count_max }
    ensures audited { OnOk result
        ((o : SeenOrder) → IsAskedFor o asked.now
        → ShowsClaims o (tree_of content.now.body) content.now.given
        → IsAuditedFor o (tree_of content.now.body) content.now.given) }
    ensures differs { IfErr result
        (λ e. (o : SeenOrder) → IsAskedFor o asked.now
        → ShowsClaims o (tree_of content.now.body) content.now.given
        → OnPart e (ContentDiffers o (tree_of content.now.body) content.now.given)) }
{
    let Written { body, given, .. } = content;
    if !are_so_many(body, given, given.len() + asked.decoys) {
        return Err(differs(AuditPart::Digests));
    }
    if let Err(error) = judge_others(alloc, asked, content, longest) {
        return Err(error);
    }
    if !has_sorted_digests(body, given) {
        return Err(differs(AuditPart::SdOrder));
    }
    Ok(())
}

// The same, of what is written, which is read again: the claims are known by
// now, and so are all names.
fn judge_again(alloc: Global, asked: &Asked, token: &TokenView<'_>) -> Result<(), AuditError>
    requires few { asked.now.hidden ≤ count_max }
    requires decoys { asked.now.decoys ≤ count_max }
    ensures audited { OnOk result
        ((o : SeenOrder) (body : SeenTree) (given : List SeenGiven) → IsAskedFor o asked.now
        → IsWrittenWith asked.now.hash asked.now.hidden token.now.parts body given
        → ShowsClaims o (without_alg_of body) given
        → IsAuditedFor o (without_alg_of body) given) }
    ensures differs { IfErr result
        (λ e. (o : SeenOrder) (body : SeenTree) (given : List SeenGiven) → IsAskedFor o asked.now
        → IsWrittenWith asked.now.hash asked.now.hidden token.now.parts body given
        → ShowsClaims o (without_alg_of body) given
        → OnPart e (ContentDiffers o (without_alg_of body) given)) }
{
    match read_written(alloc, asked.hash, asked.hidden, token)? {
        Some(written) => judge_digests(alloc, asked, &bare(written), usize::MAX),
        // It was read before, so it is written as it is to be.
        None => Err(differs(AuditPart::Written)),
    }
}

// The length of the longest of the texts.
fn longest_of(texts: &[TextBox]) -> usize {
    let mut longest = 0;
    for text in texts {
        longest = longest.max(text.as_str().len());
    }
    longest
}

// The parts 3 to 6, of what is written. Payload and disclosures are given away for the third, so
// the others look at them before. A payload that shows other claims may have names of megabytes
// over thousands of digests: where one stands at a longer path than any decoy that is asked for,
// the others wait, and what is written is read again.
fn judge_content(
    alloc: Global,
    asked: &Asked,
    token: &TokenView<'_>,
    written: Written,
    steps: &mut Steps,
) -> Result<(), AuditError>
    requires read { IsWrittenWith asked.now.hash asked.now.hidden token.now.parts
        (tree_of written.body) written.given }
    requires count { length written.given ≡ asked.now.hidden }
    requires few { length written.given ≤ count_max }
    requires decoys { asked.now.decoys ≤ count_max }
    requires object { IsPayload (tree_of written.body) }
    requires payload_depth { depth_of (tree_of written.body) ≤ json_depth_max }
    requires values_depth { ValuesShallow written.given }
    ensures audited { OnOk result
        ((o : SeenOrder) → IsAskedFor o asked.now
        → IsAuditedFor o (without_alg_of (tree_of written.body)) written.given) }
    ensures differs { IfErr result
        (λ e. (o : SeenOrder) → IsAskedFor o asked.now
        → OnPart e (ContentDiffers o (without_alg_of (tree_of written.body)) written.given)) }

    // the look-ups
    ensures counted { FromPart 3 result
        (IsSound (without_alg_of (tree_of written.body)) written.given
        → steps.new
        ≡ counted steps.old (look_ups (without_alg_of (tree_of written.body)) written.given)) }
    ensures risen { RoseWithin (look_ups (without_alg_of (tree_of written.body)) written.given)
        steps.old steps.new }
{
    let content = bare(written);
    let longest = longest_of(asked.standings.as_slice());
    let early = judge_digests(alloc, asked, &content, longest);
    let Written { body, given, seed } = content;
    if !shows(alloc, body, given, seed, &asked.claims, steps)? {
        return Err(differs(AuditPart::Claims));
    }
    match early {
        Err(AuditError::Memory) => judge_again(alloc, asked, token),
        judged => judged,
    }
}

// The six parts, in their order.
fn judge_token<K: Checker>(
    alloc: Global,
    order: Order,
    places: PathList,
    alg: &AlgName<'_>,
    checker: &K,
    token: &TokenView<'_>,
    steps: &mut Steps,
) -> Result<(), AuditError>
    requires depth { depth_of (tree_of order.payload) ≤ json_depth_max }
    requires passes { NoneApplies (AppliesToOrder (order_of order)) }
    requires same { (path : Path) → is_among places path ≡ is_among order.hide path }
    requires few { length places ≤ count_max }
    ensures audited { OnOk result
        (IsAudited (order_of order) alg.now (K.good checker.now) token.now) }
    ensures differs { IfErr result
        (λ e. OnPart e (DiffersIn (order_of order) alg.now (K.good checker.now) token.now)) }

    // the look-ups
    ensures counted { FromPart 4 result
        (IsTokenCounted (order_of order) token.now steps.old steps.new) }
    ensures opened { FromPart 3 result
        (IsTokenSoundCounted (order_of order) token.now steps.old steps.new) }
    ensures within { IsTokenWithin (order_of order) token.now steps.old steps.new }
    ensures uncounted { (k : ℕ) → k ≤ 2
        → DiffersIn (order_of order) alg.now (K.good checker.now) token.now k
        → steps.new ≡ steps.old }
    ensures unsigned { (IsSignedFor (order_of order) alg.now (K.good checker.now) token.now → ⊥)
        → steps.new ≡ steps.old }
    ensures unwritten { ((body : SeenTree) (given : List SeenGiven)
        → IsWrittenFor (order_of order) token.now.parts body given → ⊥)
        → steps.new ≡ steps.old }
{
    if !is_signed_for(alloc, &order, alg, checker, token)? {
        return Err(differs(AuditPart::Signed));
    }
    let asked = asked_of(alloc, order, places)?;
    match read_written(alloc, asked.hash, asked.hidden, token)? {
        Some(written) => judge_content(alloc, &asked, token, written, steps),
        None => Err(differs(AuditPart::Written)),
    }
}

// The same as `audit`, of an order that is given away: nothing of it is copied.
pub(crate) fn audit_owned<K: Checker>(
    alloc: Global,
    order: Order,
    alg: &AlgName<'_>,
    checker: &K,
    text: &[u8],
    steps: &mut Steps,
) -> Result<(), AuditError>
    requires depth { depth_of (tree_of order.payload) ≤ json_depth_max }
    ensures passes { OnOk result
        (PassesAudit (order_of order) alg.now (K.good checker.now) text.now) }
    ensures refused { IfErr result
        (IsAuditRefused (order_of order) alg.now (K.good checker.now) text.now) }

    // the look-ups
    ensures counted { FromPart 4 result
        (IsAuditCounted (order_of order) text.now steps.old steps.new) }
    ensures opened { FromPart 3 result
        (IsSoundCounted (order_of order) text.now steps.old steps.new) }
    ensures none_yet { IfErr result (λ e. IsBeforeOpening e → steps.new ≡ steps.old) }
    ensures within { IsAuditedWithin (order_of order) text.now steps.old steps.new }
    ensures uncounted { (error : SeenError) → IsBeforeOpening error
        → FailsAudit (order_of order) alg.now (K.good checker.now) text.now error
        → steps.new ≡ steps.old }
    ensures unopened { IsAuditUnopened (order_of order) alg.now (K.good checker.now) text.now
        → steps.new ≡ steps.old }
{
    let places = match judge_order(alloc, &order) {
        Ok(places) => places,
        Err(error) => return Err(error),
    };
    let token = match TokenText::read(alloc, text) {
        Ok(token) => token,
        Err(TokenError::Fault(fault)) => return Err(AuditError::Token(fault)),
        Err(TokenError::Memory) => return Err(AuditError::Memory),
    };
    judge_token(alloc, order, places, alg, checker, &token.view(), steps)
}

/// Whether a token is what an order asks for, as who has no seed can tell. The order is judged
/// first, then whether the text is a token, and then the six parts of [`AuditError::Part`], in
/// their order: the first that differs is answered.
///
/// The signature is to be one that the checker accepts, and the header to name this
/// algorithm. Of a decoy no one can tell what it is made of, so its place and
/// its form are judged alone. `steps` counts the look-ups of digests.
pub fn audit<K: Checker>(
    alloc: Global,
    order: &Order,
    alg: Alg,
    checker: &K,
    text: &[u8],
    steps: &mut Steps,
) -> Result<(), AuditError>
    requires depth { depth_of (tree_of order.now.payload) ≤ json_depth_max }
    ensures passes { OnOk result
        (PassesAudit (order_of order.now) (alg_text alg) (K.good checker.now) text.now) }
    ensures refused { IfErr result
        (IsAuditRefused (order_of order.now) (alg_text alg) (K.good checker.now) text.now) }

    // the look-ups
    ensures counted { FromPart 4 result
        (IsAuditCounted (order_of order.now) text.now steps.old steps.new) }
    ensures opened { FromPart 3 result
        (IsSoundCounted (order_of order.now) text.now steps.old steps.new) }
    ensures none_yet { IfErr result (λ e. IsBeforeOpening e → steps.new ≡ steps.old) }
    ensures within { IsAuditedWithin (order_of order.now) text.now steps.old steps.new }
    ensures uncounted { (error : SeenError) → IsBeforeOpening error
        → FailsAudit (order_of order.now) (alg_text alg) (K.good checker.now) text.now error
        → steps.new ≡ steps.old }
    ensures unopened { IsAuditUnopened (order_of order.now) (alg_text alg) (K.good checker.now)
        text.now → steps.new ≡ steps.old }
{
    let owned = order.copy(alloc)?;
    audit_owned(alloc, owned, &alg.alg_name(), checker, text, steps)
}
