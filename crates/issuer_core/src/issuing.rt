// The calls that issue.
ghost use Rattle.std.specs.Prelude.{◌≡◌, ◌≤◌, length, IfOk, OnOk, IfErr, IsErrOf};
ghost use Rattle.sd_outside.specs.Causes.{Rose};
ghost use Rattle.claim_tree.specs.Tree.{depth as depth_of};
ghost use Rattle.claim_tree.specs.View.{tree_of};
ghost use Rattle.sd_outside.specs.Limits.{count_max, issue_max, json_depth_max};
ghost use Rattle.compact_form.specs.Compact.{compact, AreWords};
ghost use Rattle.hmac_sign.specs.Agreement.{IsSameSigner};
ghost use Rattle.issuer_core.specs.declared.errors.IssueError.{IssueError};
ghost use Rattle.issuer_core.specs.Order.{order_of};
ghost use Rattle.issuer_core.specs.Seed.{maker_of};
ghost use Rattle.issuer_core.specs.Written.{IsIssued, IsLaidOut};
ghost use Rattle.issuer_core.specs.Written.{header_of};
ghost use Rattle.issuer_core.specs.GoodOrder.{IsWritable};
ghost use Rattle.issuer_core.specs.Issue.{HasNoClash};
ghost use Rattle.issuer_core.specs.IssueSteps.{HasClash, AreWritten};
ghost use Rattle.issuer_core.specs.IssueCalls.{IsNotIssued};
ghost use Rattle.issuer_core.specs.ToSign.{IsToSign, IsNotToSign, AreUnsignedWords};
ghost use Rattle.refusals.specs.Lowest.{NoneApplies};
ghost use Rattle.issuer_core.specs.OrderRefusals.{AppliesToOrder};
ghost use Rattle.sd_outside.specs.Lists.{Repeats, AtNone};

use crate::laying::{Laid, lay_order};
use crate::{IssueError, Order, UnsignedToken, first_clash, judged_places};
use compact_form::Parts;
use hmac_sign::{AlgName, Signer, UnsignedJwt};
use jws_part::{Header, write_body, write_header};
use sd_outside::{NoMemory, TextBox, TextList, copy_text};
use std::alloc::Global;

/// Issues a token for a copy of an order: the compact parts of an SD-JWT, RFC
/// 9901 section 4, without a key binding token.
///
/// The seed makes the salts, so that one order and one seed make one token. The
/// signer is asked once, when all else is there.
pub fn issue<S: Signer>(
    alloc: Global,
    order: &Order,
    seed: &[u8; 32],
    signer: &mut S,
) -> Result<Parts, IssueError>
    requires depth { depth_of (tree_of order.now.payload) ≤ json_depth_max }
    ensures issued { IfOk result
        (IsIssued (maker_of seed.now) (order_of order.now) (S.alg_name_of signer.old)
        (S.good signer.old)) }
    ensures laid { IfOk result
        (IsLaidOut (maker_of seed.now) (order_of order.now) (S.alg_name_of signer.old)
        (S.good signer.old)) }
    ensures passes { IfOk result (λ _. NoneApplies (AppliesToOrder (order_of order.now))) }
    ensures writable { IfOk result (λ _. IsWritable (order_of order.now)) }
    ensures differ { IfOk result (λ _. HasNoClash (maker_of seed.now) (order_of order.now)) }
    ensures words { IfOk result AreWords }
    ensures few { IfOk result (λ parts. length parts.disclosures ≤ count_max) }
    ensures short { IfOk result (λ parts. length (compact parts) ≤ issue_max) }
    ensures refused { IfErr result
        (IsNotIssued (maker_of seed.now) (order_of order.now) (S.alg_name_of signer.old)
        (S.good signer.old)) }
    ensures failed { IsErrOf result IssueError.SignFailed
        → Rose (S.faults signer.old) (S.faults signer.new) }

    // what stays
    ensures kept { IsSameSigner S.good S.alg_name_of S.faults signer.old signer.new }
{
    let order = order.copy(alloc)?;
    issue_owned(alloc, order, seed, signer)
}

/// The same of an order that is given away: it is not copied.
pub fn issue_owned<S: Signer>(
    alloc: Global,
    order: Order,
    seed: &[u8; 32],
    signer: &mut S,
) -> Result<Parts, IssueError>
    requires depth { depth_of (tree_of order.payload) ≤ json_depth_max }
    ensures issued { IfOk result
        (IsIssued (maker_of seed.now) (order_of order) (S.alg_name_of signer.old)
        (S.good signer.old)) }
    ensures laid { IfOk result
        (IsLaidOut (maker_of seed.now) (order_of order) (S.alg_name_of signer.old)
        (S.good signer.old)) }
    ensures passes { IfOk result (λ _. NoneApplies (AppliesToOrder (order_of order))) }
    ensures writable { IfOk result (λ _. IsWritable (order_of order)) }
    ensures differ { IfOk result (λ _. HasNoClash (maker_of seed.now) (order_of order)) }
    ensures words { IfOk result AreWords }
    ensures few { IfOk result (λ parts. length parts.disclosures ≤ count_max) }
    ensures short { IfOk result (λ parts. length (compact parts) ≤ issue_max) }
    ensures refused { IfErr result
        (IsNotIssued (maker_of seed.now) (order_of order) (S.alg_name_of signer.old)
        (S.good signer.old)) }
    ensures failed { IsErrOf result IssueError.SignFailed
        → Rose (S.faults signer.old) (S.faults signer.new) }

    // what stays
    ensures kept { IsSameSigner S.good S.alg_name_of S.faults signer.old signer.new }
{
    let token = match to_sign(alloc, order, seed, &signer.alg_name()) {
        Ok(token) => token,
        Err(error) => return Err(error),
    };
    token.sign(alloc, signer)
}

/// What is to be signed of a token for an order, and its disclosures: for who signs elsewhere, by
/// an algorithm of this name (RFC 7515 section 4.1.1).
///
/// [`UnsignedToken::signed`] puts the signature to it. A signer that is here goes with
/// [`issue_owned`], which makes the same token.
pub fn to_sign(
    alloc: Global,
    order: Order,
    seed: &[u8; 32],
    alg: &AlgName<'_>,
) -> Result<UnsignedToken, IssueError>
    requires depth { depth_of (tree_of order.payload) ≤ json_depth_max }
    ensures to_sign { IfOk result (IsToSign (maker_of seed.now) (order_of order) alg.now) }
    ensures passes { IfOk result (λ _. NoneApplies (AppliesToOrder (order_of order))) }
    ensures writable { IfOk result (λ _. IsWritable (order_of order)) }
    ensures differ { IfOk result (λ _. HasNoClash (maker_of seed.now) (order_of order)) }
    ensures words { IfOk result AreUnsignedWords }
    ensures few { IfOk result (λ token. length token.disclosures ≤ count_max) }
    ensures refused { IfErr result (IsNotToSign (maker_of seed.now) (order_of order)) }
{
    order.payload.invariant();
    let places = match judged_places(alloc, &order) {
        Ok(places) => places,
        Err(error) => return Err(error),
    };
    let header = order_header(alloc, &order, alg)?;
    let laid = lay_order(alloc, order, places, seed)?;
    if let Err(error) = judge_digests(alloc, &laid.digests) {
        return Err(error);
    }
    Ok(write_unsigned(alloc, &header, laid)?)
}

/// The header of a token that is issued for the order, with signatures by the
/// algorithm of this name.
pub fn order_header(alloc: Global, order: &Order, alg: &AlgName<'_>) -> Result<Header, NoMemory>
    ensures { IfOk result (λ header. header ≡ header_of alg.now (order_of order.now)) }
{
    Ok(Header {
        alg: TextBox::make(alloc, alg.as_str())?,
        kid: copy_text(alloc, &order.kid)?,
        typ: copy_text(alloc, &order.typ)?,
    })
}

// Refusal 60: two digests are equal.
fn judge_digests(alloc: Global, digests: &TextList) -> Result<(), IssueError>
    ensures differ { OnOk result (AtNone (Repeats digests.now)) }
    ensures clash { IfErr result (HasClash digests.now) }
{
    match first_clash(alloc, digests) {
        Ok(None) => Ok(()),
        Ok(Some((i, j))) => Err(IssueError::DigestClash(i, j)),
        Err(NoMemory) => Err(IssueError::Memory),
    }
}

// What is laid, written with this header.
fn write_unsigned(alloc: Global, header: &Header, laid: Laid) -> Result<UnsignedToken, NoMemory>
    ensures { IfOk result (AreWritten header.now (tree_of laid.payload) laid.texts) }
{
    let protected = write_header(alloc, header)?;
    let payload = write_body(alloc, &laid.payload)?;
    Ok(UnsignedToken {
        jwt: UnsignedJwt { protected, payload },
        disclosures: laid.texts,
    })
}
