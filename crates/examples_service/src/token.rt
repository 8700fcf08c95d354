// The token of a payload, some places of which are hidden.
ghost use Rattle.std.specs.Prelude.{◌≤◌, length, IfOk, IfErr, IsErrOf};
ghost use Rattle.sdjwt_lib.specs.sd_outside.Causes.{Rose};
ghost use Rattle.sdjwt_lib.specs.sd_outside.Limits.{issue_max, json_depth_max};
ghost use Rattle.sdjwt_lib.specs.claim_tree.Tree.{depth};
ghost use Rattle.sdjwt_lib.specs.claim_tree.View.{tree_of};
ghost use Rattle.sdjwt_lib.specs.refusals.Lowest.{NoneApplies};
ghost use Rattle.sdjwt_lib.specs.hmac_sign.Agreement.{IsSameSigner};
ghost use Rattle.sdjwt_lib.specs.issuer_core.declared.errors.IssueError.{IssueError};
ghost use Rattle.sdjwt_lib.specs.issuer_core.Issue.{HasNoClash};
ghost use Rattle.sdjwt_lib.specs.issuer_core.IssueCalls.{IsNotIssued};
ghost use Rattle.sdjwt_lib.specs.issuer_core.OrderRefusals.{AppliesToOrder};
ghost use Rattle.sdjwt_lib.specs.issuer_core.Seed.{maker_of};
ghost use Rattle.examples_service.specs.Token.{order_for, IsTokenFor};

use sdjwt_lib::claim_tree::{PathList, Tree};
use sdjwt_lib::compact_form::print;
use sdjwt_lib::disclosure::HashAlg;
use sdjwt_lib::hmac_sign::Signer;
use sdjwt_lib::issuer_core::{DecoyList, IssueError, Order, issue_owned};
use sdjwt_lib::sd_outside::TextBox;
use std::alloc::Global;

/// The compact text of a new token for a payload, with each of these places
/// hidden behind the digest of its disclosure.
///
/// The seed makes the salts, so take a new one for each token. The signer is
/// asked once, when all else is there.
pub fn token_for<S: Signer>(
    alloc: Global,
    payload: Tree,
    hide: PathList,
    seed: &[u8; 32],
    signer: &mut S,
) -> Result<TextBox, IssueError>
    requires depth { depth (tree_of payload) ≤ json_depth_max }
    ensures token { IfOk result (IsTokenFor (maker_of seed.now)
        (order_for (tree_of payload) hide) (S.alg_name_of signer.old) (S.good signer.old)) }
    ensures passes { IfOk result
        (λ _. NoneApplies (AppliesToOrder (order_for (tree_of payload) hide))) }
    ensures differ { IfOk result
        (λ _. HasNoClash (maker_of seed.now) (order_for (tree_of payload) hide)) }
    ensures short { IfOk result (λ text. length text ≤ issue_max) }
    ensures refused { IfErr result (IsNotIssued (maker_of seed.now)
        (order_for (tree_of payload) hide) (S.alg_name_of signer.old) (S.good signer.old)) }
    ensures failed { IsErrOf result IssueError.SignFailed
        → Rose (S.faults signer.old) (S.faults signer.new) }

    // what stays
    ensures kept { IsSameSigner S.good S.alg_name_of S.faults signer.old signer.new }
{
    let order = Order {
        payload,
        hide,
        decoys: DecoyList::new(alloc),
        kid: None,
        typ: None,
        hash: HashAlg::Sha256,
    };
    let parts = issue_owned(alloc, order, seed, signer)?;
    Ok(print(alloc, &parts)?)
}
