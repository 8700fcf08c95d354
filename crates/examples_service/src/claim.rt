// One claim of a presentation that is accepted.
ghost use Rattle.std.specs.Prelude.{◌≡◌, IfOk, IfErr, option_map};
ghost use Rattle.sdjwt_lib.specs.claim_tree.Tree.{get};
ghost use Rattle.sdjwt_lib.specs.claim_tree.View.{tree_of};
ghost use Rattle.sdjwt_lib.specs.refusals.Lowest.{IsLowest};
ghost use Rattle.sdjwt_lib.specs.verifier_core.Verdict.{Fails};
ghost use Rattle.sdjwt_lib.specs.verifier_core.Check.{OnFault};
ghost use Rattle.examples_service.specs.Claim.{IsClaim};

use sdjwt_lib::claim_tree::Tree;
use sdjwt_lib::digest_index::Steps;
use sdjwt_lib::verifier_core::{Policy, VerifyError, verify_payload};
use std::alloc::Global;

/// The claim of this name in the processed payload of a presentation, which is
/// verified under a policy at a moment in seconds since 1970. None where the
/// presentation is accepted and has no such claim.
pub fn claim_of(
    alloc: Global,
    policy: &Policy,
    presentation: &str,
    now: u64,
    name: &str,
) -> Result<Option<Tree>, VerifyError>
    ensures claim { IfOk result (λ claim.
        IsClaim presentation.now policy.now now name.now (option_map tree_of claim)) }
    ensures refused { IfErr result
        (λ e. OnFault e (IsLowest (Fails presentation.now policy.now now))) }
{
    let text = presentation.as_bytes();
    let payload = verify_payload(alloc, text, policy, now, &mut Steps::new())?;
    Ok(into_member(payload, name))
}

// The member of an object, taken out of it with no copy.
fn into_member(tree: Tree, name: &str) -> Option<Tree>
    ensures { option_map tree_of result ≡ get (tree_of tree) name.now }
{
    match tree {
        Tree::Object(mut members) => members.remove(name),
        _ => None,
    }
}
