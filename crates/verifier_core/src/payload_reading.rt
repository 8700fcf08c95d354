// The payload of a token, and its hash.
ghost use Rattle.std.specs.Prelude.{◌≡◌, ◌≤◌, IfOk, IfErr, Some};
ghost use Rattle.sd_outside.specs.Limits.{json_depth_max};
ghost use Rattle.claim_tree.specs.Tree.{depth as depth_of};
ghost use Rattle.claim_tree.specs.View.{tree_of};
ghost use Rattle.jws_part.specs.Part.{IsBody};
ghost use Rattle.disclosure.specs.Digest.{payload_hash as payload_hash_of};
ghost use Rattle.verifier_core.specs.Check.{OnFault, IsPayloadFault};

use crate::check_signed::fails;
use crate::token_checking::VerifyError;
use claim_tree::{JsonReader, Tree};
use disclosure::{HashAlg, payload_hash};
use jws_part::{BodyError, read_body_with};
use refusals::Condition;
use std::alloc::Global;

// The conditions 11 and 12.
pub(crate) fn read_payload(
    alloc: Global,
    reader: &mut JsonReader,
    payload: &str,
) -> Result<(Tree, HashAlg), VerifyError>
    ensures ok { IfOk result (λ p. IsBody payload.now (tree_of p.0)) }
    ensures hash { IfOk result (λ p. payload_hash_of (tree_of p.0) ≡ Some p.1) }
    ensures depth { IfOk result (λ p. depth_of (tree_of p.0) ≤ json_depth_max) }
    ensures refused { IfErr result (λ e. OnFault e (IsPayloadFault payload.now)) }
{
    let body = match read_body_with(alloc, reader, payload) {
        Ok(body) => body,
        Err(BodyError::Memory) => return Err(VerifyError::Memory),
        Err(BodyError::Unreadable) => return Err(fails(Condition::PayloadUnreadable)),
    };
    match payload_hash(&body) {
        Some(hash) => Ok((body, hash)),
        None => Err(fails(Condition::HashUnknown)),
    }
}
