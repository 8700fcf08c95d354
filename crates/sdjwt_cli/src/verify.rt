// The command `verify`: the processed payload of a token that is accepted under a policy.
ghost use Rattle.std.specs.Prelude.{◌≡◌, IfOk, IfErr, string_bytes};
ghost use Rattle.claim_tree.specs.JsonText.{json_text};
ghost use Rattle.claim_tree.specs.View.{tree_of};
ghost use Rattle.verifier_core.specs.PolicyFile.{IsPolicyFileRefused};
ghost use Rattle.cli_parts.specs.Lines.{line};
ghost use Rattle.sdjwt_cli.specs.Verify.{Verifies, DoesNotVerify, VerifiesUnder, DoesNotVerifyUnder};
ghost use Rattle.cli_parts.specs.Stops.{OnRefused, OnUnreadable, NotUnread, NotUnreadable};
ghost use Rattle.cli_parts.specs.Telling.{TellsFileFault};

use claim_tree::{Tree, write};
use cli_parts::{Stop, as_line, policy_of, refused};
use digest_index::Steps;
use sd_outside::NoMemory;
use std::alloc::Global;
use verifier_core::{Policy, VerifyError, verify_payload};

// The JSON of a tree, as a line.
fn json_line(alloc: Global, tree: &Tree) -> Result<String, NoMemory>
    ensures { IfOk result (λ text. string_bytes text ≡ line (json_text (tree_of tree.now))) }
{
    as_line(write(alloc, tree)?)
}

/// The answer under a policy that is read.
pub fn verify_under(
    alloc: Global,
    policy: &Policy,
    token_file: &[u8],
    now: u64,
) -> Result<String, Stop>
    ensures verifies { IfOk result
        (λ text. VerifiesUnder policy.now token_file.now now (string_bytes text)) }
    ensures refuses { IfErr result
        (λ stop. OnRefused stop (DoesNotVerifyUnder policy.now token_file.now now)) }
    ensures readable { IfErr result NotUnreadable }
    ensures read { IfErr result NotUnread }
{
    match verify_payload(alloc, token_file, policy, now, &mut Steps::new()) {
        Ok(payload) => Ok(json_line(alloc, &payload)?),
        Err(VerifyError::Fault(fault)) => Err(refused(alloc, &fault)),
        Err(VerifyError::Memory) => Err(Stop::Memory),
    }
}

/// The answer to a policy file and a token file, at a moment.
pub fn verify(
    alloc: Global,
    policy_file: &[u8],
    token_file: &[u8],
    now: u64,
) -> Result<String, Stop>
    ensures verifies { IfOk result
        (λ text. Verifies policy_file.now token_file.now now (string_bytes text)) }
    ensures refuses { IfErr result
        (λ stop. OnRefused stop (DoesNotVerify policy_file.now token_file.now now)) }
    ensures unreadable { IfErr result
        (λ stop. OnUnreadable stop (TellsFileFault (IsPolicyFileRefused policy_file.now))) }
    ensures read { IfErr result NotUnread }
{
    let policy = policy_of(alloc, policy_file)?;
    verify_under(alloc, &policy, token_file, now)
}
