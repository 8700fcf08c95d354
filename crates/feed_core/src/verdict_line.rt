// The line that tells the verdict on a token, behind those that are held.
ghost use Rattle.std.specs.Prelude.{◌≡◌, ◌∷◌, [], ◌++◌, ℕ, List, OnOk, OnErr, codes, string_bytes};
ghost use Rattle.claim_tree.specs.JsonText.{json_text};
ghost use Rattle.claim_tree.specs.View.{tree_of};
ghost use Rattle.refusals.specs.RefusedText.{fault_text};
ghost use Rattle.cli_parts.specs.Lines.{line};
ghost use Rattle.feed_core.specs.FeedVerdict.{TellsVerdicts};

use claim_tree::{Tree, write};
use digest_index::Steps;
use disclosure::DisclosureReader;
use refusals::Fault;
use sd_outside::NoMemory;
use std::alloc::Global;
use verifier_core::{Policy, VerifyError, fault_line, verify_payload_with};

// Adds a line of two parts, whole or not at all.
fn add_line(held: &mut String, front: &str, text: &str) -> Result<(), NoMemory>
    ensures added { OnOk result
        (string_bytes held.new ≡ string_bytes held.old ++ line (front.now ++ text.now)) }
    ensures same { OnErr result (string_bytes held.new ≡ string_bytes held.old) }
{
    held.reserve(front.len() + text.len() + 1)?;
    held.push_str(front)?;
    held.push_str(text)?;
    held.push_str("\n")?;
    Ok(())
}

// Adds the line of a token that is accepted, with this payload.
fn add_accepted(alloc: Global, payload: &Tree, held: &mut String) -> Result<(), NoMemory>
    ensures added { OnOk result
        (string_bytes held.new
        ≡ string_bytes held.old
        ++ line (codes "accepted " ++ json_text (tree_of payload.now))) }
    ensures same { OnErr result (string_bytes held.new ≡ string_bytes held.old) }
{
    let text = write(alloc, payload)?;
    add_line(held, "accepted ", text.as_str())
}

// Adds the line of a condition that fails.
fn add_refused(alloc: Global, fault: &Fault, held: &mut String) -> Result<(), NoMemory>
    ensures added { OnOk result
        (string_bytes held.new ≡ string_bytes held.old ++ line (fault_text fault.now)) }
    ensures same { OnErr result (string_bytes held.new ≡ string_bytes held.old) }
{
    let text = fault_line(alloc, fault)?;
    add_line(held, "", text.as_str())
}

// Judges a token, under a policy and at a moment, and adds the line of its verdict.
pub(crate) fn add_verdict(
    alloc: Global,
    reader: &mut DisclosureReader,
    policy: &Policy,
    now: u64,
    token: &[u8],
    held: &mut String,
) -> Result<(), NoMemory>
    ensures told { OnOk result
        ((text : List ℕ) × TellsVerdicts policy.now now (token.now ∷ []) text
        × (string_bytes held.new ≡ string_bytes held.old ++ text)) }
    ensures same { OnErr result (string_bytes held.new ≡ string_bytes held.old) }
{
    match verify_payload_with(alloc, reader, token, policy, now, &mut Steps::new()) {
        Ok(payload) => add_accepted(alloc, &payload, held),
        Err(VerifyError::Fault(fault)) => add_refused(alloc, &fault, held),
        Err(VerifyError::Memory) => Err(NoMemory),
    }
}
