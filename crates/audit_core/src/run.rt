// A run of the audit.
ghost use Rattle.std.specs.Prelude.{◌≡◌, ◌≤◌, ℕ, List, [], ◌∷◌, None, map, IfErr, IfSome, string_bytes};
ghost use Rattle.sd_outside.specs.Limits.{json_depth_max};
ghost use Rattle.sd_outside.specs.Causes.{Rose};
ghost use Rattle.claim_tree.specs.Tree.{depth};
ghost use Rattle.claim_tree.specs.View.{tree_of};
ghost use Rattle.cli_parts.specs.Outside.{outside};
ghost use Rattle.cli_parts.specs.Runs.{MissesWord, RunKeeps};
ghost use Rattle.cli_parts.specs.Stops.{IsReply, OnUnread, NotUnread};
ghost use Rattle.issuer_core.specs.OrderFile.{IsOrderFile};
ghost use Rattle.audit_core.specs.AuditRun.{AuditAnswers, AuditEnds, AuditsFiles, IsAudit};

use crate::auditing::audit_owned;
use crate::{AuditError, refusal_line};
use cli_parts::{FETCH_MAX, Stop, as_line, end_run, fetch_file, readable, tell};
use digest_index::Steps;
use hmac_sign::Signer;
use issuer_core::{IssueFile, read_order};
use sd_outside::{Cabinet, Sink, Status, TextBox};
use std::alloc::Global;

// The answer for what an order file says.
fn audit_for(alloc: Global, asked: IssueFile, token_file: &[u8]) -> Result<String, Stop>
    requires depth { depth (tree_of asked.order.payload) ≤ json_depth_max }
    ensures replies { (order_file : List ℕ) → IsOrderFile order_file asked
        → IsReply (AuditAnswers order_file token_file.now) result }
    ensures read { IfErr result NotUnread }
{
    let IssueFile { order, key } = asked;
    match audit_owned(
        alloc,
        order,
        &key.alg_name(),
        &key,
        token_file,
        &mut Steps::new(),
    ) {
        Ok(()) => Ok(as_line(TextBox::make(alloc, "yes")?)?),
        Err(AuditError::Memory) => Err(Stop::Memory),
        Err(error) => Err(Stop::Refused(as_line(refusal_line(alloc, &error)?)?)),
    }
}

/// The answer to an order file and a token file: the line `yes`, where the
/// token is what the order asks for, signed with its key.
pub fn audit_files(alloc: Global, order_file: &[u8], token_file: &[u8]) -> Result<String, Stop>
    ensures replies { IsReply (AuditAnswers order_file.now token_file.now) result }
    ensures read { IfErr result NotUnread }
{
    let asked = readable(alloc, read_order(alloc, order_file))?;
    audit_for(alloc, asked, token_file)
}

// The answer over the files that the cabinet has under these names.
fn answer<C: Cabinet>(alloc: Global, cab: &mut C, order: &str, token: &str) -> Result<String, Stop>
    ensures replies { IsReply (AuditsFiles (C.holds cab.old) order.now token.now) result }
    ensures misses { IfErr result
        (λ stop. OnUnread stop
        (λ word. MissesWord (order.now ∷ token.now ∷ []) word (C.missed cab.new))) }
    ensures rose { IfErr result
        (λ stop. OnUnread stop (λ _. Rose (C.faults cab.old) (C.faults cab.new))) }
    ensures held { (name : List ℕ) → C.holds cab.new name ≡ C.holds cab.old name }
    ensures later { C.faults cab.old ≤ C.faults cab.new }
{
    let order = fetch_file(alloc, cab, order, FETCH_MAX, 0)?;
    let token = fetch_file(alloc, cab, token, FETCH_MAX, 1)?;
    audit_files(alloc, order.bytes(), token.bytes())
}

// The names of the two files.
fn audit_words(words: &[String]) -> Option<(&str, &str)>
    ensures some { IfSome result
        (λ names. IsAudit (map string_bytes words.now) names.0.now names.1.now) }
    ensures none { result ≡ None → (order token : List ℕ)
        → IsAudit (map string_bytes words.now) order token → ⊥ }
{
    match words {
        [name, order, token] if name.as_str() == "audit" => Some((order.as_str(), token.as_str())),
        _ => None,
    }
}

/// Runs the audit that the words ask for: `audit`, the name of an order file,
/// and that of a token file.
///
/// Where the token is what the order asks for, signed with its key, the line
/// `yes` goes to `out`; else the line of the first refusal goes to `err`. What
/// each status says of the outside before and after is `AuditEnds`, by cases.
pub fn run_audit<C: Cabinet, O: Sink, E: Sink>(
    alloc: Global,
    words: &[String],
    cab: &mut C,
    out: &mut O,
    err: &mut E,
) -> Status
    ensures ends { AuditEnds (map string_bytes words.now)
        (outside C.Cabinet O.Sink E.Sink cab.old out.old err.old)
        (outside C.Cabinet O.Sink E.Sink cab.new out.new err.new) result }
    ensures keeps { RunKeeps (outside C.Cabinet O.Sink E.Sink cab.old out.old err.old)
        (outside C.Cabinet O.Sink E.Sink cab.new out.new err.new) }
{
    let Some((order, token)) = audit_words(words) else {
        return tell(err, "usage\n", Status::Usage);
    };
    end_run(alloc, answer(alloc, cab, order, token), out, err)
}
