//! What the definitions say together. Each law holds for every value.
ghost use Rattle.std.specs.Prelude.{◌≡◌, ◌⊎◌, ℕ, List};
ghost use Rattle.std.specs.Io.KnownBytes.{Appends};
ghost use Rattle.sd_outside.specs.Causes.{Rose};
ghost use Rattle.sd_outside.specs.declared.status.Status.{Status};
ghost use Rattle.claim_tree.specs.Tree.{Text};
ghost use Rattle.cli_parts.specs.Outside.{Outside};
ghost use Rattle.cli_parts.specs.Replies.{Reply, gives};
ghost use Rattle.cli_parts.specs.Told.{IsFileTold};
ghost use Rattle.hmac_sign.specs.Hmac.{AlgKey};
ghost use Rattle.issuer_core.specs.Order.{Order};
ghost use Rattle.audit_core.specs.AuditLaws.{HasOneVerdict, IssuedPasses, KeyIssuedPasses};
ghost use Rattle.audit_core.specs.AuditRun.{AuditAnswers, AuditEnds, IsAudit};

use hmac_sign::Signatures;

/// A text passes an audit, or one thing refuses it, whatever signatures are.
pub fn one_audit<S: Signatures>()
    ensures { (signer : S) (o : Order) (alg : Text) (content : Text)
        → HasOneVerdict o alg (S.good signer) content }
{}

/// What is issued for an order that nothing of 51 to 59 refuses, with whatever signatures and by an
/// algorithm of any name, passes the audit of whoever knows which of them are good and has no seed,
/// where its compact text is read as a token.
pub fn audited<S: Signatures>()
    ensures by_signer { (signer : S) (alg : Text) → IssuedPasses alg (S.good signer) }
    ensures by_key { (key : AlgKey) → KeyIssuedPasses key }
{}

/// The definition of an audit has at most one answer over an order file and a token file.
pub fn one_answer()
    ensures { (order_file token_file : List ℕ) (v w : Reply) → AuditAnswers order_file token_file v
        → AuditAnswers order_file token_file w → v ≡ w }
{}

/// Where the words are those of an audit, the cabinet tells its two files, the
/// definition gives an answer over them, and neither the cabinet nor `out`
/// failed, that answer was written, or there was no memory.
pub fn completes()
    ensures { (words : List (List ℕ)) (before after : Outside) (status : Status)
        (order token order_file token_file answer : List ℕ) → IsAudit words order token
        → IsFileTold before.holds order order_file → IsFileTold before.holds token token_file
        → AuditAnswers order_file token_file (gives answer) → (Rose before.faults after.faults → ⊥)
        → (Rose before.out.faults after.out.faults → ⊥) → AuditEnds words before after status
        → ((status ≡ Status.Done) × Appends before.out.written after.out.written answer)
        ⊎ (status ≡ Status.Memory) }
{}
