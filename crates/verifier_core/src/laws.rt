//! Laws about the definitions of conditions and policies. Each law holds for every value.
ghost use Rattle.std.specs.Prelude.{◌≡◌, ◌≢◌, ◌≤◌, ℕ, List, false, length};
ghost use Rattle.sd_outside.specs.Limits.{file_max};
ghost use Rattle.file_members.specs.declared.file_fault.FileFault.{FileFault};
ghost use Rattle.claim_tree.specs.JsonText.{json_text};
ghost use Rattle.claim_tree.specs.Tree.{Text, Tree, object, Members, no_members};
ghost use Rattle.compact_form.specs.Compact.{compact};
ghost use Rattle.refusals.specs.declared.fault.Fault.{Fault};
ghost use Rattle.compact_form.specs.Trim.{trimmed, is_too_long};
ghost use Rattle.json_form.specs.declared.token.Token.{Token};
ghost use Rattle.json_form.specs.Json.{IsJson};
ghost use Rattle.json_form.specs.Token.{IsToken, Spells};
ghost use Rattle.json_form.specs.Written.{flat_of, general_of};
ghost use Rattle.marked_tree.specs.Marked.{Marked, strip};
ghost use Rattle.verifier_core.specs.PolicyFile.{IsPolicyFile, IsPolicyFileRefused};
ghost use Rattle.verifier_core.specs.VersionTwo.{SaysInTwo};
ghost use Rattle.verifier_core.specs.Asking.{AsksHolder, IsAcceptedForAs, caller_demands};
ghost use Rattle.verifier_core.specs.Meanings.{meanings, AcceptedByMeaning, RefusedByMeaning, OneVerdictByMeaning, AnsweredByMeaning};
ghost use Rattle.verifier_core.specs.Verdict.{Demands, Fails, IsAccepted, IsAcceptedFor};
ghost use Rattle.verifier_core.specs.Verdicts.{AreJudgedAlike, IsAcceptedAs, IsBounded};
ghost use Rattle.verifier_core.specs.StaysAsked.{IssuerStaysAsked, HolderStaysAsked};
ghost use Rattle.refusals.specs.Lowest.{IsLowest};
ghost use Rattle.verifier_core.specs.declared.asking.Answers.{Answers};
ghost use Rattle.verifier_core.specs.declared.asking.Question.{Question};
ghost use Rattle.verifier_core.specs.declared.policy.Policy.{Policy};

use hmac_sign::Signatures;

/// A file either is one policy or is refused with one fault, apart from a lack of memory.
pub fn one_policy()
    ensures one { (bytes : List ℕ) (policy other : Policy) → IsPolicyFile bytes policy
        → IsPolicyFile bytes other → policy ≡ other }
    ensures not_both { (bytes : List ℕ) (policy : Policy) (fault : FileFault)
        → IsPolicyFile bytes policy → IsPolicyFileRefused bytes fault → fault ≡ FileFault.Memory }
    ensures one_fault { (bytes : List ℕ) (fault other : FileFault) → IsPolicyFileRefused bytes fault
        → IsPolicyFileRefused bytes other → fault ≢ FileFault.Memory → other ≢ FileFault.Memory
        → fault ≡ other }
{}

/// A policy of version 1 equals the policy of version 2 with the same members, in which `iss` and
/// the audience are lists of one.
pub fn version_one()
    ensures said { (one two : List ℕ) (policy : Policy) → length two ≤ file_max → SaysInTwo one two
        → IsPolicyFile one policy → IsPolicyFile two policy }
    ensures equal { (one two : List ℕ) (policy other : Policy) → length two ≤ file_max
        → SaysInTwo one two → IsPolicyFile one policy → IsPolicyFile two other → policy ≡ other }
{}

/// Under a policy and at a time, a token file is either accepted with one payload or refused with
/// one fault.
pub fn one_verdict()
    ensures not_both { (content : List ℕ) (policy : Policy) (now : ℕ) (marked : Marked)
        (fault : Fault) → IsAccepted content policy now marked
        → IsLowest (Fails content policy now) fault → ⊥ }
    ensures one_payload { (content : List ℕ) (policy : Policy) (now : ℕ) (marked other : Marked)
        → IsAccepted content policy now marked → IsAccepted content policy now other
        → marked ≡ other }
    ensures one_fault { (content : List ℕ) (policy : Policy) (now : ℕ) (fault other : Fault)
        → IsLowest (Fails content policy now) fault → IsLowest (Fails content policy now) other
        → fault ≡ other }
{}

/// The serializations of a token have one verdict: where one text is read as a token,
/// every text that spells the token and is not too long is judged alike, under every policy
/// ([`verify`](crate::verify)) and of every caller, who is asked the same
/// ([`judge`](crate::judge)). So is the JSON of members that say the token, where it is no longer
/// than a file: what [`print_flat`](json_form::print_flat) writes, and
/// [`print_general`](json_form::print_general) by its clause `back`, whatever else the unprotected
/// header has. Where this has nothing but `disclosures` and `kb_jwt`, as that of a compact text
/// has, so are the compact text of the parts, and the flattened and the general form that
/// `json_form` writes (RFC 9901 section 8); none of them is too long.
pub fn same_verdict()
    ensures spelled { (text other : List ℕ) (token : Token) → IsToken text token
        → Spells (trimmed other) token → is_too_long other ≡ false → AreJudgedAlike text other }
    ensures written { (text : List ℕ) (token : Token) (members : Members) → IsToken text token
        → IsJson token (json_text (object members))
        → length (json_text (object members)) ≤ file_max
        → AreJudgedAlike text (json_text (object members)) }
    ensures compact { (text : List ℕ) (token : Token) → IsToken text token
        → token.outer ≡ no_members → AreJudgedAlike text (compact token.parts) }
    ensures flat { (text : List ℕ) (token : Token) → IsToken text token
        → token.outer ≡ no_members → AreJudgedAlike text (json_text (flat_of token)) }
    ensures general { (text : List ℕ) (token : Token) → IsToken text token
        → token.outer ≡ no_members → AreJudgedAlike text (json_text (general_of token)) }
{}

/// Whatever is demanded, what is accepted has no more JSON values than what the issuer signed and
/// what the disclosures give: so it is under a policy, and where a caller checks the signatures,
/// who is shown no more with a question either.
pub fn accepted_is_bounded()
    ensures demanded { (text : List ℕ) (demands : Demands) (now : ℕ) (marked : Marked)
        → IsAcceptedFor text demands now marked → IsBounded text (strip marked) }
    ensures by_policy { (text : List ℕ) (policy : Policy) (now : ℕ) (payload : Tree)
        → IsAcceptedAs text policy now payload → IsBounded text payload }
    ensures by_caller { (text : List ℕ) (policy : Policy) (binding_algs : List Text) (now : ℕ)
        (answers : Answers) (payload : Tree)
        → IsAcceptedForAs text (caller_demands policy binding_algs answers) now payload
        → IsBounded text payload }
    ensures asked { (text : List ℕ) (demands : Demands) (now : ℕ) (answers : Answers)
        (question : Question) (payload : Tree)
        → AsksHolder text demands now answers question payload → IsBounded text payload }
{}

/// Where what a caller said to [`judge`](crate::judge) is true and nothing more is to be known, its
/// verdict is that by the meaning of the signatures: the issuer's, and those of the holder whom the
/// processed payload names. It accepts just what is accepted by them, and the lowest condition that
/// fails is the same, but that 9 is then 10 and 27 is 30: a key that the caller does not know makes
/// no good signature. By the meanings a text has one verdict, so they decide what `judge` answers.
/// The signature of a token is good where that of the question is, for the bytes of the question.
pub fn judged_by_meaning<I: Signatures, H: Signatures>()
    ensures accepted { (issuer : I) (holder : Tree → H)
        → AcceptedByMeaning (meanings (I.good issuer) (λ payload. H.good (holder payload))) }
    ensures refused { (issuer : I) (holder : Tree → H)
        → RefusedByMeaning (meanings (I.good issuer) (λ payload. H.good (holder payload))) }
    ensures one_verdict { (issuer : I) (holder : Tree → H)
        → OneVerdictByMeaning (meanings (I.good issuer) (λ payload. H.good (holder payload))) }
    ensures answered { (issuer : I) → AnsweredByMeaning (I.good issuer) }
{}

/// What a caller is asked stays asked for: who answers a question of [`judge`](crate::judge), about
/// the issuer's signature or the holder's, and calls again with the same text, policy, algorithms
/// and moment, is not told [`NotAsked`](crate::JudgeError::NotAsked), whatever the answer is.
pub fn answers_were_asked()
    ensures issuer { IssuerStaysAsked }
    ensures holder { HolderStaysAsked }
{}
