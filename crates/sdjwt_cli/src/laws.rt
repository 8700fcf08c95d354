//! What the definitions of a run say together. Each law holds for every value.
ghost use Rattle.std.specs.Prelude.{◌≡◌, ◌⊎◌, ◌+◌, ◌≤◌, ℕ, List, Some, length};
ghost use Rattle.std.specs.Io.KnownBytes.{Appends};
ghost use Rattle.sd_outside.specs.Causes.{Rose};
ghost use Rattle.sd_outside.specs.declared.status.Status.{Status};
ghost use Rattle.sd_outside.specs.Lists.{StandsAt, In};
ghost use Rattle.claim_tree.specs.Tree.{Tree};
ghost use Rattle.sdjwt_cli.specs.Command.{Command, command_of, NamedFile, files_of};
ghost use Rattle.cli_parts.specs.Replies.{Reply, gives};
ghost use Rattle.sdjwt_cli.specs.Answers.{Answers, AreTold};
ghost use Rattle.sdjwt_cli.specs.declared.form.Form.{Form};
ghost use Rattle.sdjwt_cli.specs.Converting.{HasRoom, Converts};
ghost use Rattle.cli_parts.specs.Outside.{Outside};
ghost use Rattle.sdjwt_cli.specs.Run.{Ends};
ghost use Rattle.sdjwt_cli.specs.Presented.{PresentedOverFiles, PresentedOverRuns};
ghost use Rattle.verifier_core.specs.Meanings.{meanings};
ghost use Rattle.sdjwt_cli.specs.AnySigner.{any_signer, HasShortHeader, ShortFits};
ghost use Rattle.sdjwt_cli.specs.PresentedValues.{PresentedByAnyone, PresentedToCaller, PresentedOverValues};
ghost use Rattle.sdjwt_cli.specs.NoForgery.{OfIssued, ShowsIssued, ShowsIssuedByPolicy};
ghost use Rattle.sdjwt_cli.specs.JudgedIssued.{ShowsIssuedToCaller};

use claim_tree::Path;
use hmac_sign::Signatures;

/// Each file of a command is named by its word, counted behind the command from 0.
pub fn files_are_words()
    ensures { (words : List (List ℕ)) (command : Command) → command_of words ≡ Some command
        → (wanted : NamedFile) → In wanted (files_of command)
        → StandsAt words (wanted.word + 1) wanted.name }
{}

/// The definition of a command has at most one verdict over its files.
pub fn one_answer()
    ensures { (command : Command) (files : List (List ℕ)) (now : ℕ) (v w : Reply)
        → Answers command files now v → Answers command files now w → v ≡ w }
{}

/// Where the cabinet tells the files of a command, its definition gives an answer, and neither the
/// cabinet nor `out` failed, that answer was written, or there was no memory.
pub fn completes()
    ensures { (words : List (List ℕ)) (before after : Outside) (now : ℕ) (status : Status)
        (command : Command) (files : List (List ℕ)) (answer : List ℕ)
        → command_of words ≡ Some command → AreTold before.holds command files
        → Answers command files now (gives answer) → (Rose before.faults after.faults → ⊥)
        → (Rose before.out.faults after.out.faults → ⊥) → Ends words before after now status
        → ((status ≡ Status.Done) × Appends before.out.written after.out.written answer)
        ⊎ (status ≡ Status.Memory) }
{}

/// What `convert` writes in a form is converted to this form as it stands.
pub fn converted_again()
    ensures { (form : Form) (file answer : List ℕ) (read : Converts form file answer)
        → HasRoom form read.token → Converts form answer answer }
{}

/// What is presented of an issued token, whoever signs it and whoever signs the key binding token,
/// is accepted with what was asked for, where holder and verifier trust these signers and what is
/// demanded suits: of each text that is read as parts that are issued for an order, a holder with
/// this rule of consent refuses nothing, as long as its key binding token fits ([`short_fits`]),
/// and each text that is read as what it presents is accepted with the claims without the hidden
/// places that lead to none of the wanted ones.
/// Which signatures are good is one meaning of the issuer's, and another of the holder's, and each
/// is made by an algorithm of any name. A key set trusts a signer whose good signatures are those
/// of a key in it; a caller that checks signatures itself trusts one whose signature it said to be
/// good.
pub fn presented_by_anyone<I: Signatures, H: Signatures, F: Fn(&Path) -> bool>()
    ensures { (issuer : I) (holder : H) (rule : F) (alg binding_alg : List ℕ)
        → PresentedByAnyone F.Fn rule
        (any_signer alg (I.good issuer)) (any_signer binding_alg (H.good holder)) }
{}

/// A key binding token fits behind what is issued, by whatever algorithm it is signed, where its
/// header has at most 700 bytes, a signature from 1 to 2,048, and audience and nonce at most 256
/// each. So short is the header where the name of the algorithm has at most 100 bytes, whatever
/// they are.
pub fn short_fits<H: Signatures>()
    ensures fits { (holder : H) (alg : List ℕ) → ShortFits (any_signer alg (H.good holder)) }
    ensures named { (alg : List ℕ) → length alg ≤ 100 → HasShortHeader alg }
{}

/// What [`presented_by_anyone`] says, where a caller checks the signatures, each by a meaning that
/// the good ones of the signer meet: what is presented is accepted by these meanings; so
/// [`judge`](verifier_core::judge) accepts it, with just these claims, where what the caller said
/// is true and it is asked no more.
pub fn presented_to_caller<
    I: Signatures,
    H: Signatures,
    C: Signatures,
    D: Signatures,
    F: Fn(&Path) -> bool,
>()
    ensures { (issuer : I) (holder : H) (check : C) (check_holder : Tree → D) (rule : F)
        (alg binding_alg : List ℕ)
        → PresentedToCaller F.Fn rule
        (any_signer alg (I.good issuer)) (any_signer binding_alg (H.good holder))
        (meanings (C.good check) (λ payload. D.good (check_holder payload))) }
{}

/// What [`presented_by_anyone`] says, where the keys are held and the policy suits: the issuer
/// signs with a key that holder and verifier find, and the holder with HS256.
pub fn presented_values<F: Fn(&Path) -> bool>()
    ensures { (rule : F) → PresentedOverValues F.Fn rule }
{}

/// The same over files and over runs: over the line that `issue` gives, `present` refuses nothing,
/// and whatever it gives, `verify` prints these claims, and does nothing else.
pub fn presented()
    ensures over_files { PresentedOverFiles }
    ensures over_runs { PresentedOverRuns }
{}

/// What is accepted was issued: a text that is accepted with the signed part of an
/// issued token, whatever is demanded and at any moment, has some of the disclosures
/// that were issued with it, in any order, with those of all hidden places above,
/// and shows the claims without the places of the others. So it is under any policy.
/// The token is issued with whatever signatures, by an algorithm of any name. The
/// premise is that no disclosure that was not issued has the digest of one that was,
/// or of a decoy.
pub fn no_forgery<S: Signatures>()
    ensures demanded { (signer : S) (alg : List ℕ) → OfIssued alg (S.good signer) ShowsIssued }
    ensures by_policy { (signer : S) (alg : List ℕ)
        → OfIssued alg (S.good signer) ShowsIssuedByPolicy }
{}

/// So it is of what [`judge`](verifier_core::judge) accepts, where a caller checks the signatures,
/// whatever it says of them: the payload that it is given shows what was issued.
pub fn no_forgery_to_caller<S: Signatures>()
    ensures { (signer : S) (alg : List ℕ) → OfIssued alg (S.good signer) ShowsIssuedToCaller }
{}
