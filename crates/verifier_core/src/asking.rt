// The verdict on a token file, where a caller checks the signatures.
ghost use Rattle.std.specs.Prelude.{◌≡◌, ◌↔◌, ◌++◌, Some, codes, IsTrue, IsOk, IfOk, OnOk, IfSome, IfNone, IsErrOf, option_map};
ghost use Rattle.b64url_text.specs.NotBase64.{IsNotBase64};
ghost use Rattle.claim_tree.specs.View.{tree_of};
ghost use Rattle.refusals.specs.Lowest.{IsLowest};
ghost use Rattle.compact_form.specs.Views.{jwt_of};
ghost use Rattle.json_form.specs.Token.{IsToken};
ghost use Rattle.jws_part.specs.Header.{IsHeaderUnreadable, IsHeaderCritical};
ghost use Rattle.key_binding.specs.JudgedSteps.{rules_seen};
ghost use Rattle.verifier_core.specs.Verdict.{FailsFor};
ghost use Rattle.verifier_core.specs.Check.{IsUnopened, IsSigned, IsCounted, IsReadCounted, IsCountedWithin, IsReadWithin, IsUncounted};
ghost use Rattle.verifier_core.specs.Asking.{caller_demands as demands_of_caller, asked_rules, issuer_answer as issuer_answer_of, holder_answer as holder_answer_of, OnAccepted, OnRefused, OnAsksIssuer, OnAsksHolder, OnOpened, IsQuestion, IsAcceptedForAs, AreSaidGood, AsksIssuer, AsksHolder, WasAsked, IsAskedNext, IsDone, IsNeededAt, IsEarlyOrSigned, IsOpenedAs};
ghost use Rattle.verifier_core.specs.AskingSteps.{demands_in, fails_in, WasAskedIn, IsAskedNextIn, IsJudgedIn, IsTried, FailsAt};
ghost use Rattle.claim_tree.specs.Tree.{no_members};
ghost use Rattle.verifier_core.specs.declared.asking.JudgeError as unjudged;
ghost use Rattle.verifier_core.specs.declared.token_checking.VerifyError as failed;

use crate::check_shown::{Shown, check_shown};
use crate::rules::Demands;
use crate::verdict::{read_content, read_text};
use crate::{Issuers, Policy, Rules, VerifyError};
use b64url_text::{DecodeError, decode};
use claim_tree::{Tree, TreeMap};
use compact_form::JwtView;
use digest_index::Steps;
use disclosure::{DisclosureReader, HashAlg};
use json_form::TokenText;
use jws_part::{Header, HeaderError, read_header};
use key_binding::{BindingRules, Caller, Holders, SignatureAnswer};
use refusals::{Condition, Fault};
use sd_outside::{ByteBox, NoMemory, TextBox, TextList};
use std::alloc::Global;

/// What the caller has said of the signatures of a token, one after another as it was asked.
#[derive(Clone, Copy, Debug, PartialEq, Eq)]
pub enum Answers {
    /// Nothing yet.
    Nothing,
    /// This, of the issuer's signature.
    Issuer(SignatureAnswer),
    /// That the issuer's signature is good, and this of the signature of the key binding token.
    Holder(SignatureAnswer),
}

/// A signature that the caller is to check.
#[derive(Debug, Drop)]
pub struct Question {
    /// What is signed: the head and the body of the JWT with the full stop
    /// between them (RFC 7515 section 5.2).
    pub text: TextBox,
    /// The signature.
    pub signature: ByteBox,
    /// The header, which names the algorithm, and the key where it names one.
    pub header: Header,
}

/// How far a token is judged.
#[derive(Debug, Drop)]
pub enum Judgement {
    /// It is accepted, with this processed payload.
    Accepted(Tree),
    /// It is refused, by the lowest condition that fails.
    Refused(Fault),
    /// The caller is to say whether the issuer's signature is good.
    AsksIssuer(Question),
    /// The caller is to say whether the signature of the key binding token is good, under the key
    /// that the claim `cnf` of the processed payload names (RFC 7800 section 3).
    AsksHolder(Question, Tree),
}

/// Why a token is not judged.
#[derive(Clone, Copy, Debug, PartialEq, Eq)]
pub enum JudgeError {
    /// There was no memory for it.
    Memory,
    /// What was said last was not to be known: a lower condition fails, or
    /// there is no such signature.
    NotAsked,
}

impl From<NoMemory> for JudgeError {
    ghost use Rattle.verifier_core.specs.declared.asking.JudgeError.TheVariants.{Memory};

    ghost from_gives = { λ _ e. e ≡ Memory };

    fn from(_: NoMemory) -> Self {
        JudgeError::Memory
    }
}

// What is asked of the token file, where the caller says whether the signatures are good.
fn caller_demands(case: Case<'_>) -> Demands<'_>
    ensures { result ≡ demands_in case.entry }
{
    let policy = case.policy;
    let issuers = Issuers::Caller(Caller {
        algs: &policy.algs,
        answer: issuer_answer(case.answers),
    });
    Demands {
        rules: Rules {
            issuers,
            typ: policy.typ.as_ref(),
        },
        iss: policy.iss.as_ref(),
        require: &policy.require,
        skew: policy.skew,
        binding: binding_rules(policy, case.binding_algs, case.answers),
    }
}

// What is asked of a key binding token, where one is asked for.
fn binding_rules<'a>(
    policy: &'a Policy,
    algs: &'a TextList,
    answers: Answers,
) -> Option<BindingRules<'a>>
    ensures { option_map rules_seen result
        ≡ option_map (asked_rules algs.now (holder_answer_of answers)) policy.now.binding }
{
    let Some(binding) = &policy.binding else {
        return None;
    };
    Some(BindingRules {
        holders: Holders::Caller(Caller {
            algs,
            answer: holder_answer(answers),
        }),
        aud: &binding.aud,
        nonce: &binding.nonce,
        max_age: binding.max_age,
    })
}

fn issuer_answer(answers: Answers) -> Option<SignatureAnswer>
    ensures { result ≡ issuer_answer_of answers }
{
    match answers {
        Answers::Nothing => None,
        Answers::Issuer(answer) => Some(answer),
        Answers::Holder(_) => Some(SignatureAnswer::Good),
    }
}

fn holder_answer(answers: Answers) -> Option<SignatureAnswer>
    ensures { result ≡ holder_answer_of answers }
{
    match answers {
        Answers::Holder(answer) => Some(answer),
        _ => None,
    }
}

// What is judged, and what was said so far.
#[derive(Clone, Copy)]
struct Case<'a> {
    text: &'a [u8],
    policy: &'a Policy,
    binding_algs: &'a TextList,
    now: u64,
    answers: Answers,
}

// Whether what was said last was to be known, where the condition of this
// number is the lowest that fails.
fn is_needed_at(answers: Answers, number: u8) -> bool
    ensures { IsTrue result ↔ IsNeededAt answers number }
{
    match answers {
        Answers::Nothing => true,
        Answers::Issuer(_) => number >= 9,
        Answers::Holder(_) => number == 27 || number >= 30,
    }
}

// The refusal, unless something was said that was not to be known.
fn refused(case: Case<'_>, fault: Fault) -> Result<Judgement, JudgeError>
    requires lowest { IsLowest (fails_in case) fault }
    requires needed { IsNeededAt case.answers fault.number → WasAskedIn case }
    requires done { IsAskedNextIn case → ⊥ }
    ensures { IsJudgedIn case.entry result }
{
    if is_needed_at(case.answers, fault.number) {
        Ok(Judgement::Refused(fault))
    } else {
        Err(JudgeError::NotAsked)
    }
}

// The head and the body of a JWT with the full stop between them.
fn signed_text(alloc: Global, signed: JwtView<'_>) -> Result<TextBox, NoMemory>
    ensures { IfOk result
        (λ text. text
        ≡ (jwt_of signed.entry).protected ++ (codes "." ++ (jwt_of signed.entry).payload)) }
{
    let mut text = String::with_capacity(alloc, signed.protected.len())?;
    text.push_str(signed.protected)?;
    text.push('.')?;
    text.push_str(signed.payload)?;
    Ok(TextBox::from_string(text))
}

/// The question about the signature of a JWT whose header is read, where the
/// text of its signature is that of some bytes.
///
/// `outer` are the unprotected members of the header (RFC 7515 section 7.2.1),
/// of which a compact text has none.
pub fn question_on(
    alloc: Global,
    signed: JwtView<'_>,
    outer: &TreeMap,
) -> Result<Option<Question>, NoMemory>
    requires readable { IsHeaderUnreadable (jwt_of signed).protected outer.now → ⊥ }
    requires uncritical { IsHeaderCritical (jwt_of signed).protected outer.now → ⊥ }
    ensures question { IfOk result (λ q. IfSome q (IsQuestion (jwt_of signed.entry) outer.now)) }
    ensures none { IfOk result (λ q. IfNone q (IsNotBase64 (jwt_of signed.entry).signature)) }
{
    let signature = match decode(alloc, signed.signature.as_bytes()) {
        Ok(signature) => signature,
        Err(DecodeError::Memory) => return Err(NoMemory),
        Err(DecodeError::NotBase64) => return Ok(None),
    };
    let header = match read_header(alloc, signed.protected, outer) {
        Ok(header) => header,
        Err(HeaderError::Memory) => return Err(NoMemory),
        Err(HeaderError::Unreadable) => unreachable!(),
        Err(HeaderError::Critical) => unreachable!(),
    };
    Ok(Some(Question {
        text: signed_text(alloc, signed)?,
        signature,
        header,
    }))
}

// Asks for the issuer's signature, unless it was said not to be good.
fn ask_issuer(
    case: Case<'_>,
    token: &TokenText<'_>,
    question: Question,
    fault: Fault,
) -> Result<Judgement, JudgeError>
    requires bad { FailsAt case token.now 10 fault }
    requires question { IsQuestion token.now.parts.signed token.now.outer question }
    ensures { IsJudgedIn case.entry result }
{
    match case.answers {
        Answers::Nothing => Ok(Judgement::AsksIssuer(question)),
        _ => refused(case, fault),
    }
}

// What is answered where the text of the issuer's signature is that of no bytes.
fn on_no_signature(
    case: Case<'_>,
    token: &TokenText<'_>,
    fault: Fault,
) -> Result<Judgement, JudgeError>
    requires bad { FailsAt case token.now 10 fault }
    requires none { IsNotBase64 token.now.parts.signed.signature }
    ensures { IsJudgedIn case.entry result }
{
    match case.answers {
        Answers::Nothing => Ok(Judgement::Refused(fault)),
        _ => Err(JudgeError::NotAsked),
    }
}

// What is answered where one of the conditions 4 to 13 is the lowest that fails.
fn on_content(
    alloc: Global,
    case: Case<'_>,
    token: &TokenText<'_>,
    fault: Fault,
) -> Result<Judgement, JudgeError>
    requires token { IsToken case.text.now token.now }
    requires lowest { IsLowest (fails_in case) fault }
    requires early { IsEarlyOrSigned token.now (demands_in case).rules fault }
    requires unopened { IsUnopened fault }
    ensures { IsJudgedIn case.entry result }
{
    if fault.number != 10 {
        return refused(case, fault);
    }
    let view = token.view();
    match question_on(alloc, view.signed(), view.outer())? {
        Some(question) => ask_issuer(case, token, question, fault),
        None => on_no_signature(case, token, fault),
    }
}

// Asks for the signature of the key binding token, unless it was said not to be good.
fn ask_holder(
    case: Case<'_>,
    token: &TokenText<'_>,
    binding: JwtView<'_>,
    question: Question,
    payload: Tree,
    fault: Fault,
) -> Result<Judgement, JudgeError>
    requires bad { FailsAt case token.now 30 fault }
    requires sent { token.now.parts.binding ≡ Some (jwt_of binding) }
    requires signed { IsSigned token.now.parts.signed token.now.outer (demands_in case).rules }
    requires opened { IsOpenedAs token.now (tree_of payload) }
    requires question { IsQuestion (jwt_of binding) no_members question }
    ensures { IsJudgedIn case.entry result }
{
    match case.answers {
        Answers::Holder(_) => refused(case, fault),
        _ => Ok(Judgement::AsksHolder(question, payload)),
    }
}

// What is answered where the text of the signature of the key binding token is that of no bytes.
fn on_no_binding_signature(
    case: Case<'_>,
    token: &TokenText<'_>,
    binding: JwtView<'_>,
    fault: Fault,
) -> Result<Judgement, JudgeError>
    requires bad { FailsAt case token.now 30 fault }
    requires sent { token.now.parts.binding ≡ Some (jwt_of binding) }
    requires signed { IsSigned token.now.parts.signed token.now.outer (demands_in case).rules }
    requires none { IsNotBase64 (jwt_of binding).signature }
    ensures { IsJudgedIn case.entry result }
{
    match case.answers {
        Answers::Holder(_) => Err(JudgeError::NotAsked),
        _ => Ok(Judgement::Refused(fault)),
    }
}

// What is answered where one of the conditions 22 to 38 is the lowest that fails.
fn on_shown(
    alloc: Global,
    case: Case<'_>,
    token: &TokenText<'_>,
    payload: Tree,
    fault: Fault,
) -> Result<Judgement, JudgeError>
    requires token { IsToken case.text.now token.now }
    requires lowest { IsLowest (fails_in case) fault }
    requires signed { IsSigned token.now.parts.signed token.now.outer (demands_in case).rules }
    requires opened { IsOpenedAs token.now (tree_of payload) }
    ensures { IsJudgedIn case.entry result }
{
    if fault.number != 30 {
        return refused(case, fault);
    }
    let view = token.view();
    let Some(binding) = view.binding() else {
        unreachable!()
    };
    match question_on(alloc, binding, &TreeMap::new(alloc))? {
        Some(question) => ask_holder(case, token, binding, question, payload, fault),
        None => on_no_binding_signature(case, token, binding, fault),
    }
}

// What is answered where no condition fails.
fn accepted(case: Case<'_>, token: &TokenText<'_>, payload: Tree) -> Result<Judgement, JudgeError>
    requires token { IsToken case.text.now token.now }
    requires signed { IsSigned token.now.parts.signed token.now.outer (demands_in case).rules }
    requires accepted { IsAcceptedForAs case.text.now (demands_in case) case.now (tree_of payload) }
    ensures { IsJudgedIn case.entry result }
{
    let Answers::Holder(_) = case.answers else {
        return Ok(Judgement::Accepted(payload));
    };
    if case.policy.binding.is_none() {
        return Err(JudgeError::NotAsked);
    }
    Ok(Judgement::Accepted(payload))
}

// The fault of a token that is refused.
fn fault_of(error: VerifyError) -> Result<Fault, NoMemory>
    ensures { IfOk result (λ fault. error ≡ failed.VerifyError.Fault fault) }
{
    match error {
        VerifyError::Fault(fault) => Ok(fault),
        VerifyError::Memory => Err(NoMemory),
    }
}

// The judgement of a token whose content is read, and which is opened to this payload or refused.
fn judge_opened(
    alloc: Global,
    case: Case<'_>,
    token: &TokenText<'_>,
    hash: HashAlg,
    opened: Result<Tree, VerifyError>,
) -> Result<Judgement, JudgeError>
    requires tried { IsTried case.text.now (demands_in case) token.now hash opened }
    ensures judged { IsJudgedIn case.entry result }
    ensures opened { IfOk result (λ j. OnOpened j (IsOk opened)) }
{
    let payload = match opened {
        Ok(payload) => payload,
        Err(error) => return refused(case, fault_of(error)?),
    };
    let shown = Shown {
        token,
        payload: &payload,
        hash,
    };
    match check_shown(alloc, shown, &caller_demands(case), case.now) {
        Ok(()) => accepted(case, token, payload),
        Err(error) => on_shown(alloc, case, token, payload, fault_of(error)?),
    }
}

// The judgement of a token that is read.
fn judge_token(
    alloc: Global,
    case: Case<'_>,
    token: &TokenText<'_>,
    steps: &mut Steps,
) -> Result<Judgement, JudgeError>
    requires token { IsToken case.text.now token.now }
    ensures judged { IsJudgedIn case.entry result }

    // the look-ups
    ensures counted { IfOk result (λ j. OnOpened j (IsCounted token.now steps.old steps.new)) }
    ensures none_yet { IfOk result (λ j. OnAsksIssuer j (λ _. steps.new ≡ steps.old)) }
    ensures within { IsCountedWithin token.now steps.old steps.new }
    ensures uncounted { IsUncounted (fails_in case.entry) steps.old steps.new }
{
    let demands = caller_demands(case);
    match read_content(alloc, &mut DisclosureReader::new(alloc), token, &demands) {
        Ok(content) => {
            let hash = content.hash();
            let opened = content.open_payload(alloc, steps);
            judge_opened(alloc, case, token, hash, opened)
        }
        Err(error) => on_content(alloc, case, token, fault_of(error)?),
    }
}

/// Verifies a token file as [`verify`](crate::verify) does, but asks the caller
/// whether its signatures are good: for algorithms whose keys are not held
/// here, as those of elliptic curves (RFC 7518 section 3.4, RFC 8037).
///
/// The caller calls with [`Answers::Nothing`], and again with what it found out where it
/// is asked: first of the issuer's signature, when the conditions 1 to 8 do not fail,
/// then of that of the key binding token, when the conditions up to 26 and 28 and 29 do
/// not. Each call judges the text anew and keeps nothing. The keys of the policy are not
/// looked at; its `algs` are the algorithms that are taken of the issuer, `binding_algs`
/// those of the holder (of which see [`Caller`]). A policy file without `algs` allows HS256
/// alone, so a token of a public key is then refused by condition 7. `steps` counts the look-ups
/// of digests.
///
/// The caller answers for its word: it has checked the signature over the bytes of the question and
/// no others, with a key that serves the algorithm that the header names, and that it trusts; for
/// the holder with the key of the claim `cnf` in the payload of the question. Where its word is
/// true, the verdict is that by the meaning of the signatures
/// ([`judged_by_meaning`](crate::laws::judged_by_meaning)).
pub fn judge(
    alloc: Global,
    text: &[u8],
    policy: &Policy,
    binding_algs: &TextList,
    now: u64,
    answers: Answers,
    steps: &mut Steps,
) -> Result<Judgement, JudgeError>
    ensures accepted { IfOk result
        (λ j. OnAccepted j
        (IsAcceptedForAs text.now (demands_of_caller policy.now binding_algs.now answers)
        now)) }
    ensures good { IfOk result
        (λ j. OnAccepted j
        (λ _. AreSaidGood (demands_of_caller policy.now binding_algs.now answers) answers)) }
    ensures refused { IfOk result
        (λ j. OnRefused j
        (IsLowest
        (FailsFor text.now (demands_of_caller policy.now binding_algs.now answers) now))) }
    ensures asks_issuer { IfOk result
        (λ j. OnAsksIssuer j
        (AsksIssuer text.now (demands_of_caller policy.now binding_algs.now answers) now
        answers)) }
    ensures asks_holder { IfOk result
        (λ j. OnAsksHolder j
        (AsksHolder text.now (demands_of_caller policy.now binding_algs.now answers) now
        answers)) }

    // nothing was said that was not to be known, and where it is done, nothing more is
    ensures needed { OnOk result
        (WasAsked text.now (demands_of_caller policy.now binding_algs.now answers) now answers) }
    ensures done { IfOk result
        (λ j. IsDone j
        → IsAskedNext text.now (demands_of_caller policy.now binding_algs.now answers) now
        answers → ⊥) }
    ensures not_asked { IsErrOf result unjudged.JudgeError.NotAsked
        → WasAsked text.now (demands_of_caller policy.now binding_algs.now answers) now answers
        → ⊥ }

    // the look-ups
    ensures counted { IfOk result (λ j. OnOpened j (IsReadCounted text.now steps.old steps.new)) }
    ensures none_yet { IfOk result (λ j. OnAsksIssuer j (λ _. steps.new ≡ steps.old)) }
    ensures within { IsReadWithin text.now steps.old steps.new }
    ensures uncounted { IsUncounted
        (FailsFor text.now (demands_of_caller policy.now binding_algs.now answers) now) steps.old
        steps.new }
{
    let case = Case {
        text,
        policy,
        binding_algs,
        now,
        answers,
    };
    match read_text(alloc, text) {
        Ok(token) => judge_token(alloc, case, &token, steps),
        Err(error) => refused(case, fault_of(error)?),
    }
}
