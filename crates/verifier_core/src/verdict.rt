// The verdict on a token file under a policy.
ghost use Rattle.std.specs.Prelude.{◌≡◌, ◌≢◌, ◌<◌, ◌-◌, ◌^◌, ℕ, false, List, length, OnOk, IfOk, IfErr};
ghost use Rattle.claim_tree.specs.View.{tree_of};
ghost use Rattle.marked_tree.specs.Marked.{Marked as SeenMarked, strip as strip_of};
ghost use Rattle.marked_tree.specs.View.{marked_of};
ghost use Rattle.json_form.specs.Token.{IsToken, IsTextRefused};
ghost use Rattle.verifier_core.specs.Verdict.{Fails, FailsFor, IsAccepted, IsAcceptedFor, IsChecked, IsBindingMissing};
ghost use Rattle.verifier_core.specs.Asking.{IsEarlyOrSigned};
ghost use Rattle.verifier_core.specs.Verdicts.{IsAcceptedAs, IsBounded};
ghost use Rattle.refusals.specs.Lowest.{IsLowest};
ghost use Rattle.compact_form.specs.Trim.{trimmed, is_json as is_json_test};
ghost use Rattle.verifier_core.specs.Check.{OnFault, IsUnopened, FailsAsCompact, IsContent, OfToken, IsRead, IsOpening, IsVerdict, IsVerdictFor, IsSigned};

use crate::check_shown::{Shown, check_shown, is_binding_missing};
use crate::check_signed::fails;
use crate::rules::Demands;
use crate::{Content, Policy, VerifyError};
use claim_tree::Tree;
use digest_index::Steps;
use disclosure::DisclosureReader;
use json_form::{TokenError, TokenText};
use marked_tree::{Marked, strip};
use refusals::Condition;
use std::alloc::Global;

/// The contents of an accepted token.
#[derive(Debug, Drop)]
pub struct Accepted {
    /// The processed payload.
    pub payload: Tree,
    /// The processed payload, in which each node that a disclosure shows has the number of that
    /// disclosure.
    pub marked: Marked,
}

// The conditions 1 to 3.
pub(crate) fn read_text<'a>(alloc: Global, text: &'a [u8]) -> Result<TokenText<'a>, VerifyError>
    ensures ok { IfOk result (IsToken text.now) }
    ensures refused { IfErr result (λ e. OnFault e (IsTextRefused text.now)) }
    ensures no_memory { is_json_test (trimmed text.now) ≡ false → result ≢ Err VerifyError.Memory }
{
    match TokenText::read(alloc, text) {
        Ok(token) => Ok(token),
        Err(TokenError::Memory) => Err(VerifyError::Memory),
        Err(TokenError::Fault(fault)) => Err(VerifyError::Fault(fault)),
    }
}

// The conditions 4 to 13 of a token that is read.
pub(crate) fn read_content(
    alloc: Global,
    reader: &mut DisclosureReader,
    token: &TokenText<'_>,
    demands: &Demands<'_>,
) -> Result<Content, VerifyError>
    requires few { length token.now.parts.disclosures < 2 ^ 32 - 1 }
    ensures sent { OnOk result (IsBindingMissing demands.now token.now.parts → ⊥) }
    ensures content { IfOk result (IsContent token.now demands.now.rules) }
    ensures refused { (text : List ℕ) (now : ℕ) → IsToken text token.now
        → IfErr result (λ e. OnFault e (IsLowest (FailsFor text demands.now now))) }
    ensures unopened { IfErr result (λ e. OnFault e IsUnopened) }
    ensures signed { OnOk result
        (IsSigned token.now.parts.signed token.now.outer demands.now.rules) }
    ensures early { IfErr result (λ e. OnFault e (IsEarlyOrSigned token.now demands.now.rules)) }
{
    let view = token.view();
    if is_binding_missing(&view, demands) {
        return Err(fails(Condition::BindingMissing));
    }
    Content::read(alloc, reader, &view, &demands.rules)
}

// The conditions 1 to 13 of a token file.
fn read<'a>(
    alloc: Global,
    reader: &mut DisclosureReader,
    text: &'a [u8],
    demands: &Demands<'_>,
) -> Result<(TokenText<'a>, Content), VerifyError>
    ensures read { IfOk result (λ r. IsRead text.now demands.now r.0 r.1) }
    ensures refused { (now : ℕ)
        → IfErr result (λ e. OnFault e (IsLowest (FailsFor text.now demands.now now))) }
    ensures no_memory { FailsAsCompact text.now → result ≢ Err VerifyError.Memory }
{
    let token = match read_text(alloc, text) {
        Ok(token) => token,
        Err(error) => return Err(error),
    };
    match read_content(alloc, reader, &token, demands) {
        Ok(content) => Ok((token, content)),
        Err(error) => Err(error),
    }
}

// The result of opening a token: its processed payload, with or without its marks.
trait Opened: Drop {
    // Whether it shows the processed payload that has these marks.
    ghost Shows: { Self → SeenMarked → Type 0 };

    // Judges the token that was read by the conditions 14 to 21.
    fn open(content: Content, alloc: Global, steps: &mut Steps) -> Result<Self, VerifyError>
        ensures checked { OfToken content
            (λ token rules. IfOk result
            (λ opened.
            (marked : SeenMarked) × IsChecked token rules marked × Shows opened marked)) }
        ensures opened { OfToken content
            (λ token rules. IsOpening token rules result steps.old steps.new) };

    // The processed payload.
    fn payload(&self) -> &Tree
        ensures { (marked : SeenMarked) → Shows self.now marked
            → tree_of result.now ≡ strip_of marked };
}

impl Opened for Accepted {
    ghost Shows = { λ accepted marked.
        (marked_of accepted.marked ≡ marked) × (tree_of accepted.payload ≡ strip_of marked) };

    fn open(content: Content, alloc: Global, steps: &mut Steps) -> Result<Accepted, VerifyError> {
        let marked = match content.open(alloc, steps) {
            Ok(marked) => marked,
            Err(error) => return Err(error),
        };
        match strip(alloc, &marked) {
            Ok(payload) => Ok(Accepted { payload, marked }),
            Err(_) => Err(VerifyError::Memory),
        }
    }

    fn payload(&self) -> &Tree {
        &self.payload
    }
}

impl Opened for Tree {
    ghost Shows = { λ payload marked. tree_of payload ≡ strip_of marked };

    fn open(content: Content, alloc: Global, steps: &mut Steps) -> Result<Tree, VerifyError> {
        content.open_payload(alloc, steps)
    }

    fn payload(&self) -> &Tree {
        self
    }
}

// The verdict on a token file, with the result of opening the token.
fn judged<T: Opened>(
    alloc: Global,
    reader: &mut DisclosureReader,
    text: &[u8],
    demands: &Demands<'_>,
    now: u64,
    steps: &mut Steps,
) -> Result<T, VerifyError>
    ensures accepted { IfOk result
        (λ opened. (marked : SeenMarked) × IsAcceptedFor text.now demands.now now marked
        × T.Shows opened marked) }
    ensures refused { IfErr result (λ e. OnFault e (IsLowest (FailsFor text.now demands.now now))) }
    ensures verdict { IsVerdictFor text.now demands.now now result steps.old steps.new }
{
    let (token, content) = match read(alloc, reader, text, demands) {
        Ok(read) => read,
        Err(error) => return Err(error),
    };
    let hash = content.hash();
    let opened = match T::open(content, alloc, steps) {
        Ok(opened) => opened,
        Err(error) => return Err(error),
    };
    let shown = Shown {
        token: &token,
        payload: opened.payload(),
        hash,
    };
    if let Err(error) = check_shown(alloc, shown, demands, now) {
        return Err(error);
    }
    Ok(opened)
}

/// Verifies a token file as RFC 9901 section 7.3 says, at the time `now` in seconds since 1970. The
/// token is in the compact serialization or, if it begins with `{`, in a JSON serialization
/// (section 8).
///
/// The conditions 1 to 38 are judged in the order of their numbers. If one fails, the error is the
/// first that fails, with its least place; otherwise only a lack of memory is an error. If the
/// policy does not ask for key binding, a key binding token is only checked for its syntax. `steps`
/// counts the look-ups of digests.
pub fn verify(
    alloc: Global,
    text: &[u8],
    policy: &Policy,
    now: u64,
    steps: &mut Steps,
) -> Result<Accepted, VerifyError>
    ensures accepted { IfOk result (λ a. IsAccepted text.now policy.now now (marked_of a.marked)) }
    ensures payload { IfOk result (λ a. tree_of a.payload ≡ strip_of (marked_of a.marked)) }
    ensures bounded { IfOk result (λ a. IsBounded text.now (tree_of a.payload)) }
    ensures refused { IfErr result (λ e. OnFault e (IsLowest (Fails text.now policy.now now))) }
    ensures verdict { IsVerdict text.now policy.now now result steps.old steps.new }
{
    let mut reader = DisclosureReader::new(alloc);
    judged(alloc, &mut reader, text, &policy.demands(), now, steps)
}

/// Verifies a token file as [`verify`] does, and returns only the processed payload, without marks.
pub fn verify_payload(
    alloc: Global,
    text: &[u8],
    policy: &Policy,
    now: u64,
    steps: &mut Steps,
) -> Result<Tree, VerifyError>
    ensures accepted { IfOk result
        (λ payload. IsAcceptedAs text.now policy.now now (tree_of payload)) }
    ensures bounded { IfOk result (λ payload. IsBounded text.now (tree_of payload)) }
    ensures refused { IfErr result (λ e. OnFault e (IsLowest (Fails text.now policy.now now))) }
    ensures verdict { IsVerdict text.now policy.now now result steps.old steps.new }
{
    let mut reader = DisclosureReader::new(alloc);
    verify_payload_with(alloc, &mut reader, text, policy, now, steps)
}

/// Verifies a token file as [`verify_payload`] does, with a reader that the caller keeps: it reads
/// many tokens in the same memory.
pub fn verify_payload_with(
    alloc: Global,
    reader: &mut DisclosureReader,
    text: &[u8],
    policy: &Policy,
    now: u64,
    steps: &mut Steps,
) -> Result<Tree, VerifyError>
    ensures accepted { IfOk result
        (λ payload. IsAcceptedAs text.now policy.now now (tree_of payload)) }
    ensures bounded { IfOk result (λ payload. IsBounded text.now (tree_of payload)) }
    ensures refused { IfErr result (λ e. OnFault e (IsLowest (Fails text.now policy.now now))) }
    ensures verdict { IsVerdict text.now policy.now now result steps.old steps.new }
{
    judged(alloc, reader, text, &policy.demands(), now, steps)
}
