//! Presenting where someone else checks the issuer's signature and makes the holder's: first the
//! question about the one, then the text that the other is over, and then the presentation.
//!
//! Nothing is kept between the calls. Each judges the token anew, so all are given the same order,
//! token and moment. The order has no keys, as `IsUnsignedPresentFile` says. What is said of the
//! issuer's signature is a number, as where a token is judged: 0 where nothing is said yet, 1 where
//! there is no key for it, 2 where it is bad, 3 where it is good. What is said of it unasked is not
//! looked at.
ghost use Rattle.std.specs.Prelude.{◌≡◌, ◌≢◌, ◌<◌, ◌⊎◌, [], None, Some, length, IfOk, IfErr, string_bytes};
ghost use Rattle.cli_parts.specs.Lines.{line};
ghost use Rattle.cli_parts.specs.Stops.{OnRefused, OnUnreadable, NotRefused, NotUnread, NotUnreadable};
ghost use Rattle.cli_parts.specs.Telling.{TellsFileFault};
ghost use Rattle.compact_form.specs.Compact.{AreWords, compact};
ghost use Rattle.holder_core.specs.PresentRefusal.{present_refusal_text};
ghost use Rattle.holder_core.specs.ToSign.{AsksIssuer, AreUnsignedWords, OnAsksIssuer, OnToSign, OnPresented};
ghost use Rattle.holder_core.specs.UnsignedPresent.{IsUnsignedPresentFile, IsUnsignedPresentRefused};
ghost use Rattle.holder_core.specs.declared.errors.PresentError.TheVariants.{Memory, SignFailed};
ghost use Rattle.sdjwt_c.specs.Handed.{HandsBy};
ghost use Rattle.sdjwt_c.specs.Numbers.{answer_numbered};
ghost use Rattle.sdjwt_c.specs.Presenting.{IsUnsignedOf, IsSentAlone, IsUnsentFor, IsUnsaid, StepsFor, AsksToPresent, IsLineWith, IsOverlongLine, GivesFor, RefusesOrIsLong, GivesPresented, RefusesPresented, SignsPresented, HandsStepBy};
ghost use Rattle.sdjwt_c.specs.PresentingSteps.{OnStep, IsHandedStep};
ghost use Rattle.selection_core.specs.Never.{Judges};

use crate::answer::{hand, leave};
use crate::question::issuer_line;
use crate::said::answer_of;
use crate::verdict::{ASKS, give_as};
use claim_tree::Path;
use cli_parts::{Stop, as_line, readable};
use compact_form::{Parts, print};
use digest_index::Steps;
use holder_core::{
    PresentError, Presentation, UnsignedPresentFile, UnsignedPresentation, present_unsigned,
    read_unsigned_present, refusal_line,
};
use key_binding::SignatureAnswer;
use sd_outside::{NoMemory, Status};
use selection_core::{Consent, NeverPlaces};
use std::alloc::Global;

// The status of a text that is to be signed.
const TO_SIGN: u8 = 9;

// The greatest number by which something is said of a signature.
const SAID_MAX: u8 = 3;

// What is told of a token that is not refused.
#[derive(Drop)]
enum Step {
    // The line of what is presented, where no key binding token is asked for.
    Presented(String),
    // The line of the question about the issuer's signature.
    Asks(String),
    // The text that is to be signed, which has no line end.
    ToSign(String),
}

// How far a token is presented where no place is shown to which a path of `never` leads.
fn presentation(
    alloc: Global,
    order: UnsignedPresentFile,
    token: &[u8],
    now: u64,
    word: Option<SignatureAnswer>,
) -> Result<Presentation, PresentError>
    ensures asks { IfOk result (λ p. OnAsksIssuer p (AsksIssuer token.now order.ask word)) }
    ensures to_sign { IfOk result (λ p. OnToSign p (IsUnsignedOf order token.now now word)) }
    ensures alone { IfOk result (λ p. OnPresented p (IsSentAlone order token.now now word)) }
    ensures words { IfOk result (λ p. OnToSign p AreUnsignedWords × OnPresented p AreWords) }
    ensures refused { IfErr result (IsUnsentFor order token.now now word) }
    ensures no_signer { IfErr result (λ error. error ≢ SignFailed) }
    ensures said_all { IfErr result (λ error. error ≢ Memory → IsUnsaid order token.now word → ⊥) }
{
    let UnsignedPresentFile { ask, never } = order;
    let never = NeverPlaces::of(never)?;
    let consent = Consent::new(
        |place: &Path|
            ensures { Judges never place.now result }
        { never.may_be_shown(place) },
    );
    present_unsigned(alloc, token, &ask, word, &consent, now, &mut Steps::new())
}

// The line of a refusal, where there is memory for it.
fn refused(alloc: Global, error: &PresentError) -> Stop
    ensures cause { OnRefused result (λ _. error.now ≢ Memory) }
    ensures line { OnRefused result (λ text. text ≡ line (present_refusal_text error.now)) }
    ensures readable { NotUnreadable result }
    ensures read { NotUnread result }
{
    if let PresentError::Memory = error {
        return Stop::Memory;
    }
    match refused_line(alloc, error) {
        Ok(text) => Stop::Refused(text),
        Err(NoMemory) => Stop::Memory,
    }
}

fn refused_line(alloc: Global, error: &PresentError) -> Result<String, NoMemory>
    ensures { IfOk result (λ text. string_bytes text ≡ line (present_refusal_text error.now)) }
{
    as_line(refusal_line(alloc, error)?)
}

// The line of what is presented.
fn parts_line(alloc: Global, parts: &Parts) -> Result<String, NoMemory>
    requires words { AreWords parts.now }
    ensures { IfOk result (λ text. string_bytes text ≡ line (compact parts.now)) }
{
    as_line(print(alloc, parts)?)
}

// The next step for what an order says.
fn step_for(
    alloc: Global,
    order: UnsignedPresentFile,
    token: &[u8],
    now: u64,
    word: Option<SignatureAnswer>,
) -> Result<Step, Stop>
    ensures { OnStep result (StepsFor order token.now now word) }
{
    match presentation(alloc, order, token, now, word) {
        Ok(Presentation::AsksIssuer(question)) => Ok(Step::Asks(issuer_line(alloc, question)?)),
        Ok(Presentation::ToSign(unsigned)) => {
            Ok(Step::ToSign(unsigned.binding.text(alloc)?.into_string()))
        }
        Ok(Presentation::Presented(parts)) => Ok(Step::Presented(parts_line(alloc, &parts)?)),
        Err(error) => Err(refused(alloc, &error)),
    }
}

// What an order file says, or the line that tells why it is not of its form.
fn order_of(alloc: Global, file: &[u8]) -> Result<UnsignedPresentFile, Stop>
    ensures order { IfOk result (IsUnsignedPresentFile file.now) }
    ensures unreadable { IfErr result
        (λ stop. OnUnreadable stop (TellsFileFault (IsUnsignedPresentRefused file.now))) }
    ensures fit { IfErr result NotRefused }
    ensures read { IfErr result NotUnread }
{
    readable(alloc, read_unsigned_present(alloc, file))
}

// The next step for an order file.
fn next_step(
    alloc: Global,
    order: &[u8],
    token: &[u8],
    now: u64,
    word: Option<SignatureAnswer>,
) -> Result<Step, Stop>
    ensures { OnStep result (AsksToPresent order.now token.now now word) }
{
    let order = order_of(alloc, order)?;
    step_for(alloc, order, token, now, word)
}

// Hands over a step, or the line that tells why there is none.
fn hand_step(step: Result<Step, Stop>, room: &mut [u8], len: &mut usize) -> u8
    ensures { IsHandedStep step room.old room.new len.new result }
{
    match step {
        Ok(Step::Presented(text)) => hand(Ok(text), room, len).number(),
        Ok(Step::Asks(text)) => give_as(text.as_str(), ASKS, room, len),
        Ok(Step::ToSign(text)) => give_as(text.as_str(), TO_SIGN, room, len),
        Err(stop) => hand(Err(stop), room, len).number(),
    }
}

// The line of what is presented with this signature.
fn signed_line(
    alloc: Global,
    unsigned: UnsignedPresentation,
    signature: &[u8],
) -> Result<String, Stop>
    requires words { AreUnsignedWords unsigned }
    requires some { 0 < length signature.now }
    ensures gives { IfOk result (λ text. IsLineWith unsigned signature.now (string_bytes text)) }
    ensures refuses { IfErr result
        (λ stop. OnRefused stop (IsOverlongLine unsigned signature.now)) }
    ensures readable { IfErr result NotUnreadable }
    ensures read { IfErr result NotUnread }
{
    match unsigned.signed(alloc, signature) {
        Ok(parts) => Ok(parts_line(alloc, &parts)?),
        Err(error) => Err(refused(alloc, &error)),
    }
}

// The line of what is presented for what an order says, with this signature where one is asked for.
fn presented_for(
    alloc: Global,
    order: UnsignedPresentFile,
    token: &[u8],
    now: u64,
    word: SignatureAnswer,
    signature: &[u8],
) -> Result<String, Stop>
    requires some { 0 < length signature.now }
    ensures gives { IfOk result
        (λ text. GivesFor order token.now now (Some word) signature.now (string_bytes text)) }
    ensures refuses { IfErr result
        (λ stop. OnRefused stop (RefusesOrIsLong order token.now now (Some word) signature.now)) }
    ensures readable { IfErr result NotUnreadable }
    ensures read { IfErr result NotUnread }
{
    match presentation(alloc, order, token, now, Some(word)) {
        Ok(Presentation::AsksIssuer(_)) => unreachable!(),
        Ok(Presentation::ToSign(unsigned)) => signed_line(alloc, unsigned, signature),
        Ok(Presentation::Presented(parts)) => Ok(parts_line(alloc, &parts)?),
        Err(error) => Err(refused(alloc, &error)),
    }
}

// The same for an order file.
fn presented(
    alloc: Global,
    order: &[u8],
    token: &[u8],
    now: u64,
    word: SignatureAnswer,
    signature: &[u8],
) -> Result<String, Stop>
    requires some { 0 < length signature.now }
    ensures gives { IfOk result (λ text.
        GivesPresented order.now token.now now (Some word) signature.now (string_bytes text)) }
    ensures refuses { IfErr result (λ stop. OnRefused stop
        (RefusesPresented order.now token.now now (Some word) signature.now)) }
    ensures unreadable { IfErr result
        (λ stop. OnUnreadable stop (TellsFileFault (IsUnsignedPresentRefused order.now))) }
    ensures read { IfErr result NotUnread }
{
    let order = order_of(alloc, order)?;
    presented_for(alloc, order, token, now, word, signature)
}

/// The next step of presenting a token for an order without keys: the question about the issuer's
/// signature, as `sdjwt_judge` asks it; or the text of a key binding token that is to be signed,
/// with no line end behind it; or, where no key binding token is asked for, what is presented. With
/// a number above 3 the call is misused.
#[unsafe(no_mangle)]
pub extern "C" fn sdjwt_present_ask(
    alloc: Global,
    order: &[u8],
    token: &[u8],
    now: u64,
    issuer: u8,
    room: &mut [u8],
    len: &mut usize,
) -> u8
    ensures { HandsStepBy (3 < issuer)
        (AsksToPresent order.now token.now now (answer_numbered issuer))
        room.old room.new len.new result }
{
    if issuer > SAID_MAX {
        return leave(Status::Usage, len).number();
    }
    hand_step(
        next_step(alloc, order, token, now, answer_of(issuer)),
        room,
        len,
    )
}

/// What is presented of the token for the same order, moment and number, with this signature of the
/// key binding token where one is asked for. An empty signature is a misuse, and so is a number by
/// which nothing is said.
#[unsafe(no_mangle)]
pub extern "C" fn sdjwt_present_sign(
    alloc: Global,
    order: &[u8],
    token: &[u8],
    now: u64,
    issuer: u8,
    signature: &[u8],
    room: &mut [u8],
    len: &mut usize,
) -> u8
    ensures { HandsBy ((signature.now ≡ []) ⊎ (answer_numbered issuer ≡ None))
        (SignsPresented order.now token.now now (answer_numbered issuer) signature.now)
        room.old room.new len.new result }
{
    if signature.is_empty() {
        return leave(Status::Usage, len).number();
    }
    match answer_of(issuer) {
        Some(word) => {
            hand(
                presented(alloc, order, token, now, word, signature),
                room,
                len,
            )
            .number()
        }
        None => leave(Status::Usage, len).number(),
    }
}
