// The verdict on a token whose signatures the caller checks, on its way into
// the room of the caller.
ghost use Rattle.sdjwt_c.specs.Judging.{HandsAs, JudgesFile, JudgesUnder};
ghost use Rattle.sdjwt_c.specs.JudgingSteps.{IsHandedVerdict, OnTold, TellsJudgement};

use crate::answer::{give, hand};
use crate::question::{holder_line, issuer_line};
use crate::said::algs_of;
use claim_tree::write;
use cli_parts::{Stop, as_line, policy_of, refused};
use digest_index::Steps;
use sd_outside::Status;
use std::alloc::Global;
use verifier_core::{Answers, JudgeError, Judgement, Policy, judge};

// The status of a question, and that of an answer that was not asked for.
pub(crate) const ASKS: u8 = 7;

const NOT_ASKED: u8 = 8;

// What is judged, and what was said so far.
#[derive(Clone, Copy)]
pub(crate) struct Case<'a> {
    pub(crate) algs: &'a [u8],
    pub(crate) token: &'a [u8],
    pub(crate) now: u64,
    pub(crate) answers: Answers,
}

// What is told of a token that is not refused, each text with its line end.
#[derive(Drop)]
pub(crate) enum Verdict {
    // It is accepted: the processed payload.
    Accepted(String),
    // The question about its next signature.
    Asks(String),
    // Something was said that was not asked for.
    NotAsked,
}

// What is told of a judgement.
fn told(alloc: Global, judged: Result<Judgement, JudgeError>) -> Result<Verdict, Stop>
    ensures { OnTold result (TellsJudgement judged) }
{
    match judged {
        Ok(Judgement::Accepted(payload)) => {
            Ok(Verdict::Accepted(as_line(write(alloc, &payload)?)?))
        }
        Ok(Judgement::Refused(fault)) => Err(refused(alloc, &fault)),
        Ok(Judgement::AsksIssuer(question)) => Ok(Verdict::Asks(issuer_line(alloc, question)?)),
        Ok(Judgement::AsksHolder(question, payload)) => {
            Ok(Verdict::Asks(holder_line(alloc, question, payload)?))
        }
        Err(JudgeError::NotAsked) => Ok(Verdict::NotAsked),
        Err(JudgeError::Memory) => Err(Stop::Memory),
    }
}

// What is told under a policy that is read.
pub(crate) fn judge_under(alloc: Global, policy: &Policy, case: Case<'_>) -> Result<Verdict, Stop>
    ensures { OnTold result
        (JudgesUnder policy.now case.entry.algs.now case.entry.token.now case.entry.now
        case.entry.answers) }
{
    let algs = algs_of(alloc, policy, case.algs)?;
    told(
        alloc,
        judge(
            alloc,
            case.token,
            policy,
            &algs,
            case.now,
            case.answers,
            &mut Steps::new(),
        ),
    )
}

// What is told under the policy of a file.
pub(crate) fn judge_file(alloc: Global, file: &[u8], case: Case<'_>) -> Result<Verdict, Stop>
    ensures { OnTold result
        (JudgesFile file.now case.entry.algs.now case.entry.token.now case.entry.now
        case.entry.answers) }
{
    let policy = policy_of(alloc, file)?;
    judge_under(alloc, &policy, case)
}

// Writes the whole text, and answers this number; or nothing where there is no room for it.
pub(crate) fn give_as(text: &str, number: u8, room: &mut [u8], len: &mut usize) -> u8
    ensures { HandsAs number text.now room.old room.new len.new result }
{
    match give(text, Status::Done, room, len) {
        Status::Done => number,
        status => status.number(),
    }
}

// Hands over what is told, or the line that tells why there is nothing.
pub(crate) fn hand_verdict(verdict: Result<Verdict, Stop>, room: &mut [u8], len: &mut usize) -> u8
    ensures { IsHandedVerdict verdict room.old room.new len.new result }
{
    match verdict {
        Ok(Verdict::Accepted(text)) => hand(Ok(text), room, len).number(),
        Ok(Verdict::Asks(text)) => give_as(text.as_str(), ASKS, room, len),
        Ok(Verdict::NotAsked) => give_as("notAsked\n", NOT_ASKED, room, len),
        Err(stop) => hand(Err(stop), room, len).number(),
    }
}
