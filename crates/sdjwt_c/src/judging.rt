//! Verifying where the caller checks the signatures: it is asked for each of them.
//!
//! What is said of a signature is a number: 0 where nothing is said yet, 1 where there is no key
//! for it, 2 where it is bad, and 3 where it is good.
ghost use Rattle.std.specs.Prelude.{◌≡◌, ◌⊎◌, None, IsSomeAnd};
ghost use Rattle.sdjwt_c.specs.Numbers.{answers_numbered};
ghost use Rattle.sdjwt_c.specs.Judging.{HandsVerdictBy, JudgesFile, JudgesUnder};

use crate::answer::leave;
use crate::boxed::{put, take};
use crate::handle::SdjwtPolicy;
use crate::said::answers_of;
use crate::verdict::{Case, hand_verdict, judge_file, judge_under};
use sd_outside::Status;
use std::alloc::Global;

/// The processed payload of a token that is accepted, or the question about its next signature.
/// `algs` is a JSON list of the algorithms that are taken of the holder; where it is empty, they
/// are those of the policy. With numbers that say nothing, or something of the holder's signature
/// where the issuer's is not good, the call is misused.
#[unsafe(no_mangle)]
pub extern "C" fn sdjwt_judge(
    alloc: Global,
    policy: &[u8],
    algs: &[u8],
    token: &[u8],
    now: u64,
    issuer: u8,
    holder: u8,
    room: &mut [u8],
    len: &mut usize,
) -> u8
    ensures { HandsVerdictBy (answers_numbered issuer holder ≡ None)
        (λ told. IsSomeAnd (answers_numbered issuer holder)
        (λ answers. JudgesFile policy.now algs.now token.now now answers told)) room.old
        room.new len.new result }
{
    let Some(answers) = answers_of(issuer, holder) else {
        return leave(Status::Usage, len).number();
    };
    let case = Case {
        algs,
        token,
        now,
        answers,
    };
    hand_verdict(judge_file(alloc, policy, case), room, len)
}

/// The same under the policy of the handle. Where that holds none, the call is misused too.
#[unsafe(no_mangle)]
pub extern "C" fn sdjwt_policy_judge(
    alloc: Global,
    handle: &mut SdjwtPolicy,
    algs: &[u8],
    token: &[u8],
    now: u64,
    issuer: u8,
    holder: u8,
    room: &mut [u8],
    len: &mut usize,
) -> u8
    ensures answers { HandsVerdictBy
        ((handle.old.held ≡ None) ⊎ (answers_numbered issuer holder ≡ None))
        (λ told. IsSomeAnd handle.old.held
        (λ policy. IsSomeAnd (answers_numbered issuer holder)
        (λ answers. JudgesUnder policy algs.now token.now now answers told))) room.old
        room.new len.new result }
    ensures kept { handle.new.held ≡ handle.old.held }
{
    let Some(answers) = answers_of(issuer, holder) else {
        return leave(Status::Usage, len).number();
    };
    let Some(policy) = take(alloc, handle) else {
        return leave(Status::Usage, len).number();
    };
    let case = Case {
        algs,
        token,
        now,
        answers,
    };
    let verdict = judge_under(alloc, &policy, case);
    put(handle, policy);
    hand_verdict(verdict, room, len)
}
