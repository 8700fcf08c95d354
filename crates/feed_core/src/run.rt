// A run of the feed.
ghost use Rattle.std.specs.Prelude.{◌≡◌, ◌≤◌, ◌^◌, ℕ, List, Some, map, IfOk, IfErr, string_bytes};
ghost use Rattle.sd_outside.specs.Causes.{Rose};
ghost use Rattle.cli_parts.specs.Outside.{outside};
ghost use Rattle.cli_parts.specs.Runs.{IsFetched};
ghost use Rattle.cli_parts.specs.Stops.{OnUnread, OnUnreadable, NotRefused};
ghost use Rattle.cli_parts.specs.Telling.{TellsFileFault};
ghost use Rattle.verifier_core.specs.PolicyFile.{IsPolicyFile, IsPolicyFileRefused};
ghost use Rattle.feed_core.specs.FeedSource.{input};
ghost use Rattle.feed_core.specs.FeedRun.{feed_outside, FeedEnds, FeedKeeps};

use crate::Feed;
use crate::pump::{Halt, pump};
use crate::words::feed_words;
use cli_parts::{FETCH_MAX, Stop, fetch_file, policy_of, tell, tell_stop};
use sd_outside::{Cabinet, Sink, Source, Status};
use std::alloc::Global;
use verifier_core::Policy;

// The policy of the file of this name.
fn fetch_policy<C: Cabinet>(alloc: Global, cab: &mut C, name: &str) -> Result<Policy, Stop>
    ensures policy { IfOk result
        (λ policy. (file : List ℕ) × IsFetched (C.holds cab.old) name.now file
        × IsPolicyFile file policy) }
    ensures unreadable { IfErr result
        (λ stop. OnUnreadable stop
        (λ text. (file : List ℕ) × IsFetched (C.holds cab.old) name.now file
        × TellsFileFault (IsPolicyFileRefused file) text)) }
    ensures fit { IfErr result NotRefused }
    ensures word { IfErr result (λ stop. OnUnread stop (λ word. word ≡ 0)) }
    ensures missed { IfErr result (λ stop. OnUnread stop (λ _. C.missed cab.new ≡ Some name.now)) }
    ensures rose { IfErr result
        (λ stop. OnUnread stop (λ _. Rose (C.faults cab.old) (C.faults cab.new))) }
    ensures held { (other : List ℕ) → C.holds cab.new other ≡ C.holds cab.old other }
    ensures later { C.faults cab.old ≤ C.faults cab.new }
{
    let file = match fetch_file(alloc, cab, name, FETCH_MAX, 0) {
        Ok(file) => file,
        Err(stop) => return Err(stop),
    };
    policy_of(alloc, file.bytes())
}

/// Runs the feed that the words ask for: `feed`, the name of a policy file, and
/// the most bytes that are taken.
///
/// Each line that the source gives is judged under the policy, at a moment in seconds since 1970,
/// and answered by a line on `out`, as soon as it has ended. At the end comes the number of lines.
/// What each status says of the outside before and after is `FeedEnds`, by cases.
pub fn run_feed<C: Cabinet, R: Source, O: Sink, E: Sink>(
    alloc: Global,
    words: &[String],
    cab: &mut C,
    src: &mut R,
    now: u64,
    out: &mut O,
    err: &mut E,
) -> Status
    requires { R.taken src.old ≤ 2 ^ 63 }
    ensures ends { FeedEnds (map string_bytes words.now)
        (feed_outside (outside C.Cabinet O.Sink E.Sink cab.old out.old err.old)
        (input R.Source src.old))
        (feed_outside (outside C.Cabinet O.Sink E.Sink cab.new out.new err.new)
        (input R.Source src.new)) now result }
    ensures keeps { FeedKeeps
        (feed_outside (outside C.Cabinet O.Sink E.Sink cab.old out.old err.old)
        (input R.Source src.old))
        (feed_outside (outside C.Cabinet O.Sink E.Sink cab.new out.new err.new)
        (input R.Source src.new)) }
{
    let Some((name, most)) = feed_words(words) else {
        return tell(err, "usage\n", Status::Usage);
    };
    let policy = match fetch_policy(alloc, cab, name) {
        Ok(policy) => policy,
        Err(stop) => return tell_stop(alloc, stop, err),
    };
    match pump(&mut Feed::new(alloc, policy, now), src, most, out) {
        Ok(()) => Status::Done,
        Err(Halt::TooLong) => tell(err, "refused 87 feedTooLong\n", Status::Refused),
        Err(Halt::Unread) => tell(err, "unread source\n", Status::Unread),
        Err(Halt::Unwritten) => tell(err, "unwritten\n", Status::Unwritten),
        Err(Halt::Memory) => tell(err, "memory\n", Status::Memory),
    }
}
