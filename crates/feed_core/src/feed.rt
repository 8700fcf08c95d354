// A feed: tokens that come in pieces, and a verdict on each line.
ghost use Rattle.std.specs.Prelude.{◌≡◌, ◌≢◌, ◌↔◌, ◌≤◌, ◌<◌, ◌+◌, ◌^◌, ℕ, List, Option, true, false, ◌∷◌, ◌++◌, length, MatchOption, OnOk, OnErr, IfOk, IsErrOf};
ghost use Rattle.std.specs.Io.KnownBytes.{Appends};
ghost use Rattle.sd_outside.specs.Causes.{Rose};
ghost use Rattle.sd_outside.specs.Limits.{file_max};
ghost use Rattle.feed_core.specs.Cut.{IsOneLine, last_line};
ghost use Rattle.feed_core.specs.Feed.{taking, kept_rest, Takes, TellsFront, end_line};
ghost use Rattle.feed_core.specs.FeedCalls.{new_feed, ToldSoFar, TakesFront, IsEnded, count_at_end};

use crate::FeedError;
use crate::answer::{add_count, answer_kept, answer_last};
use crate::send::{send, send_full, stop};
use compact_form::FILE_MAX;
use disclosure::DisclosureReader;
use memchr::memchr;
use sd_outside::{NoMemory, Sink};
use std::alloc::Global;
use std::marker::Model;
use verifier_core::Policy;

/// Judges tokens, one a line, that come in pieces, and writes one line for each: `accepted` and the
/// processed payload as compact JSON, or the line of the lowest condition that fails.
///
/// The verdicts of one piece go out as one text, at the end of its
/// [`Feed::take`], and earlier where they have grown beyond 64 KiB. So what is
/// held is at most 64 KiB and one verdict, and nothing is held between two calls.
///
/// Contracts see its policy, its moment, what it keeps of a line that has not
/// ended, how many lines it judged, and whether it is over. It keeps one byte
/// more of a line than a file may have, which tells that the line is too long.
#[derive(Drop)]
pub struct Feed {
    alloc: Global,
    policy: Policy,
    now: u64,
    rest: Vec<u8>,
    count: u64,
    over: bool,
}

impl Model for Feed {
    ghost use Rattle.std.specs.Prelude.{◌≡◌, ◌+◌, ◌≤◌, false, length};
    ghost use Rattle.sd_outside.specs.Limits.{file_max};
    ghost use Rattle.feed_core.specs.Cut.{IsOneLine};
    ghost use Rattle.feed_core.specs.Feed.{FeedState};

    ghost Value = { FeedState };

    ghost view = { λ f. record {
      policy = f.policy;
      now = f.now;
      rest = f.rest.items;
      count = f.count;
      over = f.over;
    } };

    ghost invariant = { λ f.
        f.over ≡ false → IsOneLine f.rest.items × (length f.rest.items ≤ file_max + 1) };
}

impl Feed {
    /// A feed that judges under this policy, at a moment in seconds since 1970. It takes no memory.
    pub fn new(alloc: Global, policy: Policy, now: u64) -> Feed
        ensures { result ≡ new_feed policy now }
    {
        Feed {
            alloc,
            policy,
            now,
            rest: Vec::new(alloc),
            count: 0,
            over: false,
        }
    }

    /// Takes the next piece, and writes a line for each line that ends in it.
    /// After an error the feed is over.
    pub fn take<O: Sink>(&mut self, piece: &[u8], out: &mut O) -> Result<(), FeedError>
        requires { self.old.count + length piece.now < 2 ^ 64 }
        ensures takes { OnOk result
            ((text : List ℕ) × Takes self.old self.new piece.now text
            × Appends (O.written out.old) (O.written out.new) text) }
        ensures few { self.new.count ≤ self.old.count + length piece.now }
        ensures same_policy { self.new.policy ≡ self.old.policy }
        ensures same_now { self.new.now ≡ self.old.now }

        // nothing is held back behind it: each line that ended in what was taken so far is told
        ensures nothing_held { (bytes : List ℕ) (first : Option (List ℕ))
            → ToldSoFar self.old bytes first (O.written out.old)
            → OnOk result (ToldSoFar self.new (bytes ++ piece.now) first (O.written out.new)) }

        // a feed that is over takes nothing
        ensures over { IsErrOf result FeedError.Over ↔ (self.old.over ≡ true) }
        ensures same_feed { IsErrOf result FeedError.Over → self.new ≡ self.old }
        ensures same_out { IsErrOf result FeedError.Over → out.new ≡ out.old }

        // an error ends the feed, in the middle of what it was to write
        ensures stops { OnErr result (self.new.over ≡ true) }
        ensures front { OnErr result
            (TakesFront self.old piece.now (O.written out.old) (O.written out.new)) }
        ensures cause { IsErrOf result FeedError.Unwritten
            → Rose (O.faults out.old) (O.faults out.new) }
        ensures later { O.faults out.old ≤ O.faults out.new }
    {
        if self.over {
            return Err(FeedError::Over);
        }
        let answer = answer_ended(
            self.alloc,
            &self.policy,
            self.now,
            &mut self.rest,
            &mut self.count,
            piece,
            out,
        );
        self.over = answer.is_err();
        answer
    }

    /// Ends the feed: a last line that has no line end is judged too, and the
    /// number of all lines is written and answered.
    pub fn end<O: Sink>(&mut self, out: &mut O) -> Result<u64, FeedError>
        requires { self.old.count + 1 < 2 ^ 64 }
        ensures ends { OnOk result
            ((text : List ℕ) × IsEnded self.old text
            × Appends (O.written out.old) (O.written out.new) text) }
        ensures count { IfOk result (λ count. count ≡ count_at_end self.old) }
        ensures counts { IfOk result (λ count. self.new.count ≡ count) }
        ensures stops { self.new.over ≡ true }
        ensures same_policy { self.new.policy ≡ self.old.policy }
        ensures same_now { self.new.now ≡ self.old.now }

        // a feed that is over ends no more
        ensures over { IsErrOf result FeedError.Over ↔ (self.old.over ≡ true) }
        ensures same_feed { IsErrOf result FeedError.Over → self.new ≡ self.old }
        ensures same_out { IsErrOf result FeedError.Over → out.new ≡ out.old }

        // an error comes in the middle of what was to be written
        ensures front { OnErr result
            (TellsFront self.old.policy self.old.now (last_line self.old.rest)
            (end_line (count_at_end self.old)) (O.written out.old) (O.written out.new)) }
        ensures cause { IsErrOf result FeedError.Unwritten
            → Rose (O.faults out.old) (O.faults out.new) }
        ensures later { O.faults out.old ≤ O.faults out.new }
    {
        if self.over {
            return Err(FeedError::Over);
        }
        self.over = true;
        let mut told = String::new(self.alloc);
        let rest = self.rest.as_slice();
        self.count += answer_last(self.alloc, &self.policy, self.now, rest, &mut told)?;
        if let Err(NoMemory) = add_count(self.alloc, self.count, &mut told) {
            return Err(stop(&mut told, out));
        }
        send(&mut told, out)?;
        Ok(self.count)
    }
}

// So many bytes are kept of a line: one more than the limit tells that it is too long.
const KEPT_MAX: usize = FILE_MAX + 1;

// What stands before the first line end, and behind it.
fn split_line(text: &[u8]) -> Option<(&[u8], &[u8])>
    ensures { MatchOption result (IsOneLine text.now)
        (λ parts. (text.now ≡ parts.0.now ++ 10 ∷ parts.1.now) × IsOneLine parts.0.now) }
{
    let at = memchr(b'\n', text)?;
    Some((&text[..at], &text[at + 1..]))
}

// Keeps these bytes of a line that has not ended, too.
fn keep(rest: &mut Vec<u8>, bytes: &[u8]) -> Result<(), FeedError>
    requires { length rest.old.items ≤ file_max + 1 }
    ensures kept { OnOk result (rest.new.items ≡ kept_rest (rest.old.items ++ bytes.now)) }
    ensures cause { result ≢ Err FeedError.Unwritten }
    ensures open { result ≢ Err FeedError.Over }
{
    let room = KEPT_MAX - rest.len();
    rest.extend_from_slice(&bytes[..room.min(bytes.len())])?;
    Ok(())
}

// Answers each line that ends in the piece, and keeps what stands behind the last line end. The
// verdicts go out as one text, and earlier where they are more than may wait.
fn answer_ended<O: Sink>(
    alloc: Global,
    policy: &Policy,
    now: u64,
    rest: &mut Vec<u8>,
    count: &mut u64,
    piece: &[u8],
    out: &mut O,
) -> Result<(), FeedError>
    requires one { IsOneLine rest.old.items }
    requires short { length rest.old.items ≤ file_max + 1 }
    requires countable { count.old + length piece.now < 2 ^ 64 }
    ensures takes { OnOk result
        ((text : List ℕ)
        × Takes (taking policy.now now rest.old.items count.old)
        (taking policy.now now rest.new.items count.new) piece.now text
        × Appends (O.written out.old) (O.written out.new) text) }
    ensures few { count.new ≤ count.old + length piece.now }
    ensures front { OnErr result
        (TakesFront (taking policy.now now rest.old.items count.old) piece.now (O.written out.old)
        (O.written out.new)) }
    ensures cause { IsErrOf result FeedError.Unwritten
        → Rose (O.faults out.old) (O.faults out.new) }
    ensures open { result ≢ Err FeedError.Over }
    ensures later { O.faults out.old ≤ O.faults out.new }
{
    let mut held = String::new(alloc);
    let mut reader = DisclosureReader::new(alloc);
    let mut left = piece;
    while let Some((line, more)) = split_line(left) {
        if let Err(NoMemory) = answer_kept(alloc, &mut reader, policy, now, rest, line, &mut held) {
            return Err(stop(&mut held, out));
        }
        *count += 1;
        left = more;
        send_full(&mut held, out)?;
    }
    send(&mut held, out)?;
    keep(rest, left)
}
