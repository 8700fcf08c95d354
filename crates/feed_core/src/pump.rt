// All that a source gives, through a feed.
ghost use Rattle.std.specs.Prelude.{◌≡◌, ◌≢◌, ◌<◌, ◌≤◌, ◌⊎◌, ◌+◌, ◌^◌, ℕ, List, [], ◌∷◌, false, length, take, OnOk, OnErr, IfOk, IsErrOf};
ghost use Rattle.std.specs.Io.KnownBytes.{Appends, IsAtEnd};
ghost use Rattle.sd_outside.specs.Limits.{feed_max};
ghost use Rattle.sd_outside.specs.Causes.{Rose};
ghost use Rattle.feed_core.specs.Cut.{last_line};
ghost use Rattle.feed_core.specs.Feed.{Takes, TellsFront, end_line};
ghost use Rattle.feed_core.specs.FeedCalls.{new_feed, TakesFront, IsEnded, count_at_end};
ghost use Rattle.feed_core.specs.FeedSource.{input, Gave, FedAll, FedLong, FedPart, FedFront};

use crate::{Feed, FeedError};
use sd_outside::{Failed, Sink, Source};

// The most bytes that one pull asks for.
const BLOCK: usize = 65_536;

// Why a feed stops before the end of its source.
#[derive(Clone, Copy, Debug, PartialEq, Eq)]
pub(crate) enum Halt {
    Memory,
    Unwritten,
    // The source failed.
    Unread,
    // The source gave a byte more than it may.
    TooLong,
}

// The next bytes of the source, to the front of the room: at most so many, and none only at the
// end. Where none are allowed any more, one is asked for, to see the end.
fn pull_piece<R: Source>(src: &mut R, room: &mut [u8], left: usize) -> Result<usize, Halt>
    requires room { 0 < length room.old }
    requires countable { R.taken src.old + length room.old < 2 ^ 64 }
    ensures gave { IfOk result
        (λ count. Gave (input R.Source src.old) (input R.Source src.new) (take count room.new)) }
    ensures within { IfOk result (λ count. count ≤ left) }
    ensures fits { IfOk result (λ count. count ≤ length room.old) }
    ensures end { IfOk result (λ count. count ≡ 0 → IsAtEnd (R.left src.old)) }
    ensures long { IsErrOf result Halt.TooLong
        → (byte : ℕ) × Gave (input R.Source src.old) (input R.Source src.new) (byte ∷ []) }
    ensures none_left { IsErrOf result Halt.TooLong → left ≡ 0 }
    ensures unread { IsErrOf result Halt.Unread
        → Gave (input R.Source src.old) (input R.Source src.new) [] }
    ensures cause { IsErrOf result Halt.Unread → Rose (R.faults src.old) (R.faults src.new) }
    ensures memory { result ≢ Err Halt.Memory }
    ensures written { result ≢ Err Halt.Unwritten }
    ensures later { R.faults src.old ≤ R.faults src.new }
{
    let wanted = left.max(1).min(room.len());
    match src.pull(&mut room[..wanted]) {
        Ok(count) if count <= left => Ok(count),
        Ok(_) => Err(Halt::TooLong),
        Err(Failed) => Err(Halt::Unread),
    }
}

// A feed that is not over stops for want of memory, or where its sink fails.
fn halt_of(error: FeedError) -> Halt
    requires { error ≢ FeedError.Over }
    ensures written { result ≡ Halt.Unwritten → error ≡ FeedError.Unwritten }
    ensures read { result ≢ Halt.Unread }
    ensures short { result ≢ Halt.TooLong }
{
    match error {
        FeedError::Memory => Halt::Memory,
        FeedError::Unwritten => Halt::Unwritten,
        FeedError::Over => unreachable!(),
    }
}

// The next piece, to a feed that is not over.
fn take_piece<O: Sink>(feed: &mut Feed, piece: &[u8], out: &mut O) -> Result<(), Halt>
    requires open { feed.old.over ≡ false }
    requires countable { feed.old.count + length piece.now < 2 ^ 64 }
    ensures takes { OnOk result
        ((text : List ℕ) × Takes feed.old feed.new piece.now text
        × Appends (O.written out.old) (O.written out.new) text) }
    ensures front { OnErr result
        (TakesFront feed.old piece.now (O.written out.old) (O.written out.new)) }
    ensures cause { IsErrOf result Halt.Unwritten → Rose (O.faults out.old) (O.faults out.new) }
    ensures read { result ≢ Err Halt.Unread }
    ensures short { result ≢ Err Halt.TooLong }
    ensures later { O.faults out.old ≤ O.faults out.new }
{
    match feed.take(piece, out) {
        Ok(()) => Ok(()),
        Err(error) => Err(halt_of(error)),
    }
}

// The end, to a feed that is not over.
fn end_feed<O: Sink>(feed: &mut Feed, out: &mut O) -> Result<(), Halt>
    requires open { feed.old.over ≡ false }
    requires countable { feed.old.count + 1 < 2 ^ 64 }
    ensures ends { OnOk result
        ((text : List ℕ) × IsEnded feed.old text
        × Appends (O.written out.old) (O.written out.new) text) }
    ensures front { OnErr result
        (TellsFront feed.old.policy feed.old.now (last_line feed.old.rest)
        (end_line (count_at_end feed.old)) (O.written out.old) (O.written out.new)) }
    ensures cause { IsErrOf result Halt.Unwritten → Rose (O.faults out.old) (O.faults out.new) }
    ensures read { result ≢ Err Halt.Unread }
    ensures short { result ≢ Err Halt.TooLong }
    ensures later { O.faults out.old ≤ O.faults out.new }
{
    match feed.end(out) {
        Ok(_) => Ok(()),
        Err(error) => Err(halt_of(error)),
    }
}

// Judges each line that the source gives, up to so many bytes, and writes how many there were.
pub(crate) fn pump<R: Source, O: Sink>(
    feed: &mut Feed,
    src: &mut R,
    most: usize,
    out: &mut O,
) -> Result<(), Halt>
    requires fresh { feed.old ≡ new_feed feed.old.policy feed.old.now }
    requires few { most ≤ feed_max }
    requires countable { R.taken src.old ≤ 2 ^ 63 }
    ensures all { OnOk result
        (FedAll feed.old.policy feed.old.now most (input R.Source src.old) (input R.Source src.new)
        (O.written out.old) (O.written out.new)) }
    ensures long { IsErrOf result Halt.TooLong
        → FedLong feed.old.policy feed.old.now most (input R.Source src.old)
        (input R.Source src.new) (O.written out.old) (O.written out.new) }
    ensures part { IsErrOf result Halt.Unread
        → FedPart feed.old.policy feed.old.now most (input R.Source src.old)
        (input R.Source src.new) (O.written out.old) (O.written out.new) }
    ensures front { IsErrOf result Halt.Memory ⊎ IsErrOf result Halt.Unwritten
        → FedFront feed.old.policy feed.old.now most (input R.Source src.old)
        (input R.Source src.new) (O.written out.old) (O.written out.new) }
    ensures cause { IsErrOf result Halt.Unwritten → Rose (O.faults out.old) (O.faults out.new) }
    ensures later { O.faults out.old ≤ O.faults out.new }
    ensures source_later { R.faults src.old ≤ R.faults src.new }
{
    let mut room = [0u8; BLOCK];
    let mut left = most;
    loop {
        let count = match pull_piece(src, &mut room, left) {
            Ok(count) => count,
            Err(halt) => return Err(halt),
        };
        if count == 0 {
            return end_feed(feed, out);
        }
        if let Err(halt) = take_piece(feed, &room[..count], out) {
            return Err(halt);
        }
        left -= count;
    }
}
