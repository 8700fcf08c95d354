// The verdicts that are held, to a sink.
ghost use Rattle.std.specs.Prelude.{◌≡◌, ◌≢◌, ◌≤◌, ℕ, List, [], ◌++◌, length, OnOk, OnErr, string_bytes};
ghost use Rattle.std.specs.Io.KnownBytes.{Appends};
ghost use Rattle.sd_outside.specs.Causes.{Rose, AppendsPrefix};

use crate::FeedError;
use sd_outside::{Failed, Sink};

// So many bytes of verdicts may wait for the end of their piece.
const HELD_MAX: usize = 65_536;

// Writes all that is held, in one piece.
pub(crate) fn send<O: Sink>(held: &mut String, out: &mut O) -> Result<(), Failed>
    ensures whole { OnOk result
        (Appends (O.written out.old) (O.written out.new) (string_bytes held.old)) }
    ensures none { OnOk result (string_bytes held.new ≡ []) }
    ensures part { OnErr result
        (AppendsPrefix (O.written out.old) (O.written out.new) (string_bytes held.old)) }
    ensures failed { OnErr result (Rose (O.faults out.old) (O.faults out.new)) }
    ensures later { O.faults out.old ≤ O.faults out.new }
{
    if held.is_empty() {
        return Ok(());
    }
    out.put(held.as_bytes())?;
    held.clear();
    Ok(())
}

// Writes it where it is more than may wait.
pub(crate) fn send_full<O: Sink>(held: &mut String, out: &mut O) -> Result<(), Failed>
    ensures sent { OnOk result
        ((text : List ℕ) × (string_bytes held.old ≡ text ++ string_bytes held.new)
        × Appends (O.written out.old) (O.written out.new) text) }
    ensures within { OnOk result (length (string_bytes held.new) ≤ 65536) }
    ensures part { OnErr result
        (AppendsPrefix (O.written out.old) (O.written out.new) (string_bytes held.old)) }
    ensures failed { OnErr result (Rose (O.faults out.old) (O.faults out.new)) }
    ensures later { O.faults out.old ≤ O.faults out.new }
{
    if held.len() <= HELD_MAX {
        return Ok(());
    }
    send(held, out)
}

// There is no memory for the next verdict: what is held goes out, and this is why the feed stops.
pub(crate) fn stop<O: Sink>(held: &mut String, out: &mut O) -> FeedError
    ensures part { AppendsPrefix (O.written out.old) (O.written out.new) (string_bytes held.old) }
    ensures cause { result ≡ FeedError.Unwritten → Rose (O.faults out.old) (O.faults out.new) }
    ensures open { result ≢ FeedError.Over }
    ensures later { O.faults out.old ≤ O.faults out.new }
{
    match send(held, out) {
        Ok(()) => FeedError::Memory,
        Err(Failed) => FeedError::Unwritten,
    }
}
