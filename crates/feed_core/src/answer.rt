// The verdicts on lines, behind those that are held.
ghost use Rattle.std.specs.Prelude.{◌≡◌, ℕ, List, [], ◌∷◌, ◌++◌, length, OnOk, OnErr, IfOk, string_bytes};
ghost use Rattle.feed_core.specs.FeedVerdict.{TellsVerdicts};
ghost use Rattle.feed_core.specs.Cut.{last_line};
ghost use Rattle.feed_core.specs.Feed.{end_line};

use crate::verdict_line::add_verdict;
use disclosure::DisclosureReader;
use sd_outside::NoMemory;
use std::alloc::Global;
use verifier_core::Policy;

// Judges the line that what is kept and these bytes make, and adds its verdict.
// Nothing is kept then.
pub(crate) fn answer_kept(
    alloc: Global,
    reader: &mut DisclosureReader,
    policy: &Policy,
    now: u64,
    rest: &mut Vec<u8>,
    bytes: &[u8],
    held: &mut String,
) -> Result<(), NoMemory>
    ensures told { OnOk result
        ((text : List ℕ) × TellsVerdicts policy.now now ((rest.old.items ++ bytes.now) ∷ []) text
        × (string_bytes held.new ≡ string_bytes held.old ++ text)) }
    ensures none { OnOk result (rest.new.items ≡ []) }
    ensures same { OnErr result (string_bytes held.new ≡ string_bytes held.old) }
{
    if rest.is_empty() {
        return add_verdict(alloc, reader, policy, now, bytes, held);
    }
    rest.extend_from_slice(bytes)?;
    add_verdict(alloc, reader, policy, now, rest.as_slice(), held)?;
    rest.clear();
    Ok(())
}

// Judges what stands behind the last line end, where it is not empty, and adds
// the verdict. The answer is how many lines this makes.
pub(crate) fn answer_last(
    alloc: Global,
    policy: &Policy,
    now: u64,
    rest: &[u8],
    held: &mut String,
) -> Result<u64, NoMemory>
    ensures told { OnOk result
        ((text : List ℕ) × TellsVerdicts policy.now now (last_line rest.now) text
        × (string_bytes held.new ≡ string_bytes held.old ++ text)) }
    ensures count { IfOk result (λ count. count ≡ length (last_line rest.now)) }
    ensures same { OnErr result (string_bytes held.new ≡ string_bytes held.old) }
{
    if rest.is_empty() {
        return Ok(0);
    }
    let mut reader = DisclosureReader::new(alloc);
    add_verdict(alloc, &mut reader, policy, now, rest, held)?;
    Ok(1)
}

// Adds how many lines there were.
pub(crate) fn add_count(alloc: Global, count: u64, held: &mut String) -> Result<(), NoMemory>
    ensures told { OnOk result (string_bytes held.new ≡ string_bytes held.old ++ end_line count) }
    ensures same { OnErr result (string_bytes held.new ≡ string_bytes held.old) }
{
    let line = format!(in alloc; "lines {count}\n")?;
    held.push_str(line.as_str())?;
    Ok(())
}
