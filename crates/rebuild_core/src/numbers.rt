// Digests as numbers, by the places at which they were first seen.
ghost use Rattle.std.specs.Prelude.{◌≡◌, ◌≤◌, ◌^◌, ◌-◌, [], length, IfOk, OnOk, MatchOption};
ghost use Rattle.sd_outside.specs.Lists.{AtNone, IsLeast};
ghost use Rattle.rebuild_core.specs.Reached.{given_digests};
ghost use Rattle.rebuild_core.specs.Conditions.{RepeatedDisclosure};
ghost use Rattle.rebuild_core.specs.LookUps.{counted, RoseWithin};
ghost use Rattle.rebuild_core.specs.DigestNumbers.{numbers, all_interned, row_texts};

use crate::rows::Row;
use digest_index::{DigestIndex, Steps};
use digest_sites::GivenList;
use sd_outside::NoMemory;
use std::alloc::Global;

// Does nothing but tell a proof how great a count can be.
pub(crate) fn steps_fit(steps: &Steps)
    ensures { steps.now ≤ 2 ^ 64 - 1 }
{
    let _ = steps.count();
}

// Numbers the digests of the disclosures. The answer is the first that repeats an earlier one.
pub(crate) fn number_given<'a>(
    given: &'a GivenList,
    index: &mut DigestIndex<'a>,
    steps: &mut Steps,
) -> Result<Option<usize>, NoMemory>
    requires { index.old ≡ [] }
    ensures repeated { IfOk result
        (λ r. MatchOption r (AtNone (RepeatedDisclosure given.now))
        (λ i. IsLeast (RepeatedDisclosure given.now) i)) }
    ensures all { IfOk result
        (λ r. MatchOption r (index.new ≡ given_digests given.now) (λ i. Unit {0})) }
    ensures counted { IfOk result
        (λ r. MatchOption r (steps.new ≡ counted steps.old (length given.now)) (λ i. Unit {0})) }
    ensures risen { RoseWithin (length given.now) steps.old steps.new }
{
    steps_fit(steps);
    for (i, item) in given.items().iter().enumerate() {
        let k = index.intern(item.digest.as_str(), steps)?;
        if k < i {
            return Ok(Some(i));
        }
    }
    Ok(None)
}

// Numbers the digests of rows in turn.
pub(crate) fn number_rows<'a>(
    alloc: Global,
    rows: &[Row<'a>],
    index: &mut DigestIndex<'a>,
    steps: &mut Steps,
) -> Result<Vec<usize>, NoMemory>
    ensures numbers { IfOk result (λ r. r.items ≡ numbers index.old (row_texts rows.now)) }
    ensures index { OnOk result (index.new ≡ all_interned index.old (row_texts rows.now)) }
    ensures counted { OnOk result (steps.new ≡ counted steps.old (length rows.now)) }
    ensures risen { RoseWithin (length rows.now) steps.old steps.new }
{
    steps_fit(steps);
    let mut found = Vec::with_capacity(alloc, rows.len())?;
    for row in rows {
        let k = index.intern(row.digest.as_str(), steps)?;
        found.push(k)?;
    }
    Ok(found)
}
