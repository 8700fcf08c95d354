// Tests of opening a payload with its disclosures.
ghost use Rattle.std.specs.Prelude.{◌≤◌, ◌<◌, ◌-◌, ◌^◌, length, IfOk, IsTrue};
ghost use Rattle.claim_tree.specs.View.{tree_of};
ghost use Rattle.rebuild_core.specs.Answer.{IsPayload, ValuesShallow};

use crate::from_text::value;
use claim_tree::Tree;
use digest_index::Steps;
use digest_sites::{Given, GivenList};
use rebuild_core::ProcessError::{RepeatedDigest, Unreferenced};
use rebuild_core::{ProcessError, process};
use sd_outside::{NoMemory, TextBox};
use std::alloc::Global;

// Adds a disclosure of an element: a list with the digest `next`.
fn add(alloc: Global, list: &mut GivenList, digest: usize, next: usize) -> Result<(), NoMemory>
    requires depths { ValuesShallow list.old }
    requires few { length list.old < 2 ^ 32 - 1 }
    ensures depths { ValuesShallow list.new }
    ensures few { length list.new < 2 ^ 32 - 1 }
{
    if list.len() >= 5000 {
        return Err(NoMemory);
    }
    let digest = TextBox::from_string(format!(in alloc; "{digest}")?);
    let text = format!(in alloc; "[{{\"...\":\"{next}\"}}]")?;
    let value = value(alloc, text.as_str())?;
    list.push(Given {
        digest,
        name: None,
        value,
    })?;
    Ok(())
}

// So many disclosures with the digests from 1 on, the digest of each in the value of the one
// before, and that of the first in the value of the last.
fn circle(alloc: Global, count: usize) -> Result<GivenList, NoMemory>
    ensures depths { IfOk result ValuesShallow }
    ensures few { IfOk result (λ list. length list < 2 ^ 32 - 1) }
{
    let mut list = GivenList::new(alloc);
    for i in 1..count {
        add(alloc, &mut list, i, i + 1)?;
    }
    add(alloc, &mut list, count, 1)?;
    Ok(list)
}

fn is_payload(tree: &Tree) -> bool
    ensures { IsTrue result → IsPayload (tree_of tree.now) }
{
    let Tree::Object(members) = tree else {
        return false;
    };
    match members.get("_sd_alg") {
        Some(alg) => alg.as_text().is_some(),
        None => true,
    }
}

// Why a payload is refused with these disclosures.
fn refusal(
    alloc: Global,
    text: &str,
    given: &GivenList,
    steps: &mut Steps,
) -> Result<Option<ProcessError>, NoMemory>
    requires depths { ValuesShallow given.now }
    requires few { length given.now < 2 ^ 32 - 1 }
{
    let payload = value(alloc, text)?;
    if !is_payload(&payload) {
        return Ok(None);
    }
    Ok(process(alloc, &payload, given, steps).err())
}

// The same with a circle of so many disclosures, and the number of look-ups.
fn circle_refused(
    alloc: Global,
    text: &str,
    count: usize,
) -> Result<(Option<ProcessError>, u64), NoMemory> {
    let mut steps = Steps::new();
    let given = circle(alloc, count)?;
    let refused = refusal(alloc, text, &given, &mut steps)?;
    Ok((refused, steps.count()))
}

// No digests of texts lead in a circle. Each digest is looked up once, and so is each place.
#[test]
fn digests_may_lead_in_a_circle(rt: HostRuntime) {
    let reached = r#"{"a":[{"...":"1"}]}"#;
    for (text, count, look_ups, error) in [
        (reached, 1, 3, RepeatedDigest(1)),
        (reached, 2, 5, RepeatedDigest(2)),
        (reached, 4096, 8193, RepeatedDigest(4096)),
        ("{}", 1, 2, Unreferenced(0)),
        ("{}", 2, 4, Unreferenced(0)),
        ("{}", 4096, 8192, Unreferenced(0)),
    ] {
        let refused = circle_refused(rt.alloc(), text, count);
        assert!(rt; refused == Ok((Some(error), look_ups)), "{text} {count}");
    }
}
