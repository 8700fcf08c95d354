// The look-ups of a token with many members, as `gen` makes it: each digest that it shows is looked
// up once, and each disclosure.
use crate::tell::joined;
use claim_tree::Path;
use compact_form::print;
use digest_index::Steps;
use hmac_sign::Hs256Key;
use holder_core::{present, read_present};
use issuer_core::{issue_owned, read_order};
use sd_outside::TextBox;
use selection_core::Consent;
use std::alloc::Global;
use std::process::Abort;
use verifier_core::{read_policy, verify_payload};

const KEYS: &str =
    r#""keys":{"keys":[{"kty":"oct","k":"AQEBAQEBAQEBAQEBAQEBAQEBAQEBAQEBAQEBAQEBAQE"}]}"#;

// The numbers below this one that are multiples of another, each between two texts.
fn listed(
    rt: &impl Abort,
    alloc: Global,
    below: u32,
    multiples_of: u32,
    (before, behind): (&str, &str),
) -> String {
    let mut text = String::new(alloc);
    for i in 0..below {
        if i % multiples_of.max(1) == 0 {
            let comma = if i == 0 { "" } else { "," };
            let piece = format!(in alloc; "{comma}{before}{i}{behind}").expect(rt, "memory");
            text.push_str(piece.as_str()).expect(rt, "memory");
        }
    }
    text
}

// The pointers to this place in each member whose number is a multiple.
fn pointers(rt: &impl Abort, alloc: Global, below: u32, multiples_of: u32, place: &str) -> String {
    let behind = joined(rt, alloc, &[place, "\""]);
    listed(rt, alloc, below, multiples_of, ("\"/m", behind.as_str()))
}

// Every second member is hidden, the number of every third, and an element of the list of every
// fifth.
fn hidden(rt: &impl Abort, alloc: Global, count: u32) -> String {
    let whole = pointers(rt, alloc, count, 2, "");
    let numbers = pointers(rt, alloc, count, 3, "/a");
    let elements = pointers(rt, alloc, count, 5, "/b/1");
    joined(
        rt,
        alloc,
        &[
            whole.as_str(),
            ",",
            numbers.as_str(),
            ",",
            elements.as_str(),
        ],
    )
}

// An order for so many members, each with a number and a list.
fn order_of(rt: &impl Abort, alloc: Global, count: u32) -> String {
    let members = listed(rt, alloc, count, 1, ("\"m", "\":{\"a\":1,\"b\":[2,3]}"));
    let hidden = hidden(rt, alloc, count);
    let (members, hidden) = (members.as_str(), hidden.as_str());
    joined(
        rt,
        alloc,
        &[r#"{"payload":{"#, members, r#"},"hide":["#, hidden, REST],
    )
}

const REST: &str =
    r#"],"decoys":[{"at":"","count":1}],"key":"AQEBAQEBAQEBAQEBAQEBAQEBAQEBAQEBAQEBAQEBAQE"}"#;

fn issued(rt: &impl Abort, alloc: Global, order: &str) -> TextBox {
    let said = read_order(alloc, order.as_bytes()).expect(rt, "an order");
    let mut key = said.key;
    let parts = issue_owned(alloc, said.order, &[0; 32], &mut key).expect(rt, "issued");
    print(alloc, &parts).expect(rt, "memory")
}

// What is presented of a token, where all places may be shown.
fn presented(rt: &impl Abort, alloc: Global, token: &str, order: &str) -> TextBox {
    let said = read_present(alloc, order.as_bytes()).expect(rt, "an order");
    let mut signer = Hs256Key::new(&[2; 32]).expect(rt, "a key");
    let consent = Consent::new(|_: &Path| true);
    let (text, steps) = (token.as_bytes(), &mut Steps::new());
    let parts = present(alloc, text, &said.ask, &consent, &mut signer, 0, steps);
    let parts = parts.expect(rt, "presented");
    print(alloc, &parts).expect(rt, "memory")
}

// What is presented of it where the number of every fourth member is wanted.
fn every_fourth(rt: &impl Abort, alloc: Global, count: u32) -> TextBox {
    let order = order_of(rt, alloc, count);
    let token = issued(rt, alloc, order.as_str());
    let want = pointers(rt, alloc, count, 4, "/a");
    let order = joined(rt, alloc, &["{", KEYS, ",\"want\":[", want.as_str(), "]}"]);
    presented(rt, alloc, token.as_str(), order.as_str())
}

// The look-ups of its verification.
fn look_ups(rt: &impl Abort, alloc: Global, text: &str) -> u64 {
    let policy = joined(rt, alloc, &["{", KEYS, "}"]);
    let policy = read_policy(alloc, policy.as_bytes()).expect(rt, "a policy");
    let mut steps = Steps::new();
    let payload = verify_payload(alloc, text.as_bytes(), &policy, 0, &mut steps);
    assert!(rt; payload.is_ok());
    steps.count()
}

#[test]
fn look_ups_of_many_members_are_no_more_than_digests_and_disclosures(rt: HostRuntime) {
    for (members, wanted) in [(30, 40), (3000, 3701)] {
        let text = every_fourth(&rt, rt.alloc(), members);
        assert_eq!(rt; look_ups(&rt, rt.alloc(), text.as_str()), wanted);
    }
}
