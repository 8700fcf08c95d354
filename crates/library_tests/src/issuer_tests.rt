// Orders by the calls of the library: what a signer is asked, signatures that are made apart from
// the texts that they are over, clashes and decoys.
ghost use Rattle.std.specs.Prelude.{◌≤◌};
ghost use Rattle.sd_outside.specs.Limits.{json_depth_max};
ghost use Rattle.claim_tree.specs.Tree.{depth};
ghost use Rattle.claim_tree.specs.View.{tree_of};

use crate::recording::Recorder;
use crate::tell::{behind, expect_told, joined, jwt_text, signed_text};
use claim_tree::Path;
use compact_form::Parts;
use file_members::{Field, FileFault};
use hmac_sign::{Alg, AlgName, HsKey, Signer};
use issuer_core::{
    Decoy, DecoyList, IssueError, Order, UnsignedToken, first_clash, issue, issue_owned, judge,
    read_order, read_unsigned_order, refusal_line, to_sign,
};
use sd_outside::{TextBox, TextList};
use std::alloc::Global;
use std::process::Abort;

const SEED: [u8; 32] = [7; 32];

// An order, with and without the key that signs.
const KEYED: &str =
    r#"{"payload":{"a":1,"b":[2,3]},"hide":["/a","/b/1"],"decoys":[{"at":"","count":1}],"kid":"k","typ":"t","key":"AQEBAQEBAQEBAQEBAQEBAQEBAQEBAQEBAQEBAQEBAQE","sd_alg":"sha-384"}"#;

const UNKEYED: &str =
    r#"{"payload":{"a":1,"b":[2,3]},"hide":["/a","/b/1"],"decoys":[{"at":"","count":1}],"kid":"k","typ":"t","sd_alg":"sha-384"}"#;

fn order_of(rt: &impl Abort, alloc: Global, file: &str) -> Order
    ensures shallow { depth (tree_of result.payload) ≤ json_depth_max }
{
    read_unsigned_order(alloc, file.as_bytes()).expect(rt, "an order")
}

// The text that is signed of what is issued, or why nothing is.
fn told(rt: &impl Abort, alloc: Global, answer: &Result<Parts, IssueError>) -> String {
    match answer {
        Ok(parts) => signed_text(rt, alloc, &parts.signed),
        Err(IssueError::SignFailed) => joined(rt, alloc, &["fails"]),
        Err(error) => refusal_line(alloc, error)
            .expect(rt, "memory")
            .into_string(),
    }
}

// What is told of an order, and what its signer was asked to sign.
fn issued(rt: &impl Abort, alloc: Global, file: &str, fails: bool) -> (String, String) {
    let order = order_of(rt, alloc, file);
    let mut signer = Recorder::new(rt, alloc, fails);
    let answer = issue(alloc, &order, &SEED, &mut signer);
    (told(rt, alloc, &answer), signer.asked)
}

// A signer that fails is asked for the same text as one that signs it.
fn expect_asked_once(rt: &impl Abort, alloc: Global, file: &str) {
    let (told, asked) = issued(rt, alloc, file, false);
    assert!(rt; asked.as_str().len() > 20);
    expect_told(rt, told.as_str(), asked.as_str(), "");
    let (told, failed) = issued(rt, alloc, file, true);
    expect_told(rt, told.as_str(), "fails", "");
    expect_told(rt, failed.as_str(), asked.as_str(), "");
}

#[test]
fn a_signer_is_asked_once_for_what_is_issued(rt: HostRuntime) {
    for file in [r#"{"payload":{}}"#, UNKEYED] {
        expect_asked_once(&rt, rt.alloc(), file);
    }
}

// Orders that are refused, but for a payload that is too deep. No order makes two digests equal.
const REFUSED: [(&str, &str); 8] = [
    (r#"{"payload":[1]}"#, "refused 51 payloadNotObject"),
    (
        r#"{"payload":{"a":{"_sd":1}}}"#,
        "refused 52 reservedInPayload at \"/a/_sd\"",
    ),
    (
        r#"{"payload":{"a":1},"hide":[""]}"#,
        "refused 54 rootMarked at 0",
    ),
    (
        r#"{"payload":{"a":1},"hide":["/a","/x"]}"#,
        "refused 55 noSuchPlace at 1",
    ),
    (
        r#"{"payload":{"iss":"x"},"hide":["/iss"]}"#,
        "refused 56 protectedClaim at 0",
    ),
    (
        r#"{"payload":{"a":1},"decoys":[{"at":"/a","count":1}]}"#,
        "refused 57 decoyPlace at 0",
    ),
    (
        r#"{"payload":{"a":1},"decoys":[{"at":"","count":32768},{"at":"","count":1}]}"#,
        "refused 59 tooManyDecoys",
    ),
    (
        r#"{"payload":{"a":1,"b":{"c":1}},"hide":["/b/c","/b/d","/x"]}"#,
        "refused 55 noSuchPlace at 1",
    ),
];

fn expect_refused(rt: &impl Abort, alloc: Global, file: &str, line: &str) {
    let (told, asked) = issued(rt, alloc, file, true);
    expect_told(rt, told.as_str(), line, "");
    expect_told(rt, asked.as_str(), "", "");
}

// An order for a payload of so many lists inside one another.
fn deep_order(rt: &impl Abort, alloc: Global, count: usize) -> String {
    let begins = "[".repeat(alloc, count).expect(rt, "memory");
    let ends = "]".repeat(alloc, count).expect(rt, "memory");
    joined(
        rt,
        alloc,
        &[r#"{"payload":{"a":"#, begins.as_str(), ends.as_str(), "}}"],
    )
}

#[test]
fn nobody_is_asked_to_sign_an_order_that_is_refused(rt: HostRuntime) {
    let deep = deep_order(&rt, rt.alloc(), 110);
    expect_refused(&rt, rt.alloc(), deep.as_str(), "refused 53 payloadTooDeep");
    for (file, line) in REFUSED {
        expect_refused(&rt, rt.alloc(), file, line);
    }
}

fn compact(rt: &impl Abort, alloc: Global, parts: &Parts) -> String {
    let (jwt, behind) = (jwt_text(rt, alloc, &parts.signed), behind(rt, alloc, parts));
    joined(rt, alloc, &[jwt.as_str(), behind.as_str()])
}

// The token of an order, signed by the key that its file has.
fn signed_by_key(rt: &impl Abort, alloc: Global) -> String {
    let file = read_order(alloc, KEYED.as_bytes()).expect(rt, "an order");
    let mut key = file.key;
    let parts = issue_owned(alloc, file.order, &SEED, &mut key).expect(rt, "issued");
    compact(rt, alloc, &parts)
}

fn to_sign_by(rt: &impl Abort, alloc: Global, alg: &str) -> UnsignedToken {
    let alg = AlgName::new(alg).expect(rt, "a name");
    to_sign(alloc, order_of(rt, alloc, UNKEYED), &SEED, &alg).expect(rt, "to be signed")
}

// The same, signed apart.
fn signed_apart(rt: &impl Abort, alloc: Global) -> String {
    let token = to_sign_by(rt, alloc, "HS256");
    let (head, body) = (token.jwt.protected.as_str(), token.jwt.payload.as_str());
    let mut key = HsKey::new(Alg::Hs256, &[1; 32]).expect(rt, "a key");
    let signature = key.sign(alloc, head, body).expect(rt, "a signature");
    let parts = token.signed(alloc, signature.bytes()).expect(rt, "signed");
    compact(rt, alloc, &parts)
}

#[test]
fn a_signature_made_apart_makes_the_same_token(rt: HostRuntime) {
    let (apart, whole) = (
        signed_apart(&rt, rt.alloc()),
        signed_by_key(&rt, rt.alloc()),
    );
    expect_told(&rt, apart.as_str(), whole.as_str(), "");
}

// The header is `{"alg":"ES256","kid":"k","typ":"t"}`.
#[test]
fn the_header_names_the_algorithm_and_no_bytes_are_no_signature(rt: HostRuntime) {
    let token = to_sign_by(&rt, rt.alloc(), "ES256");
    let header = "eyJhbGciOiJFUzI1NiIsImtpZCI6ImsiLCJ0eXAiOiJ0In0";
    expect_told(&rt, token.jwt.protected.as_str(), header, "");
    assert_eq!(rt; token.disclosures.elements().len(), 2);
    assert!(rt; matches!(token.signed(rt.alloc(), b""), Err(IssueError::SignFailed)));
}

// A file with a key, and one without a payload.
#[test]
fn a_file_of_another_order_is_not_read(rt: HostRuntime) {
    for (file, fault) in [
        (KEYED, FileFault::Unknown),
        ("{}", FileFault::Missing(Field::Payload)),
    ] {
        let read = read_unsigned_order(rt.alloc(), file.as_bytes());
        assert_eq!(rt; read.err(), Some(fault));
    }
}

#[test]
fn a_place_that_is_not_there_is_named(rt: HostRuntime) {
    let order = order_of(&rt, rt.alloc(), r#"{"payload":{"a":1},"hide":["/a","/x"]}"#);
    assert!(rt; matches!(judge(rt.alloc(), &order), Err(IssueError::NoSuchPlace(1))));
    let alg = AlgName::new("ES256").expect(&rt, "a name");
    let told = to_sign(rt.alloc(), order, &SEED, &alg);
    assert!(rt; matches!(told, Err(IssueError::NoSuchPlace(1))));
}

// Two entries at the root, each of as many decoys as there can be: more than the file of an order
// can say.
fn decoys(rt: &impl Abort, alloc: Global) -> DecoyList {
    let mut decoys = DecoyList::new(alloc);
    for _ in 0..2 {
        let (at, count) = (Path::new(alloc), u32::MAX);
        decoys.push(Decoy { at, count }).expect(rt, "memory");
    }
    decoys
}

#[test]
fn decoys_are_counted_past_their_type(rt: HostRuntime) {
    let mut order = order_of(&rt, rt.alloc(), r#"{"payload":{}}"#);
    order.decoys = decoys(&rt, rt.alloc());
    assert!(rt; matches!(judge(rt.alloc(), &order), Err(IssueError::TooManyDecoys)));
}

// The first clash of the texts between blanks.
fn clash(rt: &impl Abort, alloc: Global, texts: &str) -> Option<(usize, usize)> {
    let mut list = TextList::new(alloc);
    for text in texts.split_whitespace() {
        let text = TextBox::make(alloc, text).expect(rt, "memory");
        list.push(text).expect(rt, "memory");
    }
    first_clash(alloc, &list).expect(rt, "memory")
}

#[test]
fn the_first_clash_is_named_by_its_places(rt: HostRuntime) {
    for (texts, found) in [
        ("x y x", Some((0, 2))),
        ("x y", None),
        ("x", None),
        ("", None),
        ("a b c b a c", Some((1, 3))),
        ("a a a", Some((0, 1))),
        ("a b c d d a", Some((3, 4))),
        ("a A", None),
    ] {
        assert_eq!(rt; clash(&rt, rt.alloc(), texts), found, "{texts}");
    }
}
