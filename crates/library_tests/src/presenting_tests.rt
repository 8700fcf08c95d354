// Presenting where the caller checks the issuer's signature and makes the holder's, over the token
// of RFC 9901 section 5.2 without its key binding token.
use crate::holder_tests::why;
use crate::judge_tests::{PRESENTED, asked};
use crate::recording::noted;
use crate::tell::{behind, expect_told, joined, jwt_text};
use claim_tree::{Path, write};
use compact_form::Parts;
use digest_index::Steps;
use holder_core::{
    PresentError, Presentation, UnsignedPresentation, present_unsigned, read_unsigned_present,
};
use key_binding::SignatureAnswer::{self, Bad, Good, Unknown};
use selection_core::Consent;
use std::alloc::Global;
use std::cell::Cell;
use std::process::Abort;

const ALONE: &str = r#"{"algs":["ES256"],"want":["/given_name"]}"#;

const BOUND: &str =
    r#"{"algs":["ES256"],"want":["/given_name"],"binding":{"alg":"ES384","aud":"v","nonce":"n"}}"#;

// One that names the key of the holder, which the payload does not name.
const KEY_NAMED: &str =
    r#"{"algs":["ES256"],"want":[],"binding":{"alg":"ES384","aud":"v","nonce":"n","kid":"h"}}"#;

const OTHER_ALG: &str = r#"{"algs":["ES384"],"want":[]}"#;

// What is sent behind the JWT of the issuer: the disclosure of the given name.
const GIVEN_NAME: &str = "~WyIyR0xDNDJzS1F2ZUNmR2ZyeU5STjl3IiwgImdpdmVuX25hbWUiLCAiSm9obiJd~";

// `{"alg":"ES384","typ":"kb+jwt"}` and, with the hash of what stands before it,
// `{"aud":"v","iat":1000,"nonce":"n","sd_hash":"3tB8zOIgGsVX3vCF4fUU8maeEnSRTDPv3XRZoEuuUPI"}`.
const BINDING: &str =
    "eyJhbGciOiJFUzM4NCIsInR5cCI6ImtiK2p3dCJ9.eyJhdWQiOiJ2IiwiaWF0IjoxMDAwLCJub25jZSI6Im4iLCJzZF9oYXNoIjoiM3RCOHpPSWdHc1ZYM3ZDRjRmVVU4bWFlRW5TUlREUHYzWFJab0V1dVVQSSJ9";

// What is sent behind the JWT of the issuer.
fn sent(rt: &impl Abort, alloc: Global, parts: &Parts) -> String {
    let disclosures = behind(rt, alloc, parts);
    let binding = match &parts.binding {
        Some(jwt) => jwt_text(rt, alloc, jwt),
        None => String::new(alloc),
    };
    joined(rt, alloc, &[disclosures.as_str(), binding.as_str()])
}

// What is to be signed, and what is sent with these bytes as its signature. The payload beside it
// tells the key of the holder.
fn to_sign(
    rt: &impl Abort,
    alloc: Global,
    unsigned: UnsignedPresentation,
    signature: &[u8],
) -> String {
    let payload = write(alloc, &unsigned.payload).expect(rt, "memory");
    assert!(rt; payload.as_str().contains(r#""cnf":{"jwk":{"crv":"P-256""#));
    let text = unsigned.binding.text(alloc).expect(rt, "memory");
    expect_told(rt, text.as_str(), BINDING, "");
    match unsigned.signed(alloc, signature) {
        Ok(parts) => sent(rt, alloc, &parts),
        Err(error) => why(rt, alloc, &error),
    }
}

// What is told of it. A question has the algorithm, and the lengths of the signature and of the
// text that this is over.
fn told(
    rt: &impl Abort,
    alloc: Global,
    answer: Result<Presentation, PresentError>,
    signature: &[u8],
) -> String {
    match answer {
        Ok(Presentation::AsksIssuer(question)) => asked(rt, alloc, "asks", &question),
        Ok(Presentation::ToSign(unsigned)) => to_sign(rt, alloc, unsigned, signature),
        Ok(Presentation::Presented(parts)) => sent(rt, alloc, &parts),
        Err(error) => why(rt, alloc, &error),
    }
}

// How far the token is presented, where all places may be shown, and how deep the places are that
// the rule is asked for.
fn presented(
    rt: &impl Abort,
    alloc: Global,
    order: &str,
    answer: Option<SignatureAnswer>,
) -> (Result<Presentation, PresentError>, u64) {
    let said = read_unsigned_present(alloc, order.as_bytes()).expect(rt, "an order");
    let (token, _) = PRESENTED.rsplit_once('~').expect(rt, "a token");
    let token = joined(rt, alloc, &[token, "~"]);
    let places = Cell::new(0);
    let consent = Consent::new(|place: &Path| noted(&places, place));
    let (text, steps) = (token.as_bytes(), &mut Steps::new());
    let answer = present_unsigned(alloc, text, &said.ask, answer, &consent, 1000, steps);
    (answer, places.get())
}

// An order, what the caller says of the issuer's signature, the bytes of the holder's, how deep the
// places are that the rule is asked for, and what is told. No rule is asked before the issuer's
// signature is said to be good.
const TOLD: [(&str, Option<SignatureAnswer>, &[u8], u64, &str, &[&str]); 9] = [
    (ALONE, None, b"", 0, "asks ES256 64 1099", &[]),
    (BOUND, None, b"", 0, "asks ES256 64 1099", &[]),
    (OTHER_ALG, None, b"", 0, "refused 7 algRefused", &[]),
    (BOUND, Some(Bad), b"", 0, "refused 10 badSignature", &[]),
    (
        ALONE,
        Some(Unknown),
        b"",
        0,
        "refused 9 issuerKeyUnknown",
        &[],
    ),
    (
        KEY_NAMED,
        Some(Good),
        b"",
        0,
        "refused 74 bindingKeyDiffers",
        &[],
    ),
    (ALONE, Some(Good), b"", 1, GIVEN_NAME, &[]),
    // no bytes are no signature
    (BOUND, Some(Good), b"", 1, "fails", &[]),
    (
        BOUND,
        Some(Good),
        b"SIGNED",
        1,
        GIVEN_NAME,
        &[BINDING, ".U0lHTkVE"],
    ),
];

#[test]
fn a_caller_says_what_the_issuer_signed_and_signs_itself(rt: HostRuntime) {
    let alloc = rt.alloc();
    for (order, answer, signature, places, line, rest) in TOLD {
        let (presentation, asked) = presented(&rt, alloc, order, answer);
        assert_eq!(rt; asked, places, "{line}");
        let told = told(&rt, alloc, presentation, signature);
        let rest = joined(&rt, alloc, rest);
        expect_told(&rt, told.as_str(), line, rest.as_str());
    }
}
