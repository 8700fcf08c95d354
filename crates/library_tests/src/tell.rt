// Texts that tests compare. A test costs little to prove if it has few values at a time and calls
// these; each of them ends the test where there is no memory.
use compact_form::{JwtParts, Parts};
use std::alloc::Global;
use std::process::Abort;

// The texts one after another.
pub(crate) fn joined(rt: &impl Abort, alloc: Global, texts: &[&str]) -> String {
    let mut all = String::new(alloc);
    for text in texts {
        all.push_str(text).expect(rt, "memory");
    }
    all
}

// A number of look-ups, and what is told.
pub(crate) fn counted(rt: &impl Abort, alloc: Global, count: u64, told: &str) -> String {
    format!(in alloc; "{count} {told}").expect(rt, "memory")
}

// What is told, a number of look-ups, how deep the places are that a rule was asked for, and more.
pub(crate) fn noticed(
    rt: &impl Abort,
    alloc: Global,
    told: &str,
    (count, places): (u64, u64),
    more: &str,
) -> String {
    format!(in alloc; "{told}, {count}, {places}{more}").expect(rt, "memory")
}

// Ends the test unless what is told is this line with this behind it.
pub(crate) fn expect_told(rt: &impl Abort, told: &str, line: &str, behind: &str) {
    assert_eq!(rt; told.strip_prefix(line), Some(behind), "{told}");
}

// The text that the signature of a JWT is over, behind a blank.
pub(crate) fn signed_text(rt: &impl Abort, alloc: Global, jwt: &JwtParts) -> String {
    let (protected, payload) = (jwt.protected.as_str(), jwt.payload.as_str());
    joined(rt, alloc, &[" ", protected, ".", payload])
}

// The compact text of a JWT.
pub(crate) fn jwt_text(rt: &impl Abort, alloc: Global, jwt: &JwtParts) -> String {
    let (protected, payload) = (jwt.protected.as_str(), jwt.payload.as_str());
    joined(
        rt,
        alloc,
        &[protected, ".", payload, ".", jwt.signature.as_str()],
    )
}

// What stands behind the first JWT of a token: its disclosures, between tildes.
pub(crate) fn behind(rt: &impl Abort, alloc: Global, parts: &Parts) -> String {
    let mut all = joined(rt, alloc, &["~"]);
    for disclosure in parts.disclosures.elements() {
        all.push_str(disclosure.as_str()).expect(rt, "memory");
        all.push_str("~").expect(rt, "memory");
    }
    all
}
