// Tests of key sets: of the first key, and of why a value is none.
use claim_tree::read;
use hmac_sign::KeySetError::{KeyNotBase64, KeyShort, NotASet};
use hmac_sign::{Hs256Key, KeySet, KeySetError};
use std::alloc::Global;

// A key of another kind, one of 32 bytes 1, and one of 32 bytes 2 with a name.
const SET: &str =
    r#"{"keys":[{"kty":"EC"},{"kty":"oct","k":"AQEBAQEBAQEBAQEBAQEBAQEBAQEBAQEBAQEBAQEBAQE"},{"kty":"oct","kid":"b","k":"AgICAgICAgICAgICAgICAgICAgICAgICAgICAgICAgI"}],"more":1}"#;

// Whether a key is the one of 32 such bytes.
fn is_of(key: Option<&Hs256Key>, byte: u8) -> bool {
    let Ok(other) = Hs256Key::new(&[byte; 32]) else {
        return false;
    };
    match key {
        Some(key) => key.mac("head", "body") == other.mac("head", "body"),
        None => false,
    }
}

// Whether the set has these keys, and no others.
fn has_both(alloc: Global) -> bool {
    let Ok(tree) = read(alloc, SET.as_bytes()) else {
        return false;
    };
    let Ok(set) = KeySet::read(alloc, &tree) else {
        return false;
    };
    let others = set.find("a").is_some() || set.find("B").is_some() || set.find("").is_some();
    is_of(set.first(), 1) && is_of(set.find("b"), 2) && !others
}

#[test]
fn a_key_is_the_first_or_has_a_name(rt: HostRuntime) {
    assert!(rt; has_both(rt.alloc()));
}

fn refusal(alloc: Global, text: &str) -> Option<KeySetError> {
    let Ok(tree) = read(alloc, text.as_bytes()) else {
        return None;
    };
    KeySet::read(alloc, &tree).err()
}

#[test]
fn what_is_no_key_set_is_refused(rt: HostRuntime) {
    for (text, error) in [
        ("[]", NotASet),
        (r#"{"keys":{}}"#, NotASet),
        (r#"{"keys":["oct"]}"#, NotASet),
        (r#"{"keys":[{"kty":"oct","k":"A"},{"kty":1}]}"#, NotASet),
        (r#"{"keys":[{"kty":"oct"}]}"#, NotASet),
        (r#"{"keys":[{"kty":"oct","k":"AA","kid":1}]}"#, NotASet),
        (
            r#"{"keys":[{"kty":"oct","k":"AA"},{"kty":"EC"},{"kty":"oct","k":"A"}]}"#,
            KeyNotBase64(2),
        ),
        // 31 bytes
        (
            r#"{"keys":[{"kty":"oct","k":"AAECAwQFBgcICQoLDA0ODxAREhMUFRYXGBkaGxwdHg"}]}"#,
            KeyShort(0),
        ),
        (
            r#"{"keys":[{"kty":"EC","k":"A"},{"kty":"oct","k":"AAECAwQFBgcICQoLDA0ODxAREhMUFRYXGBkaGxwdHg"}]}"#,
            KeyShort(1),
        ),
    ] {
        assert!(rt; refusal(rt.alloc(), text) == Some(error), "{text}");
    }
}
