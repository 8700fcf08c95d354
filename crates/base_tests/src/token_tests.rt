// Tests of the forms and the parts of a token: of what the calls say that no run makes.
use claim_tree::write;
use compact_form::{At, check, parse};
use json_form::{JsonFormError, parse_json, print_flat, print_general, read_token};
use jws_part::{BodyError, read_body};
use refusals::JsonPlace;
use sd_outside::NoMemory;
use std::alloc::Global;

// Whether the parts of a token are those that stand in it.
fn has_parts(alloc: Global) -> bool {
    let Ok(parts) = parse(alloc, b"a.bb.c~d~ee~e.f.g") else {
        return false;
    };
    match (parts.disclosures.at(1), parts.binding.as_ref()) {
        (Some(text), Some(jwt)) => text.as_str() == "ee" && jwt.signature.as_str() == "g",
        _ => false,
    }
}

#[test]
fn disclosures_are_counted_and_copied(rt: HostRuntime) {
    let three = [
        check(b"a.bb.c~d~ee~e.f.g"),
        check(b"a.b.c~"),
        check(b"a.b.c"),
    ];
    assert!(rt; has_parts(rt.alloc()) && three == [Ok(2), Ok(0), Err(At(5))]);
}

// Whether this is the JSON text of a payload, or there is none.
fn is_body(alloc: Global, payload: &str, wanted: Option<&str>) -> Result<bool, NoMemory> {
    match read_body(alloc, payload) {
        Ok(body) => {
            let text = write(alloc, &body)?;
            Ok(wanted == Some(text.as_str()))
        }
        Err(error) => Ok(error == BodyError::Unreadable && wanted.is_none()),
    }
}

#[test]
fn a_payload_is_read(rt: HostRuntime) {
    for (payload, wanted) in [
        // RFC 7515 appendix A.1
        (
            "eyJpc3MiOiJqb2UiLA0KICJleHAiOjEzMDA4MTkzODAsDQogImh0dHA6Ly9leGFtcGxlLmNvbS9pc19yb290Ijp0cnVlfQ",
            Some(r#"{"exp":1300819380,"http://example.com/is_root":true,"iss":"joe"}"#),
        ),
        // []
        ("W10", None),
    ] {
        assert!(rt;
            is_body(rt.alloc(), payload, wanted) == Ok(true),
            "{payload}"
        );
    }
}

const FLAT: &str =
    r#"{"header":{"disclosures":["d"],"kb_jwt":"e.f.g"},"payload":"b","protected":"a","signature":"c"}"#;

const GENERAL: &str =
    r#"{"payload":"b","signatures":[{"header":{"disclosures":["d"],"kb_jwt":"e.f.g"},"protected":"a","signature":"c"}]}"#;

// Runs print what is borrowed.
fn is_printed(alloc: Global) -> Result<bool, NoMemory> {
    let Ok(token) = read_token(alloc, b"a.b.c~d~e.f.g") else {
        return Ok(false);
    };
    let flat = print_flat(alloc, &token)?;
    let general = print_general(alloc, &token)?;
    Ok(flat.as_str() == FLAT && general.as_str() == GENERAL)
}

#[test]
fn a_token_is_printed_in_both_json_forms(rt: HostRuntime) {
    assert!(rt; is_printed(rt.alloc()) == Ok(true));
}

// In a file these are judged as compact texts.
#[test]
fn what_is_no_object_is_no_token(rt: HostRuntime) {
    for (text, place) in [
        ("[1.5]", JsonPlace::NotWhole),
        (r#"[{"payload":"b"}]"#, JsonPlace::NotObject),
    ] {
        let refused = parse_json(rt.alloc(), text.as_bytes()).err();
        assert!(rt; refused == Some(JsonFormError::Fault(place)), "{text}");
    }
}
