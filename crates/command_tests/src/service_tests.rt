// The two calls of the service, over tokens that it issues itself.
use claim_tree::{PathList, read, read_pointer, write};
use examples_service::{claim_of, token_for};
use hmac_sign::Hs256Key;
use issuer_core::{IssueError, refusal_line};
use sd_outside::TextBox;
use std::alloc::Global;
use std::test::Fail;
use verifier_core::{VerifyError, fault_line, read_policy};

const PAYLOAD: &str =
    r#"{"iss":"https://tickets.example","exp":1900000000,"hall":"B","seat":{"row":7,"place":12}}"#;

// The key that signs, 32 bytes 1, and another.
const POLICY: &str =
    r#"{"keys":{"keys":[{"kty":"oct","k":"AQEBAQEBAQEBAQEBAQEBAQEBAQEBAQEBAQEBAQEBAQE"}]}}"#;

const OTHER_POLICY: &str =
    r#"{"keys":{"keys":[{"kty":"oct","k":"AgICAgICAgICAgICAgICAgICAgICAgICAgICAgICAgI"}]}}"#;

// The token of the payload with one place hidden, or the line of the refusal.
fn issued(alloc: Global, pointer: &str) -> Result<TextBox, Fail> {
    let Ok(mut key) = Hs256Key::new(&[1; 32]) else {
        return Err("short key")?;
    };
    let Ok(pointer) = read_pointer(alloc, pointer) else {
        return Err("no pointer")?;
    };
    let mut hide = PathList::new(alloc);
    hide.push(pointer)?;
    let Ok(payload) = read(alloc, PAYLOAD.as_bytes()) else {
        return Err("no payload")?;
    };
    match token_for(alloc, payload, hide, &[0; 32], &mut key) {
        Ok(token) => Ok(token),
        Err(IssueError::Memory) => Err("no memory")?,
        Err(error) => Ok(refusal_line(alloc, &error)?),
    }
}

// The JSON text of a claim, an empty text where there is none, or the line of the refusal.
fn answered(
    alloc: Global,
    policy: &str,
    token: &str,
    now: u64,
    name: &str,
) -> Result<TextBox, Fail> {
    let Ok(policy) = read_policy(alloc, policy.as_bytes()) else {
        return Err("no policy")?;
    };
    match claim_of(alloc, &policy, token, now, name) {
        Ok(Some(claim)) => Ok(write(alloc, &claim)?),
        Ok(None) => Ok(TextBox::make(alloc, "")?),
        Err(VerifyError::Fault(fault)) => Ok(fault_line(alloc, &fault)?),
        Err(VerifyError::Memory) => Err("no memory")?,
    }
}

#[test]
fn a_claim_of_an_issued_token_is_answered_and_an_order_is_refused(
    rt: HostRuntime,
) -> Result<(), Fail> {
    let alloc = rt.alloc();
    let token = issued(alloc, "/seat")?;
    let token = token.as_str();
    let (signed, _) = token.split_once('~').ok_or("no disclosure")?;
    let kept_back = format!(in alloc; "{signed}~")?;
    let kept_back = kept_back.as_str();
    for (policy, token, now, name, answer) in [
        (POLICY, token, 1899999999, "seat", r#"{"place":12,"row":7}"#),
        (POLICY, token, 1899999999, "hall", r#""B""#),
        (POLICY, token, 1899999999, "row", ""),
        (POLICY, kept_back, 1899999999, "seat", ""),
        (POLICY, token, 1900000000, "seat", "refused 25 expired"),
        (OTHER_POLICY, token, 0, "seat", "refused 10 badSignature"),
    ] {
        let found = answered(alloc, policy, token, now, name)?;
        assert!(rt; found.as_str() == answer, "{name} at {now}");
    }
    for (pointer, line) in [
        ("/stand", "refused 55 noSuchPlace at 0"),
        ("/exp", "refused 56 protectedClaim at 0"),
    ] {
        assert!(rt; issued(alloc, pointer)?.as_str() == line, "{pointer}");
    }
    Ok(())
}
