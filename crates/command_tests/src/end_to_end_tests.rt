// All three ends in one call, over what three files say.
ghost use Rattle.std.specs.Prelude.{◌≤◌, IfOk};
ghost use Rattle.sd_outside.specs.Limits.{json_depth_max};
ghost use Rattle.claim_tree.specs.Tree.{depth};
ghost use Rattle.claim_tree.specs.View.{tree_of};
ghost use Rattle.issuer_core.specs.Order.{order_of};
ghost use Rattle.issuer_core.specs.OrderFile.{IsOrderFile};
ghost use Rattle.holder_core.specs.PresentFile.{IsPresentFile};
ghost use Rattle.selection_core.specs.Never.{Judges, never_rule};
ghost use Rattle.verifier_core.specs.PolicyFile.{IsPolicyFile};
ghost use Rattle.sdjwt_cli.specs.PresentedValues.{AreShort};
ghost use Rattle.sdjwt_cli.specs.Presenting.{signing_key};
ghost use Rattle.sdjwt_cli.specs.Suits.{Suits};

use claim_tree::{Path, write};
use holder_core::{PresentFile, read_present};
use issuer_core::{IssueFile, read_order};
use sd_outside::TextBox;
use sdjwt_lib::{Holder, Issuer, issue_present_verify};
use selection_core::{Consent, NeverPlaces};
use std::alloc::Global;
use std::test::Fail;
use verifier_core::{Policy, read_policy};

// Both names are hidden.
const ORDER: &str =
    r#"{"hide":["/family_name","/given_name"],"key":"dGhlIGtleSBvZiBhbiBpc3N1ZXIsIDMyIGJ5dGVzLi4","payload":{"cnf":{"kid":"h"},"family_name":"Bee","given_name":"Ann","iss":"i"},"typ":"dc+sd-jwt"}"#;

// The given name is wanted, with a key binding token.
const PRESENT: &str =
    r#"{"binding":{"aud":"v","key":"dGhlIGtleSBvZiBhIGhvbGRlciwgb2YgMzIgYnl0ZXM","kid":"h","nonce":"7"},"keys":{"keys":[{"k":"dGhlIGtleSBvZiBhbiBpc3N1ZXIsIDMyIGJ5dGVzLi4","kty":"oct"}]},"never":["/family_name"],"want":["/given_name"]}"#;

const POLICY: &str =
    r#"{"binding":{"aud":"v","keys":{"keys":[{"k":"dGhlIGtleSBvZiBhIGhvbGRlciwgb2YgMzIgYnl0ZXM","kid":"h","kty":"oct"}]},"max_age":300,"nonce":"7"},"iss":"i","keys":{"keys":[{"k":"dGhlIGtleSBvZiBhbiBpc3N1ZXIsIDMyIGJ5dGVzLi4","kty":"oct"}]},"require":["given_name"],"skew":5,"typ":"dc+sd-jwt"}"#;

// When the token is presented, and when what is shown is verified.
const PRESENTED_AT: u64 = 1000;

const VERIFIED_AT: u64 = 1300;

fn issue_file(alloc: Global, text: &str) -> Result<IssueFile, Fail>
    ensures said { IfOk result (IsOrderFile text.now) }
    ensures depth { IfOk result (λ said. depth (tree_of said.order.payload) ≤ json_depth_max) }
{
    match read_order(alloc, text.as_bytes()) {
        Ok(file) => Ok(file),
        Err(_) => Err("no order")?,
    }
}

fn present_file(alloc: Global, text: &str) -> Result<PresentFile, Fail>
    ensures said { IfOk result (IsPresentFile text.now) }
{
    match read_present(alloc, text.as_bytes()) {
        Ok(file) => Ok(file),
        Err(_) => Err("no present order")?,
    }
}

fn policy(alloc: Global, text: &str) -> Result<Policy, Fail>
    ensures said { IfOk result (IsPolicyFile text.now) }
{
    match read_policy(alloc, text.as_bytes()) {
        Ok(policy) => Ok(policy),
        Err(_) => Err("no policy")?,
    }
}

// The JSON text of the payload that a verifier finds.
fn found(alloc: Global, issuer: Issuer, said: PresentFile, policy: &Policy) -> Result<TextBox, Fail>
    requires depth { depth (tree_of issuer.order.payload) ≤ json_depth_max }
    requires short { AreShort said.ask.binding }
    requires suits { Suits never_rule said.never (order_of issuer.order) issuer.key said.ask
        (signing_key said.key) policy.now 1000 1300 }
{
    let PresentFile { ask, never, key } = said;
    let key = key.ok_or("no key")?;
    let never = NeverPlaces::of(never)?;
    let consent = Consent::new(
        |place: &Path|
            ensures { Judges never place.now result }
        { never.may_be_shown(place) },
    );
    let holder = Holder { ask, consent };
    match issue_present_verify(
        alloc,
        issuer,
        &holder,
        key,
        PRESENTED_AT,
        policy,
        VERIFIED_AT,
    ) {
        Ok(payload) => Ok(write(alloc, &payload)?),
        Err(_) => Err("refused")?,
    }
}

#[test]
fn a_verifier_finds_the_payload_without_what_is_kept_back(rt: HostRuntime) -> Result<(), Fail> {
    let alloc = rt.alloc();
    let file = issue_file(alloc, ORDER)?;
    let said = present_file(alloc, PRESENT)?;
    let policy = policy(alloc, POLICY)?;
    let issuer = Issuer {
        order: file.order,
        seed: [7; 32],
        key: file.key,
    };
    let payload = found(alloc, issuer, said, &policy)?;
    assert!(rt; payload.as_str() == r#"{"cnf":{"kid":"h"},"given_name":"Ann","iss":"i"}"#);
    Ok(())
}
