// The command `gen`: an order of a number of members is issued, presented and
// verified, and what there is of it counted.
ghost use Rattle.std.specs.Prelude.{◌≡◌, ◌++◌, IfOk, IfErr, OnOk, string_bytes};
ghost use Rattle.compact_form.specs.Compact.{AreWords};
ghost use Rattle.sdjwt_cli.specs.Generated.{generated, generated_seed, generated_key};
ghost use Rattle.sdjwt_cli.specs.Issuing.{IsIssuedBy};
ghost use Rattle.cli_parts.specs.Stops.{OnRefused, NotUnread, NotUnreadable};
ghost use Rattle.sdjwt_cli.specs.Summary.{Summarizes, DoesNotSummarize, count_line, summary_lines};
ghost use Rattle.sdjwt_cli.specs.SummarySteps.{IsPresentedOf, IsAcceptable, IsVerified};

use crate::generated::{ask_of, key, order_of, policy, presenting_key};
use crate::issue::{SEED_LEN, issue_parts};
use crate::present::present_parts;
use claim_tree::{PathList, Tree, write};
use cli_parts::Stop;
use compact_form::{Parts, print};
use digest_index::Steps;
use holder_core::PresentError;
use sd_outside::NoMemory;
use std::alloc::Global;
use verifier_core::{VerifyError, verify_payload};

// The seed of the salts. A token that is to keep anything hidden takes a new one.
const SEED: [u8; SEED_LEN] = [0; SEED_LEN];

// Nothing of what is issued depends on the moment.
const NOW: u64 = 0;

// What is issued for the order of a number of members.
fn issue_order(alloc: Global, count: u32) -> Result<Parts, Stop>
    ensures issued { IfOk result (IsIssuedBy generated_seed (generated count) generated_key) }
    ensures refuses { IfErr result (λ stop. OnRefused stop (DoesNotSummarize count)) }
    ensures readable { IfErr result NotUnreadable }
    ensures read { IfErr result NotUnread }
{
    let order = order_of(alloc, count)?;
    issue_parts(alloc, order, &SEED, key())
}

// What is presented of it.
fn present_issued(alloc: Global, count: u32, issued: &Parts) -> Result<Parts, NoMemory>
    requires { IsIssuedBy generated_seed (generated count) generated_key issued.now }
    ensures presented { IfOk result (IsPresentedOf count issued.now) }
    ensures words { IfOk result AreWords }
{
    let token = print(alloc, issued)?;
    let ask = ask_of(alloc, count)?;
    let never = PathList::new(alloc);
    let text = token.as_str().as_bytes();
    match present_parts(alloc, text, &ask, never, &mut presenting_key(), NOW) {
        Ok(parts) => Ok(parts),
        Err(PresentError::Memory) => Err(NoMemory),
        Err(_) => unreachable!(),
    }
}

// The claims that are verified, and how many digests were looked up.
fn verify_presented(alloc: Global, presented: &Parts) -> Result<(Tree, u64), NoMemory>
    requires words { AreWords presented.now }
    requires acceptable { IsAcceptable presented.now }
    ensures { IfOk result (λ found. IsVerified presented.now found.0 found.1) }
{
    let token = print(alloc, presented)?;
    let policy = policy(alloc)?;
    let mut steps = Steps::new();
    match verify_payload(alloc, token.as_str().as_bytes(), &policy, NOW, &mut steps) {
        Ok(claims) => Ok((claims, steps.count())),
        Err(VerifyError::Memory) => Err(NoMemory),
        Err(VerifyError::Fault(_)) => unreachable!(),
    }
}

// The line of one count.
fn push_count(text: &mut String, word: &str, count: u64) -> Result<(), NoMemory>
    ensures { OnOk result
        (string_bytes text.new ≡ string_bytes text.old ++ count_line word.now count) }
{
    writeln!(text, "{word} {count}")?;
    Ok(())
}

// The lines of what is counted.
fn summary_text(
    alloc: Global,
    hidden: u64,
    presented: u64,
    digests: u64,
    bytes: u64,
) -> Result<String, NoMemory>
    ensures { IfOk result
        (λ text. string_bytes text ≡ summary_lines hidden presented digests bytes) }
{
    let mut text = String::new(alloc);
    push_count(&mut text, "hidden", hidden)?;
    push_count(&mut text, "presented", presented)?;
    push_count(&mut text, "digests", digests)?;
    push_count(&mut text, "bytes", bytes)?;
    Ok(text)
}

// The answer for what is issued and presented.
fn count_presented(
    alloc: Global,
    count: u32,
    issued: &Parts,
    presented: &Parts,
) -> Result<String, NoMemory>
    requires issued { IsIssuedBy generated_seed (generated count) generated_key issued.now }
    requires presented { IsPresentedOf count issued.now presented.now }
    requires words { AreWords presented.now }
    ensures { IfOk result (λ text. Summarizes count (string_bytes text)) }
{
    let (claims, look_ups) = verify_presented(alloc, presented)?;
    let hidden = issued.disclosures.len() as u64;
    let shown = presented.disclosures.len() as u64;
    let digests = look_ups - shown;
    let json = write(alloc, &claims)?;
    let bytes = json.as_str().len() as u64;
    summary_text(alloc, hidden, shown, digests, bytes)
}

// The answer for what is issued.
fn summarize(alloc: Global, count: u32, issued: &Parts) -> Result<String, NoMemory>
    requires { IsIssuedBy generated_seed (generated count) generated_key issued.now }
    ensures { IfOk result (λ text. Summarizes count (string_bytes text)) }
{
    let presented = present_issued(alloc, count, issued)?;
    count_presented(alloc, count, issued, &presented)
}

/// The answer for the order of a number of members.
pub(crate) fn summary(alloc: Global, count: u32) -> Result<String, Stop>
    ensures summarizes { IfOk result (λ text. Summarizes count (string_bytes text)) }
    ensures refuses { IfErr result (λ stop. OnRefused stop (DoesNotSummarize count)) }
    ensures readable { IfErr result NotUnreadable }
    ensures read { IfErr result NotUnread }
{
    let issued = issue_order(alloc, count)?;
    Ok(summarize(alloc, count, &issued)?)
}
