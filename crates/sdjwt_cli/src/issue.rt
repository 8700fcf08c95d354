// The command `issue`: the compact text of a new token.
ghost use Rattle.std.specs.Prelude.{◌≤◌, ℕ, List, IfOk, IfErr, string_bytes};
ghost use Rattle.std.specs.Array.{IsFirstChunk};
ghost use Rattle.sd_outside.specs.Limits.{seed_len, json_depth_max};
ghost use Rattle.claim_tree.specs.Tree.{depth};
ghost use Rattle.claim_tree.specs.View.{tree_of};
ghost use Rattle.issuer_core.specs.OrderFile.{IsOrderFile};
ghost use Rattle.issuer_core.specs.Order.{order_of as order_said};
ghost use Rattle.sdjwt_cli.specs.Issuing.{IsIssuedBy, TellsRefusal, Issues, DoesNotIssue, HasNoOrder};
ghost use Rattle.cli_parts.specs.Stops.{OnRefused, OnUnreadable, NotUnread, NotUnreadable};

use cli_parts::{Stop, as_line, readable, short_seed_line};
use compact_form::{Parts, print};
use hmac_sign::HsKey;
use issuer_core::{IssueError, IssueFile, Order, issue_owned, read_order, refusal_line};
use std::alloc::Global;

// The bytes of a seed.
pub(crate) const SEED_LEN: usize = 32;

/// What is issued for an order with a seed and a key.
pub(crate) fn issue_parts(
    alloc: Global,
    order: Order,
    seed: &[u8; SEED_LEN],
    mut key: HsKey,
) -> Result<Parts, Stop>
    requires depth { depth (tree_of order.payload) ≤ json_depth_max }
    ensures issued { IfOk result (IsIssuedBy seed.now (order_said order) key) }
    ensures refuses { IfErr result
        (λ stop. OnRefused stop (TellsRefusal seed.now (order_said order) key)) }
    ensures readable { IfErr result NotUnreadable }
    ensures read { IfErr result NotUnread }
{
    match issue_owned(alloc, order, seed, &mut key) {
        Ok(parts) => Ok(parts),
        Err(IssueError::Memory) => Err(Stop::Memory),
        Err(error) => Err(Stop::Refused(as_line(refusal_line(alloc, &error)?)?)),
    }
}

// The answer for what an order file asks for, with the seed of a file.
fn issue_for(alloc: Global, asked: IssueFile, seed: &[u8; SEED_LEN]) -> Result<String, Stop>
    requires depth { depth (tree_of asked.order.payload) ≤ json_depth_max }
    ensures issues { (order_file seed_file : List ℕ) → IsOrderFile order_file asked
        → IsFirstChunk seed_file seed.now seed_len
        → IfOk result (λ text. Issues order_file seed_file (string_bytes text)) }
    ensures refuses { (order_file seed_file : List ℕ) → IsOrderFile order_file asked
        → IsFirstChunk seed_file seed.now seed_len
        → IfErr result (λ stop. OnRefused stop (DoesNotIssue order_file seed_file)) }
    ensures readable { IfErr result NotUnreadable }
    ensures read { IfErr result NotUnread }
{
    let IssueFile { order, key } = asked;
    let parts = issue_parts(alloc, order, seed, key)?;
    Ok(as_line(print(alloc, &parts)?)?)
}

/// The answer to an order file and a seed file.
pub fn issue(alloc: Global, order_file: &[u8], seed_file: &[u8]) -> Result<String, Stop>
    ensures issues { IfOk result (λ text. Issues order_file.now seed_file.now (string_bytes text)) }
    ensures refuses { IfErr result
        (λ stop. OnRefused stop (DoesNotIssue order_file.now seed_file.now)) }
    ensures unreadable { IfErr result
        (λ stop. OnUnreadable stop (HasNoOrder order_file.now seed_file.now)) }
    ensures read { IfErr result NotUnread }
{
    let asked = readable(alloc, read_order(alloc, order_file))?;
    match seed_file.first_chunk::<SEED_LEN>() {
        Some(seed) => issue_for(alloc, asked, seed),
        None => Err(Stop::Unreadable(short_seed_line(alloc)?)),
    }
}
