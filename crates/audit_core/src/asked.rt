// What an order asks for.
ghost use Rattle.std.specs.Prelude.{◌≡◌, ◌≤◌, length, IfOk};
ghost use Rattle.sd_outside.specs.Limits.{count_max, json_depth_max};
ghost use Rattle.claim_tree.specs.Tree.{depth as depth_of};
ghost use Rattle.claim_tree.specs.View.{tree_of};
ghost use Rattle.refusals.specs.Lowest.{NoneApplies};
ghost use Rattle.marked_tree.specs.Paths.{Path, is_among};
ghost use Rattle.issuer_core.specs.Order.{order_of};
ghost use Rattle.issuer_core.specs.OrderRefusals.{AppliesToOrder};
ghost use Rattle.audit_core.specs.Asked.{IsAskedFor};

use crate::wanted::wanted_standings;
use claim_tree::PathList;
use disclosure::HashAlg;
use issuer_core::{Order, decoy_count};
use marked_tree::{Marked, mark_counted};
use sd_outside::{NoMemory, TextBox};
use std::alloc::Global;

// What an order asks for of a payload and its disclosures.
#[derive(Debug, Drop)]
pub(crate) struct Asked {
    // The claims with their marks, and how many they are.
    pub(crate) claims: Marked,
    pub(crate) hidden: u32,
    pub(crate) hash: HashAlg,
    // How many decoys there are, and where they stand, sorted.
    pub(crate) decoys: usize,
    pub(crate) standings: Vec<TextBox>,
}

// What an order asks for that nothing refuses, whose hidden places are told
// once more, each once. Its claims are not copied.
pub(crate) fn asked_of(alloc: Global, order: Order, places: PathList) -> Result<Asked, NoMemory>
    requires depth { depth_of (tree_of order.payload) ≤ json_depth_max }
    requires same { (path : Path) → is_among places path ≡ is_among order.hide path }
    requires few { length places ≤ count_max }
    requires passes { NoneApplies (AppliesToOrder (order_of order)) }
    ensures asked { IfOk result (IsAskedFor (order_of order)) }
    ensures hidden { IfOk result (λ asked. asked.hidden ≤ count_max) }
    ensures decoys { IfOk result (λ asked. asked.decoys ≤ count_max) }
{
    let decoys = decoy_count(&order.decoys);
    let mut standings = wanted_standings(alloc, &order)?;
    standings.sort()?;
    let Order { payload, hash, .. } = order;
    let (claims, hidden) = mark_counted(alloc, payload, places)?;
    Ok(Asked {
        claims,
        hidden,
        hash,
        decoys,
        standings,
    })
}
