// The third part: what a token shows.
ghost use Rattle.std.specs.Prelude.{◌≡◌, ◌≤◌, ◌<◌, ◌-◌, ◌^◌, ◌↔◌, length, IfOk, OnOk, IsTrue};
ghost use Rattle.sd_outside.specs.Limits.{json_depth_max};
ghost use Rattle.claim_tree.specs.Tree.{depth as depth_of};
ghost use Rattle.claim_tree.specs.View.{tree_of};
ghost use Rattle.marked_tree.specs.View.{marked_of};
ghost use Rattle.rebuild_core.specs.Answer.{IsPayload, ValuesShallow};
ghost use Rattle.rebuild_core.specs.LookUps.{look_ups, counted, RoseWithin};
ghost use Rattle.rebuild_core.specs.Opening.{processed};
ghost use Rattle.rebuild_core.specs.Payload.{without_alg};
ghost use Rattle.rebuild_core.specs.Soundness.{IsSound};

use crate::same::is_same;
use claim_tree::Tree;
use digest_index::Steps;
use digest_sites::GivenList;
use marked_tree::Marked;
use rebuild_core::{ProcessError, process_seeded};
use sd_outside::NoMemory;
use std::alloc::Global;

// Whether the payload, which has no `_sd_alg` of its own, and the disclosures meet the conditions
// 14 to 21 and show these claims. Both are given away.
pub(crate) fn shows(
    alloc: Global,
    payload: Tree,
    given: GivenList,
    seed: u64,
    claims: &Marked,
    steps: &mut Steps,
) -> Result<bool, NoMemory>
    requires object { IsPayload (tree_of payload) }
    requires bare { without_alg (tree_of payload) ≡ tree_of payload }
    requires payload_depth { depth_of (tree_of payload) ≤ json_depth_max }
    requires values_depth { ValuesShallow given }
    requires few { length given < 2 ^ 32 - 1 }
    ensures shows { IfOk result
        (λ is. IsTrue is
        ↔ (IsSound (tree_of payload) given
        × (processed (tree_of payload) given ≡ marked_of claims.now))) }
    ensures counted { OnOk result
        (IsSound (tree_of payload) given
        → steps.new ≡ counted steps.old (look_ups (tree_of payload) given)) }
    ensures risen { RoseWithin (look_ups (tree_of payload) given) steps.old steps.new }
{
    match process_seeded(alloc, payload, given, seed, steps) {
        Ok(shown) => Ok(is_same(&shown, claims)),
        Err(error) => match error {
            ProcessError::Memory => Err(NoMemory),
            _ => Ok(false),
        },
    }
}
