// What is presented of a token without disclosures: nothing of its payload is marked, so no mark is
// built or chosen. The common way would answer the same, at the cost of a marked tree.
ghost use Rattle.std.specs.Prelude.{◌≡◌, ◌<◌, ◌-◌, ◌^◌, None, length, IfOk, IfErr, IfSome};
ghost use Rattle.sd_outside.specs.Lists.{IsLeast, AtNone};
ghost use Rattle.claim_tree.specs.View.{tree_of};
ghost use Rattle.compact_form.specs.Compact.{AreWords};
ghost use Rattle.selection_core.specs.ChoiceRefusals.{IsMissing};
ghost use Rattle.holder_core.specs.PresentSteps.{IsWholeReady, IsWholeUnready};

use crate::PresentError;
use crate::asked::Asked;
use crate::presenting::{Unbound, check_named, parts_with_chosen};
use claim_tree::{PathList, Tree, find};
use json_form::TokenView;
use marked_tree::ChosenSet;
use std::alloc::Global;

// The token, if each wanted place is in the payload, and the payload names the key of the ask.
pub(crate) fn wanted_parts(
    alloc: Global,
    token: &TokenView<'_>,
    payload: Tree,
    asked: &Asked<'_>,
) -> Result<Unbound, PresentError>
    requires few { length token.now.parts.disclosures < 2 ^ 32 - 1 }
    requires words { AreWords token.now.parts }
    ensures ready { IfOk result (IsWholeReady token.now asked.now (tree_of payload)) }
    ensures words { IfOk result (λ unbound. AreWords unbound.parts) }
    ensures refused { IfErr result (IsWholeUnready asked.now (tree_of payload)) }
{
    if let Some(k) = first_missing(&payload, asked.want) {
        return Err(PresentError::NoSuchPlace(k));
    }
    if let Err(error) = check_named(asked.binding, &payload) {
        return Err(error);
    }
    let parts = parts_with_chosen(alloc, token, &ChosenSet::new(alloc))?;
    Ok(Unbound {
        parts,
        payload: Some(payload),
    })
}

// The number of the first wanted path that leads nowhere.
fn first_missing(payload: &Tree, want: &PathList) -> Option<usize>
    ensures least { IfSome result (IsLeast (IsMissing (tree_of payload.now) want.now)) }
    ensures there { result ≡ None → AtNone (IsMissing (tree_of payload.now) want.now) }
{
    for (k, path) in want.elements().iter().enumerate() {
        if find(payload, path).is_none() {
            return Some(k);
        }
    }
    None
}
