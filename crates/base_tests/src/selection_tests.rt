// Tests of a rule of consent other than that of places that are never shown.
ghost use Rattle.std.specs.Prelude.{◌≡◌, ◌<◌, ◌≤◌, ℕ, true, Some, Err, length, IfOk};
ghost use Rattle.sd_outside.specs.Limits.{json_depth_max};
ghost use Rattle.claim_tree.specs.Tree.{depth};
ghost use Rattle.marked_tree.specs.Choice.{StandOnce};
ghost use Rattle.marked_tree.specs.Marked.{strip as strip_of};
ghost use Rattle.marked_tree.specs.Numbers.{has};
ghost use Rattle.marked_tree.specs.Paths.{Path as Steps, mark_path};
ghost use Rattle.marked_tree.specs.View.{marked_of};
ghost use Rattle.selection_core.specs.declared.errors.AllowError.TheVariants.{Refused};

use crate::from_text::{marked, paths_of};
use claim_tree::Path;
use marked_tree::{ChosenSet, Marked};
use sd_outside::NoMemory;
use selection_core::{AllowError, Consent, allow, choose};
use std::alloc::Global;

// Asks a rule that allows places of one step at most: what it says of a place
// is known to who keeps it.
fn judge_steps(alloc: Global, marked: &Marked, chosen: &ChosenSet) -> Result<(), AllowError>
    requires depth { depth (strip_of (marked_of marked.now)) ≤ json_depth_max }
    requires once { StandOnce (marked_of marked.now) (has chosen.now) }
    ensures allowed { IfOk result
        (λ _. (i : ℕ) (at : Steps) → has chosen.now i ≡ true
        → mark_path (marked_of marked.now) i ≡ Some at → length at ≤ 1) }
    ensures refused { (i : ℕ) → result ≡ Err (Refused i)
        → (at : Steps) × (mark_path (marked_of marked.now) i ≡ Some at) × (1 < length at) }
{
    let consent = Consent::new(|place: &Path| place.len() <= 1);
    allow(alloc, &consent, marked, chosen)
}

// What it says of what is shown of a value that hides an address and its street.
fn steps_judged(alloc: Global, want: &str) -> Result<Result<(), AllowError>, NoMemory> {
    let address = r#"{"address":{"street":"S","zip":"1"}}"#;
    let marked = marked(alloc, address, "/address /address/street")?;
    let wanted = paths_of(alloc, want)?;
    let Ok(chosen) = choose(alloc, &marked, &wanted) else {
        return Err(NoMemory);
    };
    Ok(judge_steps(alloc, &marked, &chosen))
}

#[test]
fn a_rule_may_count_steps(rt: HostRuntime) {
    for (want, answer) in [
        ("/address/street", Err(AllowError::Refused(0))),
        ("/address", Ok(())),
    ] {
        assert!(rt; steps_judged(rt.alloc(), want) == Ok(answer), "{want}");
    }
}
