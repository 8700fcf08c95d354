// The trees inside a marked tree.
ghost use Rattle.std.specs.Prelude.{◌≡◌, ◌||◌, ℕ, ◌∷◌, IfSome, option_map};
ghost use Rattle.claim_tree.specs.Path.{stepped as stepped_of};
ghost use Rattle.marked_tree.specs.Choice.{is_on_way, has_mark};
ghost use Rattle.marked_tree.specs.Marked.{strip};
ghost use Rattle.marked_tree.specs.Paths.{Path};
ghost use Rattle.marked_tree.specs.Steps.{marked_stepped, IsShortList};
ghost use Rattle.marked_tree.specs.View.{marked_of};

use crate::Marked;
use claim_tree::position;

/// The mark and the tree one step inside, as [`find`](claim_tree::find) goes. It takes no memory.
pub fn stepped<'a>(tree: &'a Marked, step: &str) -> Option<(Option<u32>, &'a Marked)>
    ensures value { option_map (λ e. (e.0, marked_of e.1.now)) result
        ≡ marked_stepped (marked_of tree.now) step.now }
    ensures tree { option_map (λ e. strip (marked_of e.1.now)) result
        ≡ stepped_of (strip (marked_of tree.now)) step.now }
    ensures way { IfSome result
        (λ e. (p : Path) (i : ℕ)
        → is_on_way (marked_of tree.now) (step.now ∷ p) i
        ≡ (has_mark e.0 i || is_on_way (marked_of e.1.now) p i)) }
{
    tree.invariant();
    found(tree, step)
}

fn found<'a>(tree: &'a Marked, step: &str) -> Option<(Option<u32>, &'a Marked)>
    ensures value { option_map (λ e. (e.0, marked_of e.1.now)) result
        ≡ marked_stepped (marked_of tree.now) step.now }
    ensures short { IsShortList (marked_of tree.now) }
{
    match tree {
        Marked::List(list) => list.at(position(step, list.len())?),
        Marked::Object(map) => map.get(step),
        _ => None,
    }
}
