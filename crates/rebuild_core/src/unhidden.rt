// A payload with nothing hidden.
ghost use Rattle.std.specs.Prelude.{◌≡◌, ◌≤◌, ◌<◌, MatchResult};
ghost use Rattle.sd_outside.specs.Limits.{depth_max, json_depth_max};
ghost use Rattle.claim_tree.specs.Tree.{depth as depth_of};
ghost use Rattle.claim_tree.specs.View.{tree_of};
ghost use Rattle.rebuild_core.specs.Payload.{without_alg as without_alg_of};
ghost use Rattle.rebuild_core.specs.Unhidden.{is_unhidden as is_unhidden_of, is_unhidden_member};
ghost use Rattle.rebuild_core.specs.declared.errors.ProcessError.{ProcessError as Refusal};

use crate::names::ALG;
use crate::{DEPTH_MAX, ProcessError};
use claim_tree::{MemberTest, Tree, depth, every_member};
use digest_sites::{is_dots, is_sd};
use sd_outside::TextBox;

// The test that a member is neither `_sd` nor `...`.
struct Unhidden;

impl MemberTest for Unhidden {
    ghost test = { is_unhidden_member };

    fn passes(name: &TextBox, _: &Tree) -> bool {
        !is_sd(name) && !is_dots(name)
    }
}

// Whether no object in the tree has a member `_sd` or `...`.
pub(crate) fn is_unhidden(tree: &Tree) -> bool
    ensures { result ≡ is_unhidden_of (tree_of tree.now) }
{
    every_member::<Unhidden>(tree)
}

/// The payload without its own `_sd_alg`, by move.
#[tactic(auto, unfolding(crate::specs::Payload::alg_name))]
pub fn without_alg(payload: Tree) -> Tree
    ensures { tree_of result ≡ without_alg_of (tree_of payload) }
{
    match payload {
        Tree::Object(mut members) => {
            let _ = members.remove(ALG);
            Tree::Object(members)
        }
        other => other,
    }
}

// The same, where it nests no deeper than [`DEPTH_MAX`].
pub(crate) fn move_out(payload: Tree) -> Result<Tree, ProcessError>
    requires { depth_of (tree_of payload) ≤ json_depth_max }
    ensures { MatchResult result
        (λ tree. (tree_of tree ≡ without_alg_of (tree_of payload))
        × (depth_of (tree_of tree) ≤ depth_max))
        (λ e. (e ≡ Refusal.TooDeep) × (depth_max < depth_of (without_alg_of (tree_of payload)))) }
{
    let tree = without_alg(payload);
    if depth(&tree) > DEPTH_MAX {
        return Err(ProcessError::TooDeep);
    }
    Ok(tree)
}
