// How many digests a token has.
ghost use Rattle.std.specs.Prelude.{◌≡◌, ◌<◌, ◌+◌, ◌↔◌, MatchOption, IsTrue};
ghost use Rattle.claim_tree.specs.View.{tree_of};
ghost use Rattle.audit_core.specs.Counts.{count_in, values_count};

use claim_tree::Tree;
use digest_sites::{GivenList, element_digest, is_sd, own_count};

// What is left of a number without the sites of a tree, unless they are more.
fn left_of(tree: &Tree, mut left: usize) -> Option<usize>
    ensures { MatchOption result (left < count_in (tree_of tree.now))
        (λ rest. rest + count_in (tree_of tree.now) ≡ left) }
{
    match tree {
        Tree::List(trees) => {
            #[tactic(auto, using(claim_tree::proofs::Walks::into_element))]
            for tree in trees.trees() {
                left = match element_digest(tree) {
                    Some(_) => left.checked_sub(1)?,
                    None => left_of(tree, left)?,
                };
            }
        }
        Tree::Object(trees) => {
            left = left.checked_sub(own_count(trees))?;
            #[tactic(auto, using(claim_tree::proofs::Walks::into_member))]
            for (name, tree) in trees.members() {
                if !is_sd(name) {
                    left = left_of(tree, left)?;
                }
            }
        }
        _ => {}
    }
    Some(left)
}

// Whether the payload and the values have so many sites together.
pub(crate) fn are_so_many(payload: &Tree, given: &GivenList, wanted: usize) -> bool
    ensures { IsTrue result ↔ (count_in (tree_of payload.now) + values_count given.now ≡ wanted) }
{
    let Some(mut left) = left_of(payload, wanted) else {
        return false;
    };
    for one in given.items() {
        match left_of(&one.value, left) {
            Some(rest) => left = rest,
            None => return false,
        }
    }
    left == 0
}
