// The sixth part: the order of digests.
ghost use Rattle.std.specs.Prelude.{◌≡◌, ◌↔◌, IsTrue};
ghost use Rattle.claim_tree.specs.ListViews.{elements_of};
ghost use Rattle.claim_tree.specs.View.{tree_of};
ghost use Rattle.audit_core.specs.Audited.{HasSortedDigests};
ghost use Rattle.audit_core.specs.SortedLists.{is_digest_list, has_digests_in_order, has_digest_lists, rise, values_have};

use claim_tree::{MemberTest, Tree, every_member};
use digest_sites::{GivenList, is_sd};
use sd_outside::TextBox;

// Whether the texts ascend, where `least` is the one before them.
fn ascends(least: &str, trees: &[Tree]) -> bool
    ensures { result ≡ rise least.now (elements_of trees.now) }
{
    let mut least = least;
    for tree in trees {
        let Tree::Text(digest) = tree else {
            return false;
        };
        let digest = digest.as_str();
        if least < digest {
            least = digest;
        } else {
            return false;
        }
    }
    true
}

// Whether the value of a member `_sd` is a list of texts, not empty, that ascend.
fn is_list_of_digests(value: &Tree) -> bool
    ensures { result ≡ is_digest_list (tree_of value.now) }
{
    let Tree::List(trees) = value else {
        return false;
    };
    match trees.trees() {
        [Tree::Text(first), rest @ ..] => ascends(first.as_str(), rest),
        _ => false,
    }
}

// The test that a member `_sd` is such.
struct DigestsAscend;

impl MemberTest for DigestsAscend {
    ghost test = { has_digests_in_order };

    fn passes(name: &TextBox, tree: &Tree) -> bool {
        !is_sd(name) || is_list_of_digests(tree)
    }
}

// Whether each member `_sd` in the tree is such.
fn is_sorted(tree: &Tree) -> bool
    ensures { result ≡ has_digest_lists (tree_of tree.now) }
{
    every_member::<DigestsAscend>(tree)
}

fn are_values_sorted(given: &GivenList) -> bool
    ensures { result ≡ values_have given.now }
{
    for one in given.items() {
        if !is_sorted(&one.value) {
            return false;
        }
    }
    true
}

// Whether this is so of the payload and of each value.
pub(crate) fn has_sorted_digests(payload: &Tree, given: &GivenList) -> bool
    ensures { IsTrue result ↔ HasSortedDigests (tree_of payload.now) given.now }
{
    is_sorted(payload) && are_values_sorted(given)
}
