// What the invariants of trees tell of all that is handed in. It does nothing
// but tell it, to the proofs of what calls it.
ghost use Rattle.claim_tree.specs.View.{tree_of};
ghost use Rattle.rebuild_core.specs.Readable.{IsReadable};

use claim_tree::Tree;
use digest_sites::GivenList;

// The names of every object ascend, in a payload and in each value.
pub(crate) fn is_readable(payload: &Tree, given: &GivenList)
    ensures { IsReadable (tree_of payload.now) given.now }
{
    payload.invariant();
    for item in given.items() {
        item.value.invariant();
    }
}
