// The trees inside a tree.
ghost use Rattle.std.specs.Prelude.{◌≡◌, ◌≢◌, ◌<◌, ℕ, IfSome, None, drop, option_map};
ghost use Rattle.std.specs.Fmt.{decimal};
ghost use Rattle.claim_tree.specs.Tree.{get as get_of};
ghost use Rattle.claim_tree.specs.Path.{tree_at, stepped as stepped_of};
ghost use Rattle.claim_tree.specs.View.{tree_of};

use crate::{Path, Tree};
use itoa::Buffer;

/// The member of an object. It takes no memory.
pub fn get<'a>(tree: &'a Tree, name: &str) -> Option<&'a Tree>
    ensures value { option_map (λ t. tree_of t.now) result ≡ get_of (tree_of tree.now) name.now }
{
    match tree {
        Tree::Object(members) => members.get(name),
        _ => None,
    }
}

/// The tree at a path (RFC 6901 section 4). In an array a step is a position in decimal digits,
/// without a leading zero; `-` leads nowhere. It takes no memory.
pub fn find<'a>(tree: &'a Tree, path: &Path) -> Option<&'a Tree>
    ensures value { option_map (λ t. tree_of t.now) result ≡ tree_at (tree_of tree.now) path.now }
{
    find_behind(tree, path, 0)
}

/// The same, from the tree at which the first steps of the path have come, which are so many.
pub fn find_behind<'a>(tree: &'a Tree, path: &Path, count: usize) -> Option<&'a Tree>
    ensures value { option_map (λ t. tree_of t.now) result
        ≡ tree_at (tree_of tree.now) (drop count path.now) }
{
    let mut found = tree;
    for step in path.steps_behind(count) {
        found = stepped(found, step)?;
    }
    Some(found)
}

// The tree one step inside.
fn stepped<'a>(tree: &'a Tree, step: &str) -> Option<&'a Tree>
    ensures value { option_map (λ t. tree_of t.now) result
        ≡ stepped_of (tree_of tree.now) step.now }
{
    match tree {
        Tree::List(trees) => trees.at(position(step, trees.len())?),
        Tree::Object(trees) => trees.get(step),
        _ => None,
    }
}

/// The position whose decimal digits are the step. None where no position below
/// the length has such digits. It takes no memory.
pub fn position(step: &str, len: usize) -> Option<usize>
    ensures digits { IfSome result (λ i. decimal i ≡ step.now) }
    ensures there { IfSome result (λ i. i < len) }
    ensures none { result ≡ None → (i : ℕ) → i < len → decimal i ≢ step.now }
{
    let i = step.parse::<usize>().ok()?;
    if i >= len {
        return None;
    }
    let mut digits = Buffer::new();
    if digits.format(i) == step {
        Some(i)
    } else {
        None
    }
}
