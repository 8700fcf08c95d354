// The order in which paths are sorted.
ghost use Rattle.std.specs.Prelude.{◌≡◌};
ghost use Rattle.marked_tree.specs.Rests.{step_cmp, path_order};

use claim_tree::{Path, is_prefix};
use std::cmp::Ordering;

/// How two paths compare: step by step, a front first. Of two steps the shorter comes first, so
/// that positions rise as their numbers do; those of one length go by their bytes.
pub fn compare_paths(one: &Path, other: &Path) -> Ordering
    ensures { result ≡ path_order one.now other.now }
{
    // Deep in a tree most paths go on behind another, which their texts tell at once.
    if other.len() < one.len() && is_prefix(other, one) {
        return Ordering::Greater;
    }
    let mut others = other.steps();
    for step in one.steps() {
        let Some(against) = others.next() else {
            return Ordering::Greater;
        };
        let order = compare_steps(step, against);
        if order.is_ne() {
            return order;
        }
    }
    match others.next() {
        Some(_) => Ordering::Less,
        None => Ordering::Equal,
    }
}

pub(crate) fn compare_steps(one: &str, other: &str) -> Ordering
    ensures { result ≡ step_cmp one.now other.now }
{
    match one.len().cmp(&other.len()) {
        Ordering::Equal => one.cmp(other),
        differs => differs,
    }
}
