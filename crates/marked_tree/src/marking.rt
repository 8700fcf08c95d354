// The marking of a plain tree.
ghost use Rattle.std.specs.Prelude.{◌≡◌, ◌≢◌, ◌≤◌, ◌<◌, ◌+◌, ◌-◌, ◌^◌, List, ◌∷◌, [], length, map, IfOk, OnOk, IsTrue, IsFalse, take, drop, slice_index_or};
ghost use Rattle.std.specs.declared.cmp.Ordering.TheVariants.{Less, Equal, Greater};
ghost use Rattle.std.specs.Set.{distinct_count};
ghost use Rattle.sd_outside.specs.Limits.{json_depth_max};
ghost use Rattle.claim_tree.specs.Tree.{depth as depth_of, elements_depth, members_depth};
ghost use Rattle.claim_tree.specs.View.{tree_of};
ghost use Rattle.marked_tree.specs.Marked.{strip};
ghost use Rattle.marked_tree.specs.Paths.{Path as Steps, same_path, mark as mark_of, hidden_count, is_among, below as test_below, one_if, hidden_in, hidden_elements, hidden_members, mark_from, mark_elements, mark_members, mark_if};
ghost use Rattle.marked_tree.specs.PathsBelow.{rests_of};
ghost use Rattle.marked_tree.specs.Rests.{rests, step_order, AreSorted, Every, Compares, Follows, IsStart, IsRunOfPaths, headed, inner};
ghost use Rattle.marked_tree.specs.View.{marked_of};

use crate::compares::compare_steps;
use crate::{Marked, MarkedList, MarkedMap, compare_paths};
use claim_tree::{Path, PathList, Tree, TreeList, TreeMap, copy, copy_paths};
use itoa::Buffer;
use sd_outside::NoMemory;
use std::alloc::Global;
use std::cmp::Ordering;

/// The tree with a mark at each place that a path leads to, and with texts of its own. The marks
/// count from 0 in closing order: members go by the bytes of their names, elements by position, and
/// a place is numbered after all inside it. The paths are sorted once. Each step down finds those
/// below where the last ones ended, or else by halves.
pub fn mark(alloc: Global, tree: &Tree, paths: &PathList) -> Result<Marked, NoMemory>
    requires depth { depth_of (tree_of tree.now) ≤ json_depth_max }
    requires few { distinct_count same_path paths.now < 2 ^ 32 - 1 }
    ensures marked { IfOk result
        (λ marked. marked_of marked ≡ mark_of (tree_of tree.now) paths.now) }
    ensures strips { IfOk result (λ marked. strip (marked_of marked) ≡ tree_of tree.now) }
    ensures count { IfOk result
        (λ _. hidden_count (tree_of tree.now) paths.now ≤ distinct_count same_path paths.now) }
{
    let paths = copy_paths(alloc, paths)?;
    let tree = copy(alloc, tree)?;
    let (marked, _) = mark_counted(alloc, tree, paths)?;
    Ok(marked)
}

/// The same of a tree and paths that are given away: nothing is copied. It
/// answers how many marks there are as well.
pub fn mark_counted(alloc: Global, tree: Tree, paths: PathList) -> Result<(Marked, u32), NoMemory>
    requires depth { depth_of (tree_of tree) ≤ json_depth_max }
    requires few { distinct_count same_path paths < 2 ^ 32 - 1 }
    ensures marked { IfOk result (λ marked. marked_of marked.0 ≡ mark_of (tree_of tree) paths) }
    ensures strips { IfOk result (λ marked. strip (marked_of marked.0) ≡ tree_of tree) }
    ensures count { IfOk result (λ marked. marked.1 ≡ hidden_count (tree_of tree) paths) }
    ensures few { IfOk result (λ marked. marked.1 ≤ distinct_count same_path paths) }
{
    let sorted = sorted_paths(paths)?;
    let paths = PathsBelow {
        sorted: sorted.as_slice(),
        depth: 0,
    };
    let mut next = 0;
    let marked = mark_tree(alloc, tree, &paths, &mut next)?;
    Ok((marked, next))
}

/// The different ones of the paths, in the order in which they are sorted. They alone are copied.
pub fn different_paths(alloc: Global, paths: &PathList) -> Result<PathList, NoMemory>
    ensures same { IfOk result
        (λ different. (path : Steps) → is_among different path ≡ is_among paths.now path) }
    ensures sorted { IfOk result AreSorted }
    ensures count { IfOk result
        (λ different. length different ≡ distinct_count same_path paths.now) }
{
    let mut lent = lent_paths(alloc, paths)?;
    lent.sort_by(|one, other| compare_paths(one, other))?;
    lent.dedup_by(|one, other| is_same(one, other));
    copies_of(alloc, lent.as_slice())
}

// The paths, lent one by one.
fn lent_paths<'a>(alloc: Global, paths: &'a PathList) -> Result<Vec<&'a Path>, NoMemory>
    ensures { IfOk result (λ lent. map (λ path. path.now) lent.items ≡ paths.now) }
{
    let mut lent = Vec::with_capacity(alloc, paths.len())?;
    for path in paths.elements() {
        lent.push(path)?;
    }
    Ok(lent)
}

// Copies of paths that are lent.
fn copies_of(alloc: Global, lent: &[&Path]) -> Result<PathList, NoMemory>
    ensures { IfOk result (λ copies. copies ≡ map (λ path. path.now) lent.now) }
{
    let mut copies = PathList::new(alloc);
    for path in lent {
        copies.push(path.copy(alloc)?)?;
    }
    Ok(copies)
}

// The paths in their order, each once.
fn sorted_paths(paths: PathList) -> Result<Vec<Path>, NoMemory>
    ensures same { IfOk result
        (λ sorted. (path : Steps) → is_among sorted.items path ≡ is_among paths path) }
    ensures sorted { IfOk result (λ sorted. AreSorted sorted.items) }
    ensures count { IfOk result (λ sorted. length sorted.items ≡ distinct_count same_path paths) }
{
    let mut sorted = paths.into_elements();
    sorted.sort_by(|one, other| compare_paths(one, other))?;
    sorted.dedup_by(|one, other| is_same(one, other));
    Ok(sorted)
}

fn is_same(one: &Path, other: &Path) -> bool
    ensures { result ≡ same_path one.now other.now }
{
    one.is_same(other)
}

// Marks a tree that stands at the place of the paths, from the mark `next` on.
#[cycle(mark)]
fn mark_tree(
    alloc: Global,
    tree: Tree,
    paths: &PathsBelow<'_>,
    next: &mut u32,
) -> Result<Marked, NoMemory>
    requires depth { paths.now.depth + depth_of (tree_of tree) ≤ json_depth_max }
    requires sorted { AreSorted (rests_of paths.now) }
    requires few { next.old + inner (rests_of paths.now) < 2 ^ 32 }
    ensures marked { IfOk result
        (λ marked.
        marked_of marked ≡ mark_from (is_among (rests_of paths.now)) next.old (tree_of tree)) }
    ensures next { OnOk result
        (next.new ≡ next.old + hidden_in (is_among (rests_of paths.now)) (tree_of tree)) }
    ensures few { OnOk result (next.new ≤ next.old + inner (rests_of paths.now)) }
{
    match tree {
        Tree::Null => Ok(Marked::Null),
        Tree::Flag(flag) => Ok(Marked::Flag(flag)),
        Tree::Whole(n) => Ok(Marked::Whole(n)),
        Tree::Text(text) => Ok(Marked::Text(text)),
        Tree::List(trees) => Ok(Marked::List(mark_list(alloc, trees, paths, next)?)),
        Tree::Object(trees) => Ok(Marked::Object(mark_map(alloc, trees, paths, next)?)),
    }
}

#[cycle(mark)]
fn mark_list(
    alloc: Global,
    trees: TreeList,
    paths: &PathsBelow<'_>,
    next: &mut u32,
) -> Result<MarkedList, NoMemory>
    requires depth { paths.now.depth + elements_depth trees ≤ 126 }
    requires sorted { AreSorted (rests_of paths.now) }
    requires few { next.old + inner (rests_of paths.now) < 2 ^ 32 }
    ensures marked { IfOk result
        (λ marked. marked ≡ mark_elements (is_among (rests_of paths.now)) next.old 0 trees) }
    ensures next { OnOk result
        (next.new ≡ next.old + hidden_elements (is_among (rests_of paths.now)) 0 trees) }
    ensures few { OnOk result (next.new ≤ next.old + inner (rests_of paths.now)) }
{
    let count = trees.len();
    let mut marked = MarkedList::with_capacity(alloc, count)?;
    let mut near = 0;
    for tree in trees.into_trees() {
        let mut digits = Buffer::new();
        let step = digits.format(marked.len());
        let (mark, inside) = mark_at(alloc, step, tree, paths, next, &mut near)?;
        marked.push(mark, inside)?;
    }
    Ok(marked)
}

#[cycle(mark)]
fn mark_map(
    alloc: Global,
    trees: TreeMap,
    paths: &PathsBelow<'_>,
    next: &mut u32,
) -> Result<MarkedMap, NoMemory>
    requires depth { paths.now.depth + members_depth trees ≤ 126 }
    requires sorted { AreSorted (rests_of paths.now) }
    requires few { next.old + inner (rests_of paths.now) < 2 ^ 32 }
    ensures marked { IfOk result
        (λ marked. marked ≡ mark_members (is_among (rests_of paths.now)) next.old trees) }
    ensures next { OnOk result
        (next.new ≡ next.old + hidden_members (is_among (rests_of paths.now)) trees) }
    ensures few { OnOk result (next.new ≤ next.old + inner (rests_of paths.now)) }
{
    let mut marked = MarkedMap::with_capacity(alloc, trees.len())?;
    let mut near = 0;
    for (name, tree) in trees.into_members() {
        let (mark, inside) = mark_at(alloc, name.as_str(), tree, paths, next, &mut near)?;
        marked.put(name, mark, inside)?;
    }
    Ok(marked)
}

// The mark and the inside of the tree on a step: it is numbered after its inside. The paths on the
// step are looked for first at `near`, which then stands behind them.
#[cycle(mark)]
fn mark_at(
    alloc: Global,
    step: &str,
    tree: Tree,
    paths: &PathsBelow<'_>,
    next: &mut u32,
    near: &mut usize,
) -> Result<(Option<u32>, Marked), NoMemory>
    requires depth { paths.now.depth + depth_of (tree_of tree) ≤ 126 }
    requires sorted { AreSorted (rests_of paths.now) }
    requires few { next.old + headed step.now (rests_of paths.now) < 2 ^ 32 }
    ensures own { IfOk result
        (λ marked. marked.0
        ≡ mark_if (is_among (rests_of paths.now) (step.now ∷ []))
        (next.old
        + hidden_in (test_below step.now (is_among (rests_of paths.now)))
        (tree_of tree))) }
    ensures inside { IfOk result
        (λ marked. marked_of marked.1
        ≡ mark_from (test_below step.now (is_among (rests_of paths.now))) next.old
        (tree_of tree)) }
    ensures next { OnOk result
        (next.new
        ≡ next.old
        + (hidden_in (test_below step.now (is_among (rests_of paths.now))) (tree_of tree)
        + one_if (is_among (rests_of paths.now) (step.now ∷ [])))) }
    ensures few { OnOk result (next.new ≤ next.old + headed step.now (rests_of paths.now)) }
{
    let below = paths.below(step, near);
    let inside = mark_tree(alloc, tree, &below, next)?;
    let mark = below.own_mark(next);
    Ok((mark, inside))
}

// Sorted paths that come to one place by their first `depth` steps.
#[derive(Clone, Copy, Debug)]
struct PathsBelow<'a> {
    sorted: &'a [Path],
    depth: usize,
}

impl<'a> PathsBelow<'a> {
    // Those that come to the place one step further, looked for first at
    // `near`, which then stands behind them.
    fn below(&self, step: &str, near: &mut usize) -> PathsBelow<'a>
        requires fits { self.now.depth ≤ 126 }
        requires sorted { AreSorted (rests_of self.now) }
        ensures depth { result.depth ≡ self.now.depth + 1 }
        ensures sorted { AreSorted (rests_of result) }
        ensures below { (p : Steps)
            → is_among (rests_of result) p ≡ is_among (rests_of self.now) (step.now ∷ p) }
        ensures count { length result.sorted.now ≡ headed step.now (rests_of self.now) }
    {
        let (start, count) = self.run_near(step, *near);
        *near = start + count;
        PathsBelow {
            sorted: &self.sorted[start..][..count],
            depth: self.depth + 1,
        }
    }

    // Where those with the step stand in one run, and how many they are, looked for first at the
    // place `near`: where steps are asked for in their order, the run begins there.
    fn run_near(&self, step: &str, near: usize) -> (usize, usize)
        requires sorted { AreSorted (rests_of self.now) }
        ensures { IsRunOfPaths self.now.depth step.now self.now.sorted.now result.0 result.1 }
    {
        let start = self.start_near(step, near);
        let behind = PathsBelow {
            sorted: &self.sorted[start..],
            depth: self.depth,
        };
        (start, behind.count_same(step))
    }

    // How many come before the step: as many as `near`, or else they are searched by halves.
    fn start_near(&self, step: &str, near: usize) -> usize
        requires { AreSorted (rests_of self.now) }
        ensures { IsStart self.now.depth step.now self.now.sorted.now result }
    {
        if near <= self.sorted.len()
            && self.is_lower_before(near, step)
            && !self.is_lower(near, step)
        {
            return near;
        }
        self.sorted
            .partition_point(|path| compared(path, self.depth, step) == Ordering::Less)
    }

    // Whether the path in front of the place, if there is one, comes before the step.
    fn is_lower_before(&self, position: usize, step: &str) -> bool
        requires { position ≤ length self.now.sorted.now }
        ensures { IsTrue result → (d : Steps) → 0 < position
            → step_order (drop self.now.depth (slice_index_or self.now.sorted.now (position - 1) d))
            step.now ≡ Less }
    {
        position == 0 || compared(&self.sorted[position - 1], self.depth, step) == Ordering::Less
    }

    // Whether there is a path at the place, and it comes before the step.
    fn is_lower(&self, position: usize, step: &str) -> bool
        ensures { IsFalse result → (d : Steps) → position < length self.now.sorted.now
            → step_order (drop self.now.depth (slice_index_or self.now.sorted.now position d))
            step.now ≢ Less }
    {
        position < self.sorted.len()
            && compared(&self.sorted[position], self.depth, step) == Ordering::Less
    }

    // How many have the step, where none comes before it. Most often none or one, or else all.
    fn count_same(&self, step: &str) -> usize
        requires sorted { AreSorted (rests_of self.now) }
        requires follow { Every (Follows self.now.depth step.now) self.now.sorted.now }
        ensures within { result ≤ length self.now.sorted.now }
        ensures parted { Every (Compares Equal self.now.depth step.now)
            (take result self.now.sorted.now)
            × Every (Compares Greater self.now.depth step.now) (drop result self.now.sorted.now) }
    {
        if !self.has_step(0, step) {
            return 0;
        }
        if !self.has_step(1, step) {
            return 1;
        }
        let all = self.sorted.len();
        if self.has_step(all - 1, step) {
            return all;
        }
        self.sorted
            .partition_point(|path| compared(path, self.depth, step) == Ordering::Equal)
    }

    // Whether there is a path at the place, and it has the step.
    fn has_step(&self, position: usize, step: &str) -> bool
        ensures there { IsTrue result → position < length self.now.sorted.now }
        ensures has { IsTrue result → (d : Steps)
            → step_order (drop self.now.depth (slice_index_or self.now.sorted.now position d))
            step.now ≡ Equal }
        ensures differs { IsFalse result → (d : Steps) → position < length self.now.sorted.now
            → step_order (drop self.now.depth (slice_index_or self.now.sorted.now position d))
            step.now ≢ Equal }
    {
        position < self.sorted.len()
            && compared(&self.sorted[position], self.depth, step) == Ordering::Equal
    }

    // The next mark, where one of the paths ends at the place.
    fn own_mark(&self, next: &mut u32) -> Option<u32>
        requires sorted { AreSorted (rests_of self.now) }
        requires few { next.old + one_if (is_among (rests_of self.now) []) < 2 ^ 32 }
        ensures own { result ≡ mark_if (is_among (rests_of self.now) []) next.old }
        ensures next { next.new ≡ next.old + one_if (is_among (rests_of self.now) []) }
    {
        match self.sorted.first() {
            Some(path) if path.len() <= self.depth => {
                let mark = *next;
                *next += 1;
                Some(mark)
            }
            _ => None,
        }
    }
}

// How the step of a path at the depth compares with another.
fn compared(path: &Path, depth: usize, step: &str) -> Ordering
    ensures { result ≡ step_order (drop depth path.now) step.now }
{
    match path.at(depth) {
        Some(found) => compare_steps(found, step),
        None => Ordering::Less,
    }
}

/// Where the paths whose step at the depth is this one stand in one run, and how many they are.
pub fn run_below(paths: &[Path], depth: usize, step: &str) -> (usize, usize)
    requires fits { depth ≤ 126 }
    requires sorted { AreSorted (rests depth paths.now) }
    ensures { IsRunOfPaths depth step.now paths.now result.0 result.1 }
{
    let paths = PathsBelow {
        sorted: paths,
        depth,
    };
    paths.run_near(step, 0)
}
