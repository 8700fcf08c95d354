// Tests of marked trees: places, marks, and what is left after pruning.
ghost use Rattle.std.specs.Prelude.{◌≤◌, IfOk};
ghost use Rattle.sd_outside.specs.Limits.{json_depth_max};
ghost use Rattle.claim_tree.specs.Tree.{depth};
ghost use Rattle.marked_tree.specs.Marked.{strip as strip_of};
ghost use Rattle.marked_tree.specs.View.{marked_of};

use crate::from_text::marked;
use claim_tree::{print_path, write};
use marked_tree::{ChosenSet, Marked, MarkedList, MarkedMap, place_of, prune, strip};
use sd_outside::{NoMemory, TextBox};
use std::alloc::Global;

const TREE: &str = r#"{"a":{"b":1,"c":2},"d":[1,2,3],"e":null}"#;

// The places of the marks, which have the numbers 1, 0, 3 and 2 in closing order.
const PLACES: &str = "/a /a/b /d/2 /d/0";

fn made(alloc: Global, kept: &[u32]) -> Result<ChosenSet, NoMemory> {
    let mut marks = Vec::new(alloc);
    marks.extend_from_slice(kept)?;
    ChosenSet::of(alloc, marks)
}

// The tree in which just these marks are kept.
fn pruned(alloc: Global, kept: &[u32]) -> Result<Marked, NoMemory>
    ensures shallow { IfOk result (λ marked. depth (strip_of (marked_of marked)) ≤ json_depth_max) }
{
    let chosen = made(alloc, kept)?;
    let marked = marked(alloc, TREE, PLACES)?;
    Ok(prune(alloc, &marked, &chosen)?)
}

// Whether just this is left where these marks are kept.
fn is_left(alloc: Global, kept: &[u32], wanted: &str) -> Result<bool, NoMemory> {
    let pruned = pruned(alloc, kept)?;
    let tree = strip(alloc, &pruned)?;
    Ok(write(alloc, &tree)?.as_str() == wanted)
}

// Whether a mark stands at the place of this pointer.
fn stands_at(alloc: Global, mark: u32, wanted: Option<&str>) -> Result<bool, NoMemory> {
    let marked = marked(alloc, TREE, PLACES)?;
    let Some(path) = place_of(alloc, &marked, mark)? else {
        return Ok(wanted.is_none());
    };
    let place = print_path(alloc, &path)?;
    Ok(wanted == Some(place.as_str()))
}

#[test]
fn what_is_not_kept_is_left_out(rt: HostRuntime) {
    for (kept, left, mark, place) in [
        ([9].as_slice(), r#"{"d":[2],"e":null}"#, 9, None),
        ([0].as_slice(), r#"{"d":[2],"e":null}"#, 0, Some("/a/b")),
        (
            [1].as_slice(),
            r#"{"a":{"c":2},"d":[2],"e":null}"#,
            1,
            Some("/a"),
        ),
        (
            [1, 0].as_slice(),
            r#"{"a":{"b":1,"c":2},"d":[2],"e":null}"#,
            2,
            Some("/d/0"),
        ),
        (
            [3, 2, 9].as_slice(),
            r#"{"d":[1,2,3],"e":null}"#,
            3,
            Some("/d/2"),
        ),
        ([0, 3, 1, 2].as_slice(), TREE, 4, None),
    ] {
        let is_left = is_left(rt.alloc(), kept, left);
        let stands_at = stands_at(rt.alloc(), mark, place);
        assert!(rt; is_left == Ok(true) && stands_at == Ok(true), "{mark}");
    }
}

// A member, and some that are put to it.
fn joined(alloc: Global) -> Result<MarkedMap, NoMemory> {
    let mut map = MarkedMap::new(alloc);
    map.insert(TextBox::make(alloc, "b")?, Some(1), Marked::Null)?;
    let mut added = Vec::new(alloc);
    for (name, mark) in [("c", 5), ("b", 6), ("", 7), ("c", 8)] {
        added.push((TextBox::make(alloc, name)?, Some(mark), Marked::Null))?;
    }
    map.with_all(alloc, added)
}

fn is_entry(map: &MarkedMap, i: usize, name: &str, mark: u32) -> bool {
    match map.entry_at(i) {
        Some((found, its, _)) => found.as_str() == name && its == Some(mark),
        None => false,
    }
}

fn first_stays(alloc: Global) -> Result<bool, NoMemory> {
    let map = joined(alloc)?;
    Ok(is_entry(&map, 0, "", 7) && is_entry(&map, 1, "b", 1) && is_entry(&map, 2, "c", 5))
}

#[test]
fn the_first_of_a_name_stays(rt: HostRuntime) {
    assert!(rt; first_stays(rt.alloc()) == Ok(true));
}

fn has_those(set: &ChosenSet) -> bool {
    let those = set.has(0) && set.has(3) && set.has(7) && set.has(u32::MAX);
    those && set.len() == 4 && !set.has(1) && !set.has(8)
}

const MARKS: [u32; 6] = [7, 3, u32::MAX, 3, 0, 7];

fn added(alloc: Global) -> Result<ChosenSet, NoMemory> {
    let mut set = ChosenSet::new(alloc);
    for mark in MARKS {
        set.add(mark)?;
    }
    Ok(set)
}

fn are_kept_once(alloc: Global) -> Result<bool, NoMemory> {
    let made = made(alloc, &MARKS)?;
    let added = added(alloc)?;
    Ok(has_those(&made) && has_those(&added))
}

#[test]
fn sets_keep_each_mark_once(rt: HostRuntime) {
    assert!(rt; are_kept_once(rt.alloc()) == Ok(true));
}

// The mark of an element, where there is one.
fn mark_at(list: &MarkedList, i: usize) -> Option<Option<u32>> {
    let (mark, _) = list.at(i)?;
    Some(mark)
}

fn marks(alloc: Global) -> Result<[Option<Option<u32>>; 3], NoMemory> {
    let mut list = MarkedList::new(alloc);
    list.push(Some(3), Marked::Null)?;
    list.push(None, Marked::Flag(true))?;
    Ok([mark_at(&list, 0), mark_at(&list, 1), mark_at(&list, 2)])
}

#[test]
fn elements_keep_their_marks(rt: HostRuntime) {
    assert!(rt; marks(rt.alloc()) == Ok([Some(Some(3)), Some(None), None]));
}
