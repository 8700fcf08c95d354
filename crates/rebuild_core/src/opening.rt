// A payload opened without search: the digests of its sites are read as
// numbers, in their order. What is shown is moved.
ghost use Rattle.std.specs.Prelude.{◌≡◌, ◌+◌, ◌^◌, ◌<◌, ◌≤◌, List, [], ◌∷◌, length, OnOk, IfOk, MatchResult};
ghost use Rattle.claim_tree.specs.Tree.{Text, object, depth, elements_depth, members_depth};
ghost use Rattle.claim_tree.specs.View.{tree_of};
ghost use Rattle.digest_sites.specs.Reserved.{sd_texts};
ghost use Rattle.digest_sites.specs.Given.{Given};
ghost use Rattle.marked_tree.specs.Marked.{strip, strip_elements, strip_members};
ghost use Rattle.marked_tree.specs.View.{marked_of, marked_members_of};
ghost use Rattle.rebuild_core.specs.Answer.{IsPayload, IsProcessRefused};
ghost use Rattle.rebuild_core.specs.Soundness.{IsReferencedOnce, IsWellNamed, IsSound};
ghost use Rattle.rebuild_core.specs.Payload.{without_alg};
ghost use Rattle.rebuild_core.specs.Opening.{open_tree, open_elements, open_members, processed};
ghost use Rattle.rebuild_core.specs.Cursor.{NumbersTell, tree_digests, elements_digests, members_digests};
ghost use Rattle.rebuild_core.specs.Whole.{OpensIn, TakesOnly, OpensWhole, ElementsWhole, MembersWhole, IfTooDeep, settled, shown_of, shown_depth, shown_depths, shown_members, topped, stays as stays_in, whole_object};

use crate::graph::Graph;
use crate::names::is_alg;
use crate::shown::{HiddenMembers, OpenedMembers, Revealed, push_element, push_member};
use crate::{DEPTH_MAX, ProcessError};
use claim_tree::{Tree, TreeList, TreeMap};
use digest_sites::{GivenList, element_digest, is_sd, own_count};
use marked_tree::{Marked, MarkedList, MarkedMap};
use sd_outside::{NoMemory, TextBox};
use std::alloc::Global;

// Whether a member is none of those that only say where disclosures stand.
fn stays(top: bool, name: &TextBox) -> bool
    ensures { result ≡ stays_in top name.now }
{
    !is_sd(name) && !(top && is_alg(name))
}

// What the digest at the cursor shows, taken out of its place.
#[cycle(opening)]
fn open_next(
    alloc: Global,
    limit: usize,
    given: &mut GivenList,
    graph: &Graph,
    at: &mut usize,
) -> Result<Option<Revealed>, ProcessError>
    requires ready { (g : List Given) × (digest : Text)
        × OpensIn graph.now g given.old at.old (digest ∷ []) (Unit {0}) }
    ensures moved { OnOk result (at.new ≡ at.old + 1) }
    ensures opened { (g : List Given) (digest : Text)
        → OpensIn graph.now g given.old at.old (digest ∷ []) (Unit {0})
        → MatchResult result
        (λ r. (shown_of r ≡ settled g digest) × (shown_depth (shown_of r) ≤ limit)
        × TakesOnly g given.old given.new (digest ∷ []))
        (λ e. IfTooDeep e (limit < shown_depth (settled g digest))) }
{
    let number = graph.numbers[*at];
    *at += 1;
    let Some((name, value)) = given.take(number) else {
        return Ok(None);
    };
    let mut inside = graph.ends[number];
    let tree = open(alloc, limit, given, graph, &mut inside, value)?;
    Ok(Some(Revealed {
        mark: number as u32,
        name,
        tree,
    }))
}

#[cycle(opening)]
fn open_list(
    alloc: Global,
    limit: usize,
    given: &mut GivenList,
    graph: &Graph,
    at: &mut usize,
    list: TreeList,
) -> Result<MarkedList, ProcessError>
    requires ready { (g : List Given)
        × OpensIn graph.now g given.old at.old (elements_digests list)
        (ElementsWhole (settled g) list) }
    ensures moved { OnOk result (at.new ≡ at.old + length (elements_digests list)) }
    ensures opened { (g : List Given)
        → OpensIn graph.now g given.old at.old (elements_digests list)
        (ElementsWhole (settled g) list)
        → MatchResult result
        (λ out. (out ≡ open_elements (settled g) list)
        × (elements_depth (strip_elements out) ≤ limit)
        × TakesOnly g given.old given.new (elements_digests list))
        (λ e. IfTooDeep e
        (limit < elements_depth (strip_elements (open_elements (settled g) list)))) }
{
    let mut out = MarkedList::with_capacity(alloc, list.len())?;
    for tree in list.into_trees() {
        if element_digest(&tree).is_some() {
            drop(tree);
            let shown = open_next(alloc, limit, given, graph, at)?;
            push_element(&mut out, shown)?;
        } else {
            let plain = open(alloc, limit, given, graph, at, tree)?;
            out.push(None, plain)?;
        }
    }
    Ok(out)
}

// No members, and room for so many.
fn room_for_members(alloc: Global, count: usize) -> Result<HiddenMembers, NoMemory>
    ensures { IfOk result (λ out. out.items ≡ []) }
{
    Ok(Vec::with_capacity(alloc, count)?)
}

// The hidden members of an object, in the order of its digests.
#[cycle(opening)]
fn open_own(
    alloc: Global,
    limit: usize,
    given: &mut GivenList,
    graph: &Graph,
    at: &mut usize,
    map: &TreeMap,
) -> Result<HiddenMembers, ProcessError>
    requires ready { (g : List Given)
        × OpensIn graph.now g given.old at.old (sd_texts map.now) (Unit {0}) }
    ensures moved { OnOk result (at.new ≡ at.old + length (sd_texts map.now)) }
    ensures opened { (g : List Given)
        → OpensIn graph.now g given.old at.old (sd_texts map.now) (Unit {0})
        → MatchResult result
        (λ out. (marked_members_of out.items ≡ shown_members (settled g) (sd_texts map.now))
        × (shown_depths (settled g) (sd_texts map.now) ≤ limit)
        × TakesOnly g given.old given.new (sd_texts map.now))
        (λ e. IfTooDeep e (limit < shown_depths (settled g) (sd_texts map.now))) }
{
    let count = own_count(map);
    let mut out = room_for_members(alloc, count)?;
    for _ in 0..count {
        let shown = open_next(alloc, limit, given, graph, at)?;
        push_member(&mut out, shown)?;
    }
    Ok(out)
}

// The other members of an object; `_sd_alg` is none of them in the payload itself.
#[cycle(opening)]
fn open_plain(
    alloc: Global,
    limit: usize,
    top: bool,
    given: &mut GivenList,
    graph: &Graph,
    at: &mut usize,
    map: TreeMap,
) -> Result<MarkedMap, ProcessError>
    requires ready { (g : List Given)
        × OpensIn graph.now g given.old at.old (members_digests (topped top map))
        (MembersWhole (settled g) (topped top map)) }
    ensures moved { OnOk result (at.new ≡ at.old + length (members_digests (topped top map))) }
    ensures opened { (g : List Given)
        → OpensIn graph.now g given.old at.old (members_digests (topped top map))
        (MembersWhole (settled g) (topped top map))
        → MatchResult result
        (λ out. (out ≡ open_members (settled g) (topped top map))
        × (members_depth (strip_members out) ≤ limit)
        × TakesOnly g given.old given.new (members_digests (topped top map)))
        (λ e. IfTooDeep e
        (limit
        < members_depth (strip_members (open_members (settled g) (topped top map))))) }
{
    let mut out = MarkedMap::with_capacity(alloc, map.len())?;
    for (name, tree) in map.into_members() {
        if stays(top, &name) {
            let plain = open(alloc, limit, given, graph, at, tree)?;
            out.put(name, None, plain)?;
        }
    }
    Ok(out)
}

// The members of an object, which is the payload itself where `top` says so.
#[cycle(opening)]
fn open_parts(
    alloc: Global,
    limit: usize,
    top: bool,
    given: &mut GivenList,
    graph: &Graph,
    at: &mut usize,
    map: TreeMap,
) -> Result<OpenedMembers, ProcessError>
    requires ready { (g : List Given)
        × OpensIn graph.now g given.old at.old (tree_digests (object (topped top map)))
        (OpensWhole (settled g) (object (topped top map))) }
    ensures moved { OnOk result
        (at.new ≡ at.old + length (tree_digests (object (topped top map)))) }
    ensures opened { (g : List Given)
        → OpensIn graph.now g given.old at.old (tree_digests (object (topped top map)))
        (OpensWhole (settled g) (object (topped top map)))
        → MatchResult result
        (λ o. (whole_object o ≡ open_tree (settled g) (object (topped top map)))
        × (depth (strip (whole_object o)) ≤ limit)
        × TakesOnly g given.old given.new (tree_digests (object (topped top map))))
        (λ e. IfTooDeep e
        (limit < depth (strip (open_tree (settled g) (object (topped top map)))))) }
{
    if limit == 0 {
        return Err(ProcessError::TooDeep);
    }
    let hidden = open_own(alloc, limit - 1, given, graph, at, &map)?;
    let plain = open_plain(alloc, limit - 1, top, given, graph, at, map)?;
    Ok(OpenedMembers { hidden, plain })
}

// A tree whose digests begin at the cursor, which goes past them.
#[cycle(opening)]
fn open(
    alloc: Global,
    limit: usize,
    given: &mut GivenList,
    graph: &Graph,
    at: &mut usize,
    tree: Tree,
) -> Result<Marked, ProcessError>
    requires ready { (g : List Given)
        × OpensIn graph.now g given.old at.old (tree_digests (tree_of tree))
        (OpensWhole (settled g) (tree_of tree)) }
    ensures moved { OnOk result (at.new ≡ at.old + length (tree_digests (tree_of tree))) }
    ensures opened { (g : List Given)
        → OpensIn graph.now g given.old at.old (tree_digests (tree_of tree))
        (OpensWhole (settled g) (tree_of tree))
        → MatchResult result
        (λ m. (marked_of m ≡ open_tree (settled g) (tree_of tree))
        × (depth (strip (marked_of m)) ≤ limit)
        × TakesOnly g given.old given.new (tree_digests (tree_of tree)))
        (λ e. IfTooDeep e (limit < depth (strip (open_tree (settled g) (tree_of tree))))) }
{
    match tree {
        Tree::Null => Ok(Marked::Null),
        Tree::Flag(flag) => Ok(Marked::Flag(flag)),
        Tree::Whole(n) => Ok(Marked::Whole(n)),
        Tree::Text(text) => Ok(Marked::Text(text)),
        Tree::List(list) => {
            if limit == 0 {
                return Err(ProcessError::TooDeep);
            }
            let list = open_list(alloc, limit - 1, given, graph, at, list)?;
            Ok(Marked::List(list))
        }
        Tree::Object(map) => {
            let members = open_parts(alloc, limit, false, given, graph, at, map)?;
            Ok(members.into_object(alloc)?)
        }
    }
}

// The members of the payload, without its own `_sd_alg`. The numbers begin with
// those of its digests.
pub(crate) fn open_top(
    alloc: Global,
    payload: Tree,
    given: &mut GivenList,
    graph: &Graph,
) -> Result<OpenedMembers, ProcessError>
    requires object { IsPayload (tree_of payload) }
    requires few { length given.old < 2 ^ 32 }
    requires referenced { IsReferencedOnce (without_alg (tree_of payload)) given.old }
    requires named { IsWellNamed (without_alg (tree_of payload)) given.old }
    requires told { NumbersTell (without_alg (tree_of payload)) given.old graph.now.numbers.items
        graph.now.ends.items }
    ensures { MatchResult result
        (λ o. IsSound (without_alg (tree_of payload)) given.old
        × (whole_object o ≡ processed (without_alg (tree_of payload)) given.old))
        (IsProcessRefused (without_alg (tree_of payload)) given.old) }
{
    let mut at = 0;
    match payload {
        Tree::Object(map) => open_parts(alloc, DEPTH_MAX, true, given, graph, &mut at, map),
        _ => unreachable!(),
    }
}
