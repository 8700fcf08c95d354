// The digests of a payload and of all given values in one flat list, by reference.
ghost use Rattle.std.specs.Prelude.{◌≡◌, ◌≤◌, ◌++◌, ◌∷◌, [], Some, map, length, false, OnOk, IfOk, IsSome, unwrap_or};
ghost use Rattle.sd_outside.specs.Limits.{json_depth_max};
ghost use Rattle.claim_tree.specs.Tree.{depth, elements_depth, members_depth};
ghost use Rattle.claim_tree.specs.View.{tree_of};
ghost use Rattle.digest_sites.specs.Reserved.{texts_of, sd_texts, element_digest as digest_in};
ghost use Rattle.rebuild_core.specs.Answer.{ValuesShallow};
ghost use Rattle.rebuild_core.specs.Rows.{seen, own_row, beside_names, rows_on, tree_rows, element_rows, member_rows, all_rows as rows_of, row_ends};

use claim_tree::{Tree, TreeList, TreeMap};
use digest_sites::{GivenList, SiteKind, element_digest, is_sd, own_digests};
use sd_outside::{NoMemory, TextBox};
use std::alloc::Global;

// A digest where it stands.
#[derive(Debug, Drop)]
pub(crate) struct Row<'a> {
    pub kind: SiteKind,
    pub digest: &'a TextBox,
    // The object that the digest stands in, for a member.
    pub beside: Option<&'a TreeMap>,
    // Whether that is the payload itself.
    pub top: bool,
    // The place in the list of the first digest of its object.
    pub object: usize,
}

// All rows, with where those of each tree end.
#[derive(Debug, Drop)]
pub(crate) struct RowList<'a> {
    pub rows: Vec<Row<'a>>,
    // First for the payload, and then for each value.
    pub ends: Vec<usize>,
}

#[tactic(auto, using(crate::proofs::RowSteps::pushed_row))]
fn push_row<'a>(out: &mut Vec<Row<'a>>, row: Row<'a>) -> Result<(), NoMemory>
    ensures { OnOk result (map seen out.new.items ≡ map seen out.old.items ++ seen row.entry ∷ []) }
{
    out.push(row)?;
    Ok(())
}

// The digests of a tree, where `top` says that it is the payload.
#[cycle(rows)]
fn list_rows<'a>(top: bool, tree: &'a Tree, out: &mut Vec<Row<'a>>) -> Result<(), NoMemory>
    requires { depth (tree_of tree.now) ≤ json_depth_max }
    ensures { OnOk result
        (map seen out.new.items
        ≡ map seen out.old.items ++ tree_rows top (length out.old.items) (tree_of tree.now)) }
{
    match tree {
        Tree::List(trees) => list_elements(trees, out),
        Tree::Object(trees) => {
            list_own(top, trees, out)?;
            list_members(trees, out)
        }
        _ => Ok(()),
    }
}

#[cycle(rows)]
#[tactic(auto, using(claim_tree::proofs::Walks::into_element))]
fn list_elements<'a>(trees: &'a TreeList, out: &mut Vec<Row<'a>>) -> Result<(), NoMemory>
    requires { elements_depth trees.now ≤ 126 }
    ensures { OnOk result
        (map seen out.new.items
        ≡ map seen out.old.items ++ element_rows (length out.old.items) trees.now) }
{
    for tree in trees.trees() {
        list_element(tree, out)?;
    }
    Ok(())
}

#[cycle(rows)]
fn list_element<'a>(tree: &'a Tree, out: &mut Vec<Row<'a>>) -> Result<(), NoMemory>
    requires { depth (tree_of tree.now) ≤ json_depth_max }
    ensures { OnOk result
        (map seen out.new.items
        ≡ map seen out.old.items
        ++ rows_on (length out.old.items) (digest_in (tree_of tree.now))
        (tree_rows false (length out.old.items) (tree_of tree.now))) }
{
    match element_digest(tree) {
        Some(digest) => {
            let object = out.len();
            push_row(
                out,
                Row {
                    kind: SiteKind::Element,
                    digest,
                    beside: None,
                    top: false,
                    object,
                },
            )
        }
        None => list_rows(false, tree, out),
    }
}

#[cycle(rows)]
#[tactic(auto, using(claim_tree::proofs::Walks::into_member))]
fn list_members<'a>(trees: &'a TreeMap, out: &mut Vec<Row<'a>>) -> Result<(), NoMemory>
    requires { members_depth trees.now ≤ 126 }
    ensures { OnOk result
        (map seen out.new.items
        ≡ map seen out.old.items ++ member_rows (length out.old.items) trees.now) }
{
    for (name, tree) in trees.members() {
        if !is_sd(name) {
            list_rows(false, tree, out)?;
        }
    }
    Ok(())
}

// The digests of an object's own hidden members.
fn list_own<'a>(top: bool, members: &'a TreeMap, out: &mut Vec<Row<'a>>) -> Result<(), NoMemory>
    ensures { OnOk result
        (map seen out.new.items
        ≡ map seen out.old.items
        ++ map (own_row top (length out.old.items) (beside_names top members.now))
        (sd_texts members.now)) }
{
    match own_digests(members) {
        Some(digests) => list_texts(top, members, digests, out),
        None => Ok(()),
    }
}

fn list_texts<'a>(
    top: bool,
    members: &'a TreeMap,
    digests: &'a TreeList,
    out: &mut Vec<Row<'a>>,
) -> Result<(), NoMemory>
    requires { IsSome (texts_of digests.now) }
    ensures { OnOk result
        (map seen out.new.items
        ≡ map seen out.old.items
        ++ map (own_row top (length out.old.items) (beside_names top members.now))
        (unwrap_or (texts_of digests.now) [])) }
{
    let object = out.len();
    for tree in digests.trees() {
        if let Tree::Text(digest) = tree {
            push_row(
                out,
                Row {
                    kind: SiteKind::Member,
                    digest,
                    beside: Some(members),
                    top,
                    object,
                },
            )?;
        }
    }
    Ok(())
}

// The digests of the payload, and then those of each value.
pub(crate) fn all_rows<'a>(
    alloc: Global,
    payload: &'a Tree,
    given: &'a GivenList,
) -> Result<RowList<'a>, NoMemory>
    requires payload { depth (tree_of payload.now) ≤ json_depth_max }
    requires values { ValuesShallow given.now }
    ensures rows { IfOk result
        (λ list. map seen list.rows.items ≡ rows_of (tree_of payload.now) given.now) }
    ensures ends { IfOk result
        (λ list. list.ends.items ≡ row_ends (tree_of payload.now) given.now) }
{
    // beside the digests of the disclosures stand some decoys
    let mut rows = Vec::with_capacity(alloc, given.len().saturating_add(given.len() / 8))?;
    let mut ends = Vec::with_capacity(alloc, given.len().saturating_add(1))?;
    list_rows(true, payload, &mut rows)?;
    ends.push(rows.len())?;
    for item in given.items() {
        list_rows(false, &item.value, &mut rows)?;
        ends.push(rows.len())?;
    }
    Ok(RowList { rows, ends })
}
