// The file that says a query.
ghost use Rattle.std.specs.Prelude.{[], List, IfOk, IfErr, IfSome, IfNone};
ghost use Rattle.claim_tree.specs.View.{tree_of};
ghost use Rattle.claim_tree.specs.ListViews.{elements_of};
ghost use Rattle.claim_tree.specs.TreeValues.{HasValue, SaysOr, IsListOf, EachSays};
ghost use Rattle.file_members.specs.FileForms.{optional, found};
ghost use Rattle.file_members.specs.FileRefusals.{IsMemberRefused};
ghost use Rattle.file_members.specs.declared.field.Field.TheVariants as field;
ghost use Rattle.wallet_core.specs.QueryFile.{IsPlain, IsEqual, IsQueryFile, IsQueryFileRefused};
ghost use Rattle.wallet_core.specs.declared.query.Equal.{Equal as Seen};

use crate::{Equal, EqualList, Query};
use claim_tree::{PathList, Tree, TreeMap, copy, pointer_of};
use compact_form::FILE_MAX;
use file_members::{Field, FileFault, pointer_list_member, read_members};
use hmac_sign::keys_member;
use sd_outside::NoMemory;
use std::alloc::Global;

const FIELDS: [Field; 4] = [Field::Keys, Field::Want, Field::Equal, Field::Never];

// The members of an object that asks for a value: no more, and no fewer.
const MEMBERS: usize = 2;

/// What a query file says: the query, and the places that are never shown.
#[derive(Drop)]
pub struct QueryFile {
    pub query: Query,
    pub never: PathList,
}

// A copy of a value that is null, a flag, a whole number or a text.
fn plain_of(alloc: Global, tree: &Tree) -> Result<Option<Tree>, NoMemory>
    ensures plain { IfOk result (λ value. IfSome value (IsPlain (tree_of tree.now))) }
    ensures none { IfOk result (λ value. IfNone value (HasValue IsPlain (tree_of tree.now) → ⊥)) }
{
    match tree {
        Tree::List(_) | Tree::Object(_) => Ok(None),
        _ => Ok(Some(copy(alloc, tree)?)),
    }
}

// The entry of an object of just a pointer and a plain value.
fn equal_of(alloc: Global, tree: &Tree) -> Result<Option<Equal>, NoMemory>
    ensures equal { IfOk result (λ equal. IfSome equal (IsEqual (tree_of tree.now))) }
    ensures none { IfOk result (λ equal. IfNone equal (HasValue IsEqual (tree_of tree.now) → ⊥)) }
{
    let Tree::Object(members) = tree else {
        return Ok(None);
    };
    if members.len() != MEMBERS {
        return Ok(None);
    }
    let Some(at) = members.get("at") else {
        return Ok(None);
    };
    let Some(value) = members.get("value") else {
        return Ok(None);
    };
    let Some(at) = pointer_of(alloc, at)? else {
        return Ok(None);
    };
    match plain_of(alloc, value)? {
        Some(value) => Ok(Some(Equal { at, value })),
        None => Ok(None),
    }
}

#[tactic(auto, using(claim_tree::proofs::ListForms::no_element, claim_tree::proofs::ListForms::each_turn))]
fn equals_of(alloc: Global, trees: &[Tree]) -> Result<Option<EqualList>, NoMemory>
    ensures equals { IfOk result
        (λ equals. IfSome equals (EachSays IsEqual (elements_of trees.now))) }
    ensures none { IfOk result
        (λ equals. IfNone equals
        ((list : List Seen) → EachSays IsEqual (elements_of trees.now) list → ⊥)) }
{
    let mut equals = EqualList::new(alloc);
    for tree in trees {
        let Some(equal) = equal_of(alloc, tree)? else {
            return Ok(None);
        };
        equals.push(equal)?;
    }
    Ok(Some(equals))
}

fn equal_member(alloc: Global, members: &TreeMap) -> Result<EqualList, FileFault>
    ensures ok { IfOk result (SaysOr (IsListOf IsEqual) [] (found members.now field.Equal)) }
    ensures refused { IfErr result
        (IsMemberRefused (optional field.Equal (IsListOf IsEqual)) members.now) }
{
    let Some(tree) = members.get(Field::Equal.word()) else {
        return Ok(EqualList::new(alloc));
    };
    let Tree::List(list) = tree else {
        return Err(FileFault::Wrong(Field::Equal));
    };
    match equals_of(alloc, list.trees())? {
        Some(equals) => Ok(equals),
        None => Err(FileFault::Wrong(Field::Equal)),
    }
}

/// The query that a file says: a JSON object whose one member that it must have
/// is `keys`, the key set of the issuers.
///
/// `want` and `never` are lists of JSON Pointers. `equal` is a list of objects of just `at`, a JSON
/// Pointer, and `value`, which is null, a flag, a whole number or a text. Where one of the three is
/// missing, it is empty. Another member is a fault.
#[tactic(auto, using(crate::proofs::QueryFaults::refused_at))]
pub fn read_query(alloc: Global, bytes: &[u8]) -> Result<QueryFile, FileFault>
    ensures ok { IfOk result (IsQueryFile bytes.now) }
    ensures refused { IfErr result (IsQueryFileRefused bytes.now) }
{
    let members = read_members(alloc, bytes, FILE_MAX, &FIELDS)?;
    let keys = keys_member(alloc, &members, Field::Keys)?;
    let want = pointer_list_member(alloc, &members, Field::Want)?;
    let equal = equal_member(alloc, &members)?;
    let never = pointer_list_member(alloc, &members, Field::Never)?;
    let query = Query { keys, want, equal };
    Ok(QueryFile { query, never })
}
