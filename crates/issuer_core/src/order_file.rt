// The file that says an order.
ghost use Rattle.std.specs.Prelude.{◌≡◌, ◌≤◌, List, [], length, OnOk, IfOk, IfErr, IfSome, IfNone};
ghost use Rattle.sd_outside.specs.Limits.{count_max, file_max, json_depth_max, key_min};
ghost use Rattle.claim_tree.specs.Tree.{IsOrdered, object, depth as depth_of};
ghost use Rattle.sd_outside.specs.Lists.{In};
ghost use Rattle.claim_tree.specs.View.{tree_of};
ghost use Rattle.claim_tree.specs.ListViews.{elements_of};
ghost use Rattle.claim_tree.specs.TreeValues.{IsText, HasValue, Says, MaySay, SaysOr, IsListOf, EachSays};
ghost use Rattle.file_members.specs.FileForms.{MemberMeets, HasMembers, required, optional, found};
ghost use Rattle.file_members.specs.FileRefusals.{IsMemberRefused};
ghost use Rattle.file_members.specs.declared.field.Field.{Field};
ghost use Rattle.file_members.specs.declared.field.Field.TheVariants.{Payload, Decoys, Kid, Typ, SdAlg};
ghost use Rattle.disclosure.specs.declared.digests.HashAlg.{HashAlg};
ghost use Rattle.hmac_sign.specs.Hmac.{alg_key};
ghost use Rattle.hmac_sign.specs.declared.alg.Alg.{Alg};
ghost use Rattle.issuer_core.specs.declared.order.Decoy.{Decoy as Seen};
ghost use Rattle.issuer_core.specs.OrderFile.{IsValue, IsDecoy, IsHashText, IsAlgText, IsAlgFor, IsOrderFile, IsOrderFileRefused};
ghost use Rattle.issuer_core.specs.UnsignedOrder.{IsUnsignedOrderFile, IsUnsignedOrderRefused, SaysHead, IsHeadRefused, SaysOrder};

use crate::{Decoy, DecoyList, Order};
use claim_tree::{PathList, Tree, TreeMap, pointer_of, whole_up_to};
use compact_form::FILE_MAX;
use disclosure::{HashAlg, hash_named};
use file_members::{Field, FileFault, pointer_list_member, read_members, text_member};
use hmac_sign::{Alg, HsKey, KeyShort, alg_named, key_bytes_member};
use sd_outside::{NoMemory, TextBox};
use std::alloc::Global;

const FIELDS: [Field; 8] = [
    Field::Payload,
    Field::Hide,
    Field::Decoys,
    Field::Key,
    Field::Kid,
    Field::Typ,
    Field::Alg,
    Field::SdAlg,
];

// Those of an order that someone else signs.
const UNSIGNED_FIELDS: [Field; 6] = [
    Field::Payload,
    Field::Hide,
    Field::Decoys,
    Field::Kid,
    Field::Typ,
    Field::SdAlg,
];

// The most decoys of one entry, as many as an order may have.
const ENTRY_MAX: u32 = 32_768;

/// What an order file says: the order, and the key that signs.
#[derive(Drop)]
pub struct IssueFile {
    pub order: Order,
    pub key: HsKey,
}

// What stands before the key of an order file: all its members, of which `payload` is one, and the
// places that two of them name.
#[derive(Drop)]
struct Head {
    members: TreeMap,
    hide: PathList,
    decoys: DecoyList,
}

fn need_payload(members: &TreeMap) -> Result<(), FileFault>
    ensures there { OnOk result (MemberMeets (required Payload IsValue) members.now) }
    ensures refused { IfErr result (IsMemberRefused (required Payload IsValue) members.now) }
{
    match members.get(Field::Payload.word()) {
        Some(_) => Ok(()),
        None => Err(FileFault::Missing(Field::Payload)),
    }
}

// The payload of a file that has one, with no copy.
fn into_payload(mut members: TreeMap) -> Tree
    requires { MemberMeets (required Payload IsValue) members }
    ensures { Says IsValue (found members Payload) (tree_of result) }
{
    let Some(payload) = members.remove(Field::Payload.word()) else {
        unreachable!();
    };
    payload
}

// The entry of an object of just a pointer and a count.
fn decoy_of(alloc: Global, tree: &Tree) -> Result<Option<Decoy>, NoMemory>
    ensures decoy { IfOk result (λ decoy. IfSome decoy (IsDecoy (tree_of tree.now))) }
    ensures none { IfOk result (λ decoy. IfNone decoy (HasValue IsDecoy (tree_of tree.now) → ⊥)) }
{
    let Tree::Object(members) = tree else {
        return Ok(None);
    };
    if members.len() != 2 {
        return Ok(None);
    }
    let Some(at) = members.get("at") else {
        return Ok(None);
    };
    let Some(count) = members.get("count") else {
        return Ok(None);
    };
    let Some(at) = pointer_of(alloc, at)? else {
        return Ok(None);
    };
    match whole_up_to(count, ENTRY_MAX) {
        Some(count) => Ok(Some(Decoy { at, count })),
        None => Ok(None),
    }
}

#[tactic(auto, using(claim_tree::proofs::ListForms::no_element, claim_tree::proofs::ListForms::each_turn))]
fn decoys_of(alloc: Global, trees: &[Tree]) -> Result<Option<DecoyList>, NoMemory>
    ensures decoys { IfOk result
        (λ decoys. IfSome decoys (EachSays IsDecoy (elements_of trees.now))) }
    ensures none { IfOk result
        (λ decoys. IfNone decoys
        ((list : List Seen) → EachSays IsDecoy (elements_of trees.now) list → ⊥)) }
{
    let mut decoys = DecoyList::new(alloc);
    for tree in trees {
        let Some(decoy) = decoy_of(alloc, tree)? else {
            return Ok(None);
        };
        decoys.push(decoy)?;
    }
    Ok(Some(decoys))
}

fn decoys_member(alloc: Global, members: &TreeMap) -> Result<DecoyList, FileFault>
    ensures ok { IfOk result (SaysOr (IsListOf IsDecoy) [] (found members.now Decoys)) }
    ensures refused { IfErr result
        (IsMemberRefused (optional Decoys (IsListOf IsDecoy)) members.now) }
{
    let Some(tree) = members.get(Field::Decoys.word()) else {
        return Ok(DecoyList::new(alloc));
    };
    let Tree::List(list) = tree else {
        return Err(FileFault::Wrong(Field::Decoys));
    };
    match decoys_of(alloc, list.trees())? {
        Some(decoys) => Ok(decoys),
        None => Err(FileFault::Wrong(Field::Decoys)),
    }
}

// The algorithm whose name the tree is.
fn alg_of(tree: &Tree) -> Option<Alg>
    ensures alg { IfSome result (IsAlgText (tree_of tree.now)) }
    ensures none { IfNone result (HasValue IsAlgText (tree_of tree.now) → ⊥) }
{
    alg_named(tree.as_text()?.as_str())
}

fn alg_member(members: &TreeMap) -> Result<Alg, FileFault>
    ensures ok { IfOk result (SaysOr IsAlgText Alg.Hs256 (found members.now Field.Alg)) }
    ensures refused { IfErr result (IsMemberRefused (optional Field.Alg IsAlgText) members.now) }
{
    let Some(tree) = members.get(Field::Alg.word()) else {
        return Ok(Alg::Hs256);
    };
    match alg_of(tree) {
        Some(alg) => Ok(alg),
        None => Err(FileFault::Wrong(Field::Alg)),
    }
}

// The key of these bytes, by the algorithm that the file names.
fn key_by_alg(members: &TreeMap, bytes: &[u8]) -> Result<HsKey, FileFault>
    requires { key_min ≤ length bytes.now }
    ensures alg { IfOk result
        (λ key.
        SaysOr (IsAlgFor (length bytes.now)) Alg.Hs256 (found members.now Field.Alg) key.alg) }
    ensures key { IfOk result (λ key. key ≡ alg_key key.alg bytes.now) }
    ensures refused { IfErr result
        (IsMemberRefused (optional Field.Alg (IsAlgFor (length bytes.now))) members.now) }
{
    let alg = alg_member(members)?;
    match HsKey::new(alg, bytes) {
        Ok(key) => Ok(key),
        Err(KeyShort) => Err(FileFault::Wrong(Field::Alg)),
    }
}

// The hash whose name the tree is.
fn hash_of(tree: &Tree) -> Option<HashAlg>
    ensures hash { IfSome result (IsHashText (tree_of tree.now)) }
    ensures none { IfNone result (HasValue IsHashText (tree_of tree.now) → ⊥) }
{
    hash_named(tree.as_text()?.as_str())
}

fn hash_member(members: &TreeMap) -> Result<HashAlg, FileFault>
    ensures ok { IfOk result (SaysOr IsHashText HashAlg.Sha256 (found members.now SdAlg)) }
    ensures refused { IfErr result (IsMemberRefused (optional SdAlg IsHashText) members.now) }
{
    let Some(tree) = members.get(Field::SdAlg.word()) else {
        return Ok(HashAlg::Sha256);
    };
    match hash_of(tree) {
        Some(hash) => Ok(hash),
        None => Err(FileFault::Wrong(Field::SdAlg)),
    }
}

// Reads a file that may have these members, as far as its head.
fn read_head(alloc: Global, bytes: &[u8], fields: &[Field]) -> Result<Head, FileFault>
    ensures file { IfOk result (λ head. HasMembers file_max fields.now bytes.now head.members) }
    ensures depth { IfOk result (λ head. depth_of (object head.members) ≤ json_depth_max) }
    ensures says { IfOk result SaysHead }
    ensures refused { IfErr result (IsHeadRefused fields.now bytes.now) }
{
    let members = read_members(alloc, bytes, FILE_MAX, fields)?;
    need_payload(&members)?;
    let hide = pointer_list_member(alloc, &members, Field::Hide)?;
    let decoys = decoys_member(alloc, &members)?;
    Ok(Head {
        members,
        hide,
        decoys,
    })
}

// The order of a file of which all but the hash is read.
fn into_order(head: Head, kid: Option<TextBox>, typ: Option<TextBox>) -> Result<Order, FileFault>
    requires depth { depth_of (object head.members) ≤ json_depth_max }
    requires head { SaysHead head }
    requires kid { MaySay IsText (found head.members Kid) kid }
    requires typ { MaySay IsText (found head.members Typ) typ }
    ensures says { IfOk result (SaysOrder head.members) }
    ensures depth { IfOk result (λ order. depth_of (tree_of order.payload) ≤ 126) }
    ensures counts { IfOk result
        (λ order. (entry : Seen) → In entry order.decoys → entry.count ≤ count_max) }
    ensures refused { IfErr result (IsMemberRefused (optional SdAlg IsHashText) head.members) }
{
    let hash = hash_member(&head.members)?;
    Ok(Order {
        payload: into_payload(head.members),
        hide: head.hide,
        decoys: head.decoys,
        kid,
        typ,
        hash,
    })
}

/// The order that a file says: a JSON object that must have `payload`, any JSON value, and `key`,
/// the base64url text of at least 32 bytes.
///
/// `hide` is a list of JSON Pointers, and `decoys` a list of objects of just `at`,
/// a pointer, and `count`, from 0 to 32,768; where they are missing they are empty.
/// `kid` and `typ` are texts. `alg` is the name of an algorithm for which the key
/// is long enough (RFC 7518 section 3.2), and `sd_alg` that of a hash; where they
/// are missing, they are `HS256` and `sha-256`. Another member is a fault.
pub fn read_order(alloc: Global, bytes: &[u8]) -> Result<IssueFile, FileFault>
    ensures ok { IfOk result (IsOrderFile bytes.now) }
    ensures ordered { IfOk result (λ said. IsOrdered (tree_of said.order.payload)) }
    ensures depth { IfOk result (λ said. depth_of (tree_of said.order.payload) ≤ 126) }
    ensures counts { IfOk result
        (λ said. (entry : Seen) → In entry said.order.decoys → entry.count ≤ count_max) }
    ensures refused { IfErr result (IsOrderFileRefused bytes.now) }
{
    let head = read_head(alloc, bytes, &FIELDS)?;
    let key_bytes = key_bytes_member(alloc, &head.members, Field::Key)?;
    let kid = text_member(alloc, &head.members, Field::Kid)?;
    let typ = text_member(alloc, &head.members, Field::Typ)?;
    let key = key_by_alg(&head.members, key_bytes.bytes())?;
    let order = into_order(head, kid, typ)?;
    Ok(IssueFile { order, key })
}

/// The order that a file says for who signs elsewhere: as [`read_order`] reads it, but `key` and
/// `alg` are faults, since whoever signs has the key and names its algorithm.
pub fn read_unsigned_order(alloc: Global, bytes: &[u8]) -> Result<Order, FileFault>
    ensures ok { IfOk result (IsUnsignedOrderFile bytes.now) }
    ensures ordered { IfOk result (λ order. IsOrdered (tree_of order.payload)) }
    ensures depth { IfOk result (λ order. depth_of (tree_of order.payload) ≤ 126) }
    ensures counts { IfOk result
        (λ order. (entry : Seen) → In entry order.decoys → entry.count ≤ count_max) }
    ensures refused { IfErr result (IsUnsignedOrderRefused bytes.now) }
{
    let head = read_head(alloc, bytes, &UNSIGNED_FIELDS)?;
    let kid = text_member(alloc, &head.members, Field::Kid)?;
    let typ = text_member(alloc, &head.members, Field::Typ)?;
    into_order(head, kid, typ)
}
