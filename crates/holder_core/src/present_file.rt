// The files that say what is asked of a holder: with keys, and without.
ghost use Rattle.std.specs.Prelude.{List, ℕ, Option, codes, option_map, IfOk, IfErr, IfSome, IfNone};
ghost use Rattle.claim_tree.specs.Tree.{Text, member_named};
ghost use Rattle.claim_tree.specs.View.{tree_of};
ghost use Rattle.claim_tree.specs.TreeValues.{HasValue, IsText, IsTexts, Says, MaySay};
ghost use Rattle.file_members.specs.FileForms.{required, optional, found};
ghost use Rattle.file_members.specs.FileRefusals.{IsMemberRefused};
ghost use Rattle.file_members.specs.declared.field.Field.TheVariants.{Algs, Binding};
ghost use Rattle.hmac_sign.specs.KeyText.{IsKeyText};
ghost use Rattle.holder_core.specs.PresentFile.{IsBindingOrder, IsPresentFile, IsPresentFileRefused};
ghost use Rattle.holder_core.specs.UnsignedPresent.{IsAlgName, IsCallerBinding, IsUnsignedPresentFile, IsUnsignedPresentRefused};

use crate::{Ask, BindingAsk, CallerAsk, CallerBinding};
use claim_tree::{PathList, Tree, TreeMap};
use compact_form::FILE_MAX;
use file_members::{Field, FileFault, pointer_list_member, read_members, text_list_member};
use hmac_sign::{AlgName, AlgNameBox, Hs256Key, key_of, keys_member};
use key_binding::short_text_in;
use sd_outside::{NoMemory, TextBox, TextList};
use std::alloc::Global;

const FIELDS: [Field; 4] = [Field::Keys, Field::Want, Field::Never, Field::Binding];

// Those of a present order without keys.
const UNSIGNED_FIELDS: [Field; 4] = [Field::Algs, Field::Want, Field::Never, Field::Binding];

// The members of the object that asks for a key binding token: no more, and no fewer.
const MEMBERS: usize = 4;

/// What a present order says: what is asked, the places that are never shown, and the key of the
/// holder, which is there exactly where a key binding token is asked for.
#[derive(Drop)]
pub struct PresentFile {
    pub ask: Ask,
    pub never: PathList,
    pub key: Option<Hs256Key>,
}

/// What a present order without keys says: what is asked, and the places that are never shown.
#[derive(Drop)]
pub struct UnsignedPresentFile {
    pub ask: CallerAsk,
    pub never: PathList,
}

// What a file says of key binding: what is asked, and the key that signs.
#[derive(Drop)]
struct BindingOrder {
    ask: BindingAsk,
    key: Hs256Key,
}

fn text_in(alloc: Global, members: &TreeMap, name: &str) -> Result<Option<TextBox>, NoMemory>
    ensures text { IfOk result
        (λ text. IfSome text (Says IsText (member_named members.now name.now))) }
    ensures none { IfOk result
        (λ text. IfNone text ((s : Text) → Says IsText (member_named members.now name.now) s → ⊥)) }
{
    let Some(Tree::Text(text)) = members.get(name) else {
        return Ok(None);
    };
    Ok(Some(TextBox::make(alloc, text.as_str())?))
}

fn key_in(alloc: Global, members: &TreeMap) -> Result<Option<Hs256Key>, NoMemory>
    ensures key { IfOk result
        (λ key. IfSome key (Says IsKeyText (member_named members.now (codes "key")))) }
    ensures none { IfOk result
        (λ key. IfNone key
        ((k : List ℕ) → Says IsKeyText (member_named members.now (codes "key")) k → ⊥)) }
{
    let Some(tree) = members.get("key") else {
        return Ok(None);
    };
    key_of(alloc, tree)
}

fn binding_of(alloc: Global, tree: &Tree) -> Result<Option<BindingOrder>, NoMemory>
    ensures binding { IfOk result
        (λ said. IfSome said (λ order. IsBindingOrder (tree_of tree.now) (order.ask, order.key))) }
    ensures none { IfOk result
        (λ said. IfNone said (HasValue IsBindingOrder (tree_of tree.now) → ⊥)) }
{
    let Tree::Object(members) = tree else {
        return Ok(None);
    };
    if members.len() != MEMBERS {
        return Ok(None);
    }
    let Some(key) = key_in(alloc, members)? else {
        return Ok(None);
    };
    let Some(kid) = text_in(alloc, members, "kid")? else {
        return Ok(None);
    };
    let Some(aud) = short_text_in(alloc, members, "aud")? else {
        return Ok(None);
    };
    let Some(nonce) = short_text_in(alloc, members, "nonce")? else {
        return Ok(None);
    };
    Ok(Some(BindingOrder {
        ask: BindingAsk { kid, aud, nonce },
        key,
    }))
}

fn binding_member(alloc: Global, members: &TreeMap) -> Result<Option<BindingOrder>, FileFault>
    ensures ok { IfOk result
        (λ said. MaySay IsBindingOrder (found members.now Binding)
        (option_map (λ order. (order.ask, order.key)) said)) }
    ensures refused { IfErr result (IsMemberRefused (optional Binding IsBindingOrder) members.now) }
{
    let Some(tree) = members.get(Field::Binding.word()) else {
        return Ok(None);
    };
    match binding_of(alloc, tree)? {
        Some(order) => Ok(Some(order)),
        None => Err(FileFault::Wrong(Field::Binding)),
    }
}

/// The present order that a file says: a JSON object whose one member that it
/// must have is `keys`, the key set of the issuers.
///
/// `want` and `never` are lists of JSON Pointers; where they are missing they are
/// empty. `binding` is an object of just `key`, the base64url text of at least 32
/// bytes, `kid`, a text, and `aud` and `nonce`, texts of at most 256 bytes; where
/// it is missing, no key binding token is asked for. Another member is a fault.
#[tactic(auto, using(crate::proofs::PresentOrders::refused_at))]
pub fn read_present(alloc: Global, bytes: &[u8]) -> Result<PresentFile, FileFault>
    ensures ok { IfOk result (IsPresentFile bytes.now) }
    ensures refused { IfErr result (IsPresentFileRefused bytes.now) }
{
    let members = read_members(alloc, bytes, FILE_MAX, &FIELDS)?;
    let keys = keys_member(alloc, &members, Field::Keys)?;
    let want = pointer_list_member(alloc, &members, Field::Want)?;
    let never = pointer_list_member(alloc, &members, Field::Never)?;
    let (binding, key) = match binding_member(alloc, &members)? {
        Some(BindingOrder { ask, key }) => (Some(ask), Some(key)),
        None => (None, None),
    };
    let ask = Ask {
        keys,
        want,
        binding,
    };
    Ok(PresentFile { ask, never, key })
}

fn algs_member(alloc: Global, members: &TreeMap) -> Result<TextList, FileFault>
    ensures ok { IfOk result (Says IsTexts (found members.now Algs)) }
    ensures refused { IfErr result (IsMemberRefused (required Algs IsTexts) members.now) }
{
    match text_list_member(alloc, members, Field::Algs)? {
        Some(algs) => Ok(algs),
        None => Err(FileFault::Missing(Field::Algs)),
    }
}

// The name of an algorithm: a text, but neither the empty one nor `none`.
fn alg_in(alloc: Global, members: &TreeMap) -> Result<Option<AlgNameBox>, NoMemory>
    ensures alg { IfOk result
        (λ alg. IfSome alg (Says IsAlgName (member_named members.now (codes "alg")))) }
    ensures none { IfOk result (λ alg. IfNone alg
        ((s : Text) → Says IsAlgName (member_named members.now (codes "alg")) s → ⊥)) }
{
    let Some(Tree::Text(text)) = members.get("alg") else {
        return Ok(None);
    };
    match AlgName::new(text.as_str()) {
        Some(name) => Ok(Some(AlgNameBox::make(alloc, &name)?)),
        None => Ok(None),
    }
}

// A copy of the text that a member is, where it is there.
fn maybe_text_in(
    alloc: Global,
    members: &TreeMap,
    name: &str,
) -> Result<Option<Option<TextBox>>, NoMemory>
    ensures text { IfOk result
        (λ said. IfSome said (MaySay IsText (member_named members.now name.now))) }
    ensures none { IfOk result (λ said. IfNone said
        ((s : Option Text) → MaySay IsText (member_named members.now name.now) s → ⊥)) }
{
    match members.get(name) {
        Some(Tree::Text(text)) => Ok(Some(Some(TextBox::make(alloc, text.as_str())?))),
        Some(_) => Ok(None),
        None => Ok(Some(None)),
    }
}

fn caller_binding_of(alloc: Global, tree: &Tree) -> Result<Option<CallerBinding>, NoMemory>
    ensures binding { IfOk result (λ said. IfSome said (IsCallerBinding (tree_of tree.now))) }
    ensures none { IfOk result
        (λ said. IfNone said (HasValue IsCallerBinding (tree_of tree.now) → ⊥)) }
{
    let Tree::Object(members) = tree else {
        return Ok(None);
    };
    let Some(kid) = maybe_text_in(alloc, members, "kid")? else {
        return Ok(None);
    };
    let just = if kid.is_some() { 4 } else { 3 };
    if members.len() != just {
        return Ok(None);
    }
    let Some(alg) = alg_in(alloc, members)? else {
        return Ok(None);
    };
    let Some(aud) = short_text_in(alloc, members, "aud")? else {
        return Ok(None);
    };
    let Some(nonce) = short_text_in(alloc, members, "nonce")? else {
        return Ok(None);
    };
    Ok(Some(CallerBinding {
        alg,
        kid,
        aud,
        nonce,
    }))
}

fn caller_binding_member(
    alloc: Global,
    members: &TreeMap,
) -> Result<Option<CallerBinding>, FileFault>
    ensures ok { IfOk result (MaySay IsCallerBinding (found members.now Binding)) }
    ensures refused { IfErr result
        (IsMemberRefused (optional Binding IsCallerBinding) members.now) }
{
    let Some(tree) = members.get(Field::Binding.word()) else {
        return Ok(None);
    };
    match caller_binding_of(alloc, tree)? {
        Some(binding) => Ok(Some(binding)),
        None => Err(FileFault::Wrong(Field::Binding)),
    }
}

/// The present order that a file says where the caller checks the issuer's signature and makes the
/// holder's, for [`present_unsigned`](crate::present_unsigned): as [`read_present`] reads it, but
/// without keys.
///
/// In the place of `keys` it must have `algs`, a list of texts: the algorithms of the issuer's
/// signatures that the caller checks. `binding` is an object of just `alg`, the name of the
/// algorithm by which the caller signs, which is not empty and not `none`, of `aud` and `nonce`,
/// and of `kid` where the claim `cnf` has to tell this name.
#[tactic(auto, using(crate::proofs::PresentOrders::refused_at))]
pub fn read_unsigned_present(alloc: Global, bytes: &[u8]) -> Result<UnsignedPresentFile, FileFault>
    ensures ok { IfOk result (IsUnsignedPresentFile bytes.now) }
    ensures refused { IfErr result (IsUnsignedPresentRefused bytes.now) }
{
    let members = read_members(alloc, bytes, FILE_MAX, &UNSIGNED_FIELDS)?;
    let algs = algs_member(alloc, &members)?;
    let want = pointer_list_member(alloc, &members, Field::Want)?;
    let never = pointer_list_member(alloc, &members, Field::Never)?;
    let binding = caller_binding_member(alloc, &members)?;
    let ask = CallerAsk {
        algs,
        want,
        binding,
    };
    Ok(UnsignedPresentFile { ask, never })
}
