// What `gen` issues, asks for and verifies, by the number of its members.
ghost use Rattle.std.specs.Prelude.{◌≡◌, ◌≢◌, ◌<◌, ◌≤◌, ◌∷◌, ◌++◌, ℕ, List, IfOk, OnOk, string_bytes};
ghost use Rattle.std.specs.Fmt.{decimal};
ghost use Rattle.claim_tree.specs.View.{tree_of};
ghost use Rattle.issuer_core.specs.Order.{order_of as order_in};
ghost use Rattle.sdjwt_cli.specs.Generated as spec;
ghost use Rattle.sdjwt_cli.specs.Generated.{members_below, hidden_below, paths_below, generated, generated_key, generated_keys, generated_ask, generated_policy};
ghost use Rattle.sdjwt_cli.specs.GeneratedSteps.{with_member, HasMember, HasNoOther, BeginsWith, set_tree as set_in};

use b64url_text::encode;
use claim_tree::{Path, PathList, Tree, TreeList, TreeMap, Whole, position};
use disclosure::HashAlg;
use hmac_sign::{Alg, Hs256Key, HsKey, KeySet, KeySetError, KeyShort};
use holder_core::Ask;
use issuer_core::{Decoy, DecoyList, Order};
use itoa::Buffer;
use sd_outside::{NoMemory, TextBox, TextList};
use std::alloc::Global;
use verifier_core::Policy;

// The most members.
const MEMBERS_MAX: usize = 3_000;

// The bytes of the key of all three.
const KEY: [u8; 32] = [1; 32];

// The number of members that a word says.
pub(crate) fn count_of(word: &str) -> Option<u32>
    ensures { result ≡ spec.count_of word.now }
{
    within_limits(position(word, MEMBERS_MAX + 1)?)
}

// A number of members: from 1 to the most.
fn within_limits(count: usize) -> Option<u32>
    ensures { (word : List ℕ) → decimal count ≡ word → result ≡ spec.count_of word }
{
    if count == 0 || MEMBERS_MAX < count {
        return None;
    }
    Some(count as u32)
}

// ---- the order

// Makes the text the name of the member of a number.
fn spell_name(text: &mut String, i: u32) -> Result<(), NoMemory>
    ensures { OnOk result (string_bytes text.new ≡ spec.member_name i) }
{
    let mut digits = Buffer::new();
    text.clear();
    text.push_str("m")?;
    text.push_str(digits.format(i))?;
    Ok(())
}

fn member_name(alloc: Global, i: u32) -> Result<TextBox, NoMemory>
    ensures { IfOk result (λ name. name ≡ spec.member_name i) }
{
    let mut name = String::new(alloc);
    spell_name(&mut name, i)?;
    Ok(TextBox::from_string(name))
}

fn number(i: u64) -> Tree
    ensures { tree_of result ≡ spec.number i }
{
    Tree::Whole(Whole::from(u64::from(i)))
}

fn member_value(alloc: Global, i: u32) -> Result<Tree, NoMemory>
    ensures { IfOk result (λ tree. tree_of tree ≡ spec.member_value i) }
{
    let i = u64::from(i);
    let mut pair = TreeList::new(alloc);
    pair.push(number(i))?;
    pair.push(number(i + 1))?;
    let mut members = TreeMap::new(alloc);
    members.insert(TextBox::make(alloc, "a")?, number(i))?;
    members.insert(TextBox::make(alloc, "b")?, Tree::List(pair))?;
    Ok(Tree::Object(members))
}

fn put_member(alloc: Global, members: &mut TreeMap, i: u32) -> Result<(), NoMemory>
    ensures { OnOk result (members.new ≡ with_member i members.old) }
{
    members.insert(member_name(alloc, i)?, member_value(alloc, i)?)
}

// Puts the member of a number, where it is below the count, and then those of the numbers that have
// more digits behind it. So they come in the order of their names, each behind all others.
#[cycle(put)]
fn put_from(alloc: Global, members: &mut TreeMap, first: u64, count: u32) -> Result<(), NoMemory>
    requires positive { 1 ≤ first }
    requires no_other { HasNoOther count members.old }
    ensures no_other { OnOk result (HasNoOther count members.new) }
    ensures kept { OnOk result
        ((i : ℕ) → i < count → HasMember members.old i → HasMember members.new i) }
    ensures put { OnOk result ((i : ℕ) → i < count → BeginsWith first i → HasMember members.new i) }
{
    if first >= u64::from(count) {
        return Ok(());
    }
    put_member(alloc, members, first as u32)?;
    for digit in 0..10 {
        put_from(alloc, members, 10 * first + digit, count)?;
    }
    Ok(())
}

fn members(alloc: Global, count: u32) -> Result<TreeMap, NoMemory>
    ensures { IfOk result (λ members. members ≡ members_below count) }
{
    let mut members = TreeMap::new(alloc);
    if count == 0 {
        return Ok(members);
    }
    put_member(alloc, &mut members, 0)?;
    for digit in 1..10 {
        put_from(alloc, &mut members, digit, count)?;
    }
    Ok(members)
}

// The path to the member of a name, and from there on.
fn path_inside(alloc: Global, name: &str, inside: &Path) -> Result<Path, NoMemory>
    ensures { IfOk result (λ path. path ≡ name.now ∷ inside.now) }
{
    let mut path = Path::new(alloc);
    path.push(name)?;
    for step in inside.steps() {
        path.push(step)?;
    }
    Ok(path)
}

// Adds such a path for each number below the count that is a multiple of another.
fn push_paths(
    alloc: Global,
    paths: &mut PathList,
    every: u32,
    inside: &Path,
    count: u32,
) -> Result<(), NoMemory>
    requires { every ≢ 0 }
    ensures { OnOk result (paths.new ≡ paths.old ++ paths_below every inside.now count) }
{
    let mut name = String::new(alloc);
    for i in 0..count {
        if i % every == 0 {
            spell_name(&mut name, i)?;
            paths.push(path_inside(alloc, name.as_str(), inside)?)?;
        }
    }
    Ok(())
}

// The path from a member to its `a`.
fn to_a(alloc: Global) -> Result<Path, NoMemory>
    ensures { IfOk result (λ path. path ≡ spec.to_a) }
{
    let mut path = Path::new(alloc);
    path.push("a")?;
    Ok(path)
}

// The path from a member to the second element of its `b`.
fn to_second(alloc: Global) -> Result<Path, NoMemory>
    ensures { IfOk result (λ path. path ≡ spec.to_second) }
{
    let mut path = Path::new(alloc);
    path.push("b")?;
    path.push("1")?;
    Ok(path)
}

fn hidden_paths(alloc: Global, count: u32) -> Result<PathList, NoMemory>
    ensures { IfOk result (λ paths. paths ≡ hidden_below count) }
{
    let mut paths = PathList::new(alloc);
    push_paths(alloc, &mut paths, 2, &Path::new(alloc), count)?;
    push_paths(alloc, &mut paths, 3, &to_a(alloc)?, count)?;
    push_paths(alloc, &mut paths, 5, &to_second(alloc)?, count)?;
    Ok(paths)
}

// One decoy at the root.
fn one_decoy(alloc: Global) -> Result<DecoyList, NoMemory>
    ensures { IfOk result (λ decoys. decoys ≡ spec.one_decoy) }
{
    let mut decoys = DecoyList::new(alloc);
    decoys.push(Decoy {
        at: Path::new(alloc),
        count: 1,
    })?;
    Ok(decoys)
}

// What is issued.
pub(crate) fn order_of(alloc: Global, count: u32) -> Result<Order, NoMemory>
    ensures { IfOk result (λ order. order_in order ≡ generated count) }
{
    let hide = hidden_paths(alloc, count)?;
    let decoys = one_decoy(alloc)?;
    Ok(Order {
        payload: Tree::Object(members(alloc, count)?),
        hide,
        decoys,
        kid: None,
        typ: None,
        hash: HashAlg::Sha256,
    })
}

// ---- who signs, asks and verifies

// The key of the issuer.
pub(crate) fn key() -> HsKey
    ensures { result ≡ generated_key }
{
    match HsKey::new(Alg::Hs256, &KEY) {
        Ok(key) => key,
        Err(KeyShort) => unreachable!(),
    }
}

// The same key, for who presents.
pub(crate) fn presenting_key() -> Hs256Key
    ensures { result ≡ generated_key.block }
{
    match Hs256Key::new(&KEY) {
        Ok(key) => key,
        Err(KeyShort) => unreachable!(),
    }
}

// The set of this key alone, as a JSON Web Key Set.
fn set_tree(alloc: Global) -> Result<Tree, NoMemory>
    ensures { IfOk result (λ tree. tree_of tree ≡ set_in) }
{
    let mut key = TreeMap::new(alloc);
    key.insert(TextBox::make(alloc, "k")?, Tree::Text(encode(alloc, &KEY)?))?;
    key.insert(
        TextBox::make(alloc, "kty")?,
        Tree::Text(TextBox::make(alloc, "oct")?),
    )?;
    let mut keys = TreeList::new(alloc);
    keys.push(Tree::Object(key))?;
    let mut set = TreeMap::new(alloc);
    set.insert(TextBox::make(alloc, "keys")?, Tree::List(keys))?;
    Ok(Tree::Object(set))
}

fn key_set(alloc: Global) -> Result<KeySet, NoMemory>
    ensures { IfOk result (λ keys. keys ≡ generated_keys) }
{
    let tree = set_tree(alloc)?;
    match KeySet::read(alloc, &tree) {
        Ok(keys) => Ok(keys),
        Err(KeySetError::Memory) => Err(NoMemory),
        Err(_) => unreachable!(),
    }
}

// What is asked of the holder.
pub(crate) fn ask_of(alloc: Global, count: u32) -> Result<Ask, NoMemory>
    ensures { IfOk result (λ ask. ask ≡ generated_ask count) }
{
    let mut want = PathList::new(alloc);
    push_paths(alloc, &mut want, 4, &to_a(alloc)?, count)?;
    Ok(Ask {
        keys: key_set(alloc)?,
        want,
        binding: None,
    })
}

// What the verifier wants.
pub(crate) fn policy(alloc: Global) -> Result<Policy, NoMemory>
    ensures { IfOk result (λ policy. policy ≡ generated_policy) }
{
    let mut algs = TextList::new(alloc);
    algs.push(TextBox::make(alloc, "HS256")?)?;
    Ok(Policy {
        keys: key_set(alloc)?,
        algs,
        typ: None,
        iss: None,
        require: TextList::new(alloc),
        skew: 0,
        binding: None,
    })
}
