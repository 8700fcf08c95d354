// The elements of a key set.
ghost use Rattle.std.specs.Prelude.{◌≡◌, None, length, codes, IfOk, IfErr, OnOk, IsErrOf, IfSome, ℕ, ◌≤◌, ◌<◌, option_map};
ghost use Rattle.sd_outside.specs.Limits.{key_min};
ghost use Rattle.claim_tree.specs.Tree.{get as get_of};
ghost use Rattle.claim_tree.specs.View.{tree_of};
ghost use Rattle.claim_tree.specs.ListViews.{elements_of};
ghost use Rattle.hmac_sign.specs.Keys as spec;
ghost use Rattle.hmac_sign.specs.Keys.{KeysOf, IsNamedKey, IsOct};
ghost use Rattle.hmac_sign.specs.KeyRefusals.{NoneBefore, IsFirstKey, IsKeyNotBase64, IsKeyShort, IsAdded, IsOfCodes, IsOfLengths};
ghost use Rattle.hmac_sign.specs.declared.key_set.KeySetError.{KeySetError};

use crate::key_set::{KeySetError, NamedKey};
use crate::{Alg, Hs256Key, HsKey};
use b64url_text::{DecodeError, decode};
use claim_tree::{Tree, get};
use sd_outside::{ByteBox, NoMemory, TextBox};
use std::alloc::Global;

// The text under a name.
fn text_under<'a>(tree: &'a Tree, name: &str) -> Option<&'a str>
    ensures { option_map (λ text. text.now) result ≡ spec.text_under (tree_of tree.now) name.now }
{
    let text = get(tree, name)?.as_text()?;
    Some(text.as_str())
}

// Whether a key is of the kind `oct`.
fn is_oct(tree: &Tree) -> bool
    ensures { result ≡ spec.is_oct (tree_of tree.now) }
{
    match text_under(tree, "kty") {
        Some(kind) => kind == "oct",
        None => false,
    }
}

// Whether there is no `kid`, or one that is a text.
fn has_good_name(tree: &Tree) -> bool
    ensures { result ≡ spec.is_name (get_of (tree_of tree.now) (codes "kid")) }
{
    match get(tree, "kid") {
        None => true,
        Some(kid) => kid.as_text().is_some(),
    }
}

fn is_key(tree: &Tree) -> bool
    ensures { result ≡ spec.is_key (tree_of tree.now) }
{
    if is_oct(tree) {
        text_under(tree, "k").is_some() && has_good_name(tree)
    } else {
        text_under(tree, "kty").is_some()
    }
}

pub(crate) fn are_keys(trees: &[Tree]) -> bool
    ensures { result ≡ spec.are_keys (elements_of trees.now) }
{
    for tree in trees {
        if !is_key(tree) {
            return false;
        }
    }
    true
}

// The `k` of a key of the kind `oct`.
fn oct_code(tree: &Tree) -> Option<&str>
    ensures { option_map (λ text. text.now) result ≡ spec.oct_text (tree_of tree.now) }
{
    if is_oct(tree) {
        text_under(tree, "k")
    } else {
        None
    }
}

// The bytes of a key of the kind `oct`, and None of another.
fn oct_bytes(alloc: Global, tree: &Tree) -> Result<Option<ByteBox>, DecodeError>
    ensures other { IfOk result (λ bytes. bytes ≡ None → spec.oct_text (tree_of tree.now) ≡ None) }
    ensures oct { IfOk result (λ bytes. IfSome bytes (IsOct (tree_of tree.now))) }
    ensures not_base64 { IsErrOf result DecodeError.NotBase64 → IsKeyNotBase64 (tree_of tree.now) }
{
    match oct_code(tree) {
        Some(code) => Ok(Some(decode(alloc, code.as_bytes())?)),
        None => Ok(None),
    }
}

// The name of a key.
fn kid_of(alloc: Global, tree: &Tree) -> Result<Option<TextBox>, NoMemory>
    ensures { IfOk result (λ kid. kid ≡ spec.text_under (tree_of tree.now) (codes "kid")) }
{
    match text_under(tree, "kid") {
        Some(kid) => Ok(Some(TextBox::make(alloc, kid)?)),
        None => Ok(None),
    }
}

// Finds the first key whose `k` is no code.
pub(crate) fn all_decode(alloc: Global, trees: &[Tree]) -> Result<(), KeySetError>
    ensures codes { OnOk result
        (NoneBefore IsKeyNotBase64 (elements_of trees.now) (length trees.now)) }
    ensures no_code { (place : ℕ) → IsErrOf result (KeySetError.KeyNotBase64 place)
        → IsFirstKey IsKeyNotBase64 (elements_of trees.now) place }
    ensures no_other { IfErr result IsOfCodes }
{
    for (place, tree) in trees.iter().enumerate() {
        match oct_bytes(alloc, tree) {
            Ok(_) => (),
            Err(DecodeError::NotBase64) => return Err(KeySetError::KeyNotBase64(place)),
            Err(DecodeError::Memory) => return Err(KeySetError::Memory),
        }
    }
    Ok(())
}

// The keys of these bytes, with the name of the element.
fn named_key(
    alloc: Global,
    tree: &Tree,
    bytes: &[u8],
    place: usize,
) -> Result<NamedKey, KeySetError>
    ensures named { IfOk result (IsNamedKey (tree_of tree.now) bytes.now) }
    ensures enough { IfOk result (λ _. key_min ≤ length bytes.now) }
    ensures short { (at : ℕ) → IsErrOf result (KeySetError.KeyShort at)
        → (at ≡ place) × (length bytes.now < key_min) }
    ensures no_other { IfErr result IsOfLengths }
{
    let Ok(hs256) = Hs256Key::new(bytes) else {
        return Err(KeySetError::KeyShort(place));
    };
    Ok(NamedKey {
        kid: kid_of(alloc, tree)?,
        hs256,
        hs384: HsKey::new(Alg::Hs384, bytes).ok(),
        hs512: HsKey::new(Alg::Hs512, bytes).ok(),
    })
}

// Adds the key of an element, where it is of the kind `oct`.
fn add_key(
    alloc: Global,
    tree: &Tree,
    place: usize,
    keys: &mut Vec<NamedKey>,
) -> Result<(), KeySetError>
    requires { IsKeyNotBase64 (tree_of tree.now) → ⊥ }
    ensures ok { OnOk result (IsAdded (tree_of tree.now) keys.old.items keys.new.items) }
    ensures short { (at : ℕ) → IsErrOf result (KeySetError.KeyShort at)
        → (at ≡ place) × IsKeyShort (tree_of tree.now) }
    ensures no_other { IfErr result IsOfLengths }
{
    match oct_bytes(alloc, tree) {
        Ok(Some(bytes)) => {
            keys.push(named_key(alloc, tree, bytes.bytes(), place)?)?;
            Ok(())
        }
        Ok(None) => Ok(()),
        Err(DecodeError::NotBase64) => unreachable!(),
        Err(DecodeError::Memory) => Err(KeySetError::Memory),
    }
}

// The keys of the kind `oct`.
pub(crate) fn make_keys(alloc: Global, trees: &[Tree]) -> Result<Vec<NamedKey>, KeySetError>
    requires { NoneBefore IsKeyNotBase64 (elements_of trees.now) (length trees.now) }
    ensures ok { IfOk result (λ keys. KeysOf (elements_of trees.now) keys.items) }
    ensures short { (place : ℕ) → IsErrOf result (KeySetError.KeyShort place)
        → IsFirstKey IsKeyShort (elements_of trees.now) place }
    ensures no_other { IfErr result IsOfLengths }
{
    let mut keys = Vec::new(alloc);
    for (place, tree) in trees.iter().enumerate() {
        add_key(alloc, tree, place, &mut keys)?;
    }
    Ok(keys)
}
