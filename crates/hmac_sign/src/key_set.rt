// Sets of keys.
ghost use Rattle.std.specs.Prelude.{◌≡◌, ℕ, IfOk, IsErrOf, option_map, slice_get};
ghost use Rattle.hmac_sign.specs.Keys.{IsKeySet, answers, key_by, key_named, picked_key};
ghost use Rattle.hmac_sign.specs.KeyRefusals.{IsNoKeySet, KeyNotBase64At, KeyShortAt};
ghost use Rattle.claim_tree.specs.Tree.{has_text};
ghost use Rattle.hmac_sign.specs.declared.key_set.KeySetError.{KeySetError};
ghost use Rattle.claim_tree.specs.View.{tree_of};

use crate::key_set_elements::{all_decode, are_keys, make_keys};
use crate::{Alg, Hs256Key, HsKey};
use claim_tree::{Tree, get};
use sd_outside::{NoMemory, TextBox};
use std::alloc::{AllocFailed, Global};
use std::marker::Model;

/// The bytes of one key as a key for each algorithm that has enough of them,
/// and the name by which a header may ask for it.
#[derive(Drop)]
pub struct NamedKey {
    pub kid: Option<TextBox>,
    pub hs256: Hs256Key,
    pub hs384: Option<HsKey>,
    pub hs512: Option<HsKey>,
}

impl NamedKey {
    // The key for an algorithm.
    fn by(&self, alg: Alg) -> Option<&HsKey>
        ensures { option_map (λ key. key.now) result ≡ key_by self.now alg }
    {
        match alg {
            Alg::Hs256 => Some(self.hs256.as_key()),
            Alg::Hs384 => self.hs384.as_ref(),
            Alg::Hs512 => self.hs512.as_ref(),
        }
    }

    // Whether it has this name.
    fn is_named(&self, kid: &str) -> bool
        ensures { result ≡ has_text self.now.kid kid.now }
    {
        match &self.kid {
            Some(own) => own.as_str() == kid,
            None => false,
        }
    }

    // Whether it has this name, where one is given.
    fn answers(&self, kid: Option<&str>) -> bool
        ensures { result ≡ answers self.now.kid (option_map (λ name. name.now) kid.entry) }
    {
        match kid {
            Some(kid) => self.is_named(kid),
            None => true,
        }
    }
}

/// Why a tree is not read as a key set. A place counts all elements of `keys` from 0.
#[derive(Clone, Copy, Debug, PartialEq, Eq)]
pub enum KeySetError {
    /// There was no memory for the keys.
    Memory,
    /// It is no object with an array `keys`, or an element of it is no key.
    NotASet,
    /// The `k` of this key is no base64url code.
    KeyNotBase64(usize),
    /// The `k` of this key is the code of fewer than 32 bytes.
    KeyShort(usize),
}

impl From<NoMemory> for KeySetError {
    ghost use Rattle.hmac_sign.specs.declared.key_set.KeySetError.TheVariants.{Memory};

    ghost from_gives = { λ _ e. e ≡ Memory };

    fn from(_: NoMemory) -> Self {
        KeySetError::Memory
    }
}

impl<T: Drop> From<AllocFailed<T>> for KeySetError {
    ghost use Rattle.hmac_sign.specs.declared.key_set.KeySetError.TheVariants.{Memory};

    ghost from_gives = { λ _ e. e ≡ Memory };

    fn from(_: AllocFailed<T>) -> Self {
        KeySetError::Memory
    }
}

/// The keys of the kind `oct` of a JSON Web Key Set (RFC 7517 section 5), in
/// their order. Contracts see them so.
#[derive(Drop)]
pub struct KeySet {
    keys: Vec<NamedKey>,
}

impl Model for KeySet {
    ghost use Rattle.std.specs.Prelude.{List};
    ghost use Rattle.hmac_sign.specs.declared.key_set.NamedKey.{NamedKey};

    ghost Value = { List NamedKey };

    ghost view = { λ set. set.keys.items };
}

impl KeySet {
    /// The set of a JSON value. Keys of another kind are left out, and so is
    /// what a key says beyond `kty`, `k` and `kid`.
    pub fn read(alloc: Global, tree: &Tree) -> Result<KeySet, KeySetError>
        ensures ok { IfOk result (IsKeySet (tree_of tree.now)) }
        ensures not_a_set { IsErrOf result KeySetError.NotASet → IsNoKeySet (tree_of tree.now) }
        ensures not_base64 { (place : ℕ) → IsErrOf result (KeySetError.KeyNotBase64 place)
            → KeyNotBase64At (tree_of tree.now) place }
        ensures short { (place : ℕ) → IsErrOf result (KeySetError.KeyShort place)
            → KeyShortAt (tree_of tree.now) place }
    {
        let Some(Tree::List(list)) = get(tree, "keys") else {
            return Err(KeySetError::NotASet);
        };
        let trees = list.trees();
        if !are_keys(trees) {
            return Err(KeySetError::NotASet);
        }
        all_decode(alloc, trees)?;
        let keys = make_keys(alloc, trees)?;
        Ok(KeySet { keys })
    }

    /// The first key of this name, for HS256. It takes no memory.
    pub fn find(&self, kid: &str) -> Option<&Hs256Key>
        ensures { option_map (λ key. key.now) result ≡ key_named self.now kid.now }
    {
        for named in &self.keys {
            if named.is_named(kid) {
                return Some(&named.hs256);
            }
        }
        None
    }

    /// The first key, for HS256. It takes no memory.
    pub fn first(&self) -> Option<&Hs256Key>
        ensures { option_map (λ key. key.now) result
            ≡ option_map (λ named. named.hs256) (slice_get self.now 0) }
    {
        let named = self.keys.first()?;
        Some(&named.hs256)
    }

    /// The key for an algorithm, of the first element that has enough bytes for it and, where a
    /// name is given, that name. It takes no memory.
    pub fn pick(&self, kid: Option<&str>, alg: Alg) -> Option<&HsKey>
        ensures { option_map (λ key. key.now) result
            ≡ picked_key self.now (option_map (λ name. name.now) kid.entry) alg }
    {
        for named in &self.keys {
            if named.answers(kid)
                && let Some(key) = named.by(alg)
            {
                return Some(key);
            }
        }
        None
    }
}
