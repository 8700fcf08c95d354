// The text of a key, and a set of keys, as the files that a command reads have them.
ghost use Rattle.std.specs.Prelude.{◌<◌, IfOk, IfErr, IfSome, IfNone};
ghost use Rattle.claim_tree.specs.View.{tree_of};
ghost use Rattle.claim_tree.specs.TreeValues.{HasValue, Says};
ghost use Rattle.file_members.specs.FileForms.{required, found};
ghost use Rattle.file_members.specs.FileRefusals.{IsMemberRefused};
ghost use Rattle.hmac_sign.specs.KeyText.{IsKeyBytes, IsKeyText};
ghost use Rattle.hmac_sign.specs.Keys.{IsKeySet};

use crate::{Alg, Hs256Key, KeySet, KeySetError};
use b64url_text::{DecodeError, decode};
use claim_tree::{Tree, TreeMap};
use file_members::{Field, FileFault};
use sd_outside::{ByteBox, NoMemory};
use std::alloc::Global;

/// The bytes of a tree that is the base64url text of at least 32 bytes, and
/// None for any other tree.
pub fn key_bytes_of(alloc: Global, tree: &Tree) -> Result<Option<ByteBox>, NoMemory>
    ensures bytes { IfOk result (λ bytes. IfSome bytes (IsKeyBytes (tree_of tree.now))) }
    ensures none { IfOk result
        (λ bytes. IfNone bytes (HasValue IsKeyBytes (tree_of tree.now) → ⊥)) }
{
    let Tree::Text(text) = tree else {
        return Ok(None);
    };
    match decode(alloc, text.as_str().as_bytes()) {
        Ok(bytes) if bytes.bytes().len() < Alg::Hs256.key_min() => Ok(None),
        Ok(bytes) => Ok(Some(bytes)),
        Err(DecodeError::Memory) => Err(NoMemory),
        Err(DecodeError::NotBase64) => Ok(None),
    }
}

/// The bytes of a member that a file must have.
pub fn key_bytes_member(
    alloc: Global,
    members: &TreeMap,
    field: Field,
) -> Result<ByteBox, FileFault>
    ensures ok { IfOk result (Says IsKeyBytes (found members.now field)) }
    ensures refused { IfErr result (IsMemberRefused (required field IsKeyBytes) members.now) }
{
    let Some(tree) = members.get(field.word()) else {
        return Err(FileFault::Missing(field));
    };
    match key_bytes_of(alloc, tree)? {
        Some(bytes) => Ok(bytes),
        None => Err(FileFault::Wrong(field)),
    }
}

/// The key for HS256 of a tree that is the base64url text of at least 32 bytes,
/// and None for any other tree.
pub fn key_of(alloc: Global, tree: &Tree) -> Result<Option<Hs256Key>, NoMemory>
    ensures key { IfOk result (λ key. IfSome key (IsKeyText (tree_of tree.now))) }
    ensures none { IfOk result (λ key. IfNone key (HasValue IsKeyText (tree_of tree.now) → ⊥)) }
{
    match key_bytes_of(alloc, tree)? {
        Some(bytes) => Ok(Hs256Key::new(bytes.bytes()).ok()),
        None => Ok(None),
    }
}

/// The key set of a member that a file must have.
pub fn keys_member(alloc: Global, members: &TreeMap, field: Field) -> Result<KeySet, FileFault>
    ensures ok { IfOk result (Says IsKeySet (found members.now field)) }
    ensures refused { IfErr result (IsMemberRefused (required field IsKeySet) members.now) }
{
    let Some(tree) = members.get(field.word()) else {
        return Err(FileFault::Missing(field));
    };
    match KeySet::read(alloc, tree) {
        Ok(keys) => Ok(keys),
        Err(error) => match error {
            KeySetError::Memory => Err(FileFault::Memory),
            _ => Err(FileFault::Wrong(field)),
        },
    }
}
