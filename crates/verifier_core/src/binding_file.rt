// What a policy file says of key binding.
ghost use Rattle.std.specs.Prelude.{List, ℕ, codes, IfOk, IfErr, IfSome, IfNone};
ghost use Rattle.sd_outside.specs.Limits.{age_max};
ghost use Rattle.claim_tree.specs.TreeValues.{IsWholeUpTo, HasValue, Says, MaySay};
ghost use Rattle.file_members.specs.FileForms.{optional, found};
ghost use Rattle.file_members.specs.FileRefusals.{IsMemberRefused};
ghost use Rattle.claim_tree.specs.Tree.{member_named};
ghost use Rattle.claim_tree.specs.View.{tree_of};
ghost use Rattle.file_members.specs.declared.field.Field.TheVariants.{Binding};
ghost use Rattle.hmac_sign.specs.Keys.{IsKeySet};
ghost use Rattle.hmac_sign.specs.declared.key_set.NamedKey.{NamedKey};
ghost use Rattle.verifier_core.specs.PolicyFile.{IsBindingPolicy};

use crate::policy_version::{PolicyVersion, audiences_in};
use claim_tree::{Tree, TreeMap, whole_up_to};
use file_members::{Field, FileFault};
use hmac_sign::{KeySet, KeySetError};
use key_binding::{BindingPolicy, short_text_in};
use sd_outside::NoMemory;
use std::alloc::Global;

/// The most seconds that a key binding token may be old.
pub const AGE_MAX: u32 = 4_294_967_295;

// The members of the object: no more, and no fewer.
const MEMBERS: usize = 4;

fn keys_in(alloc: Global, members: &TreeMap) -> Result<Option<KeySet>, NoMemory>
    ensures keys { IfOk result
        (λ keys. IfSome keys (Says IsKeySet (member_named members.now (codes "keys")))) }
    ensures none { IfOk result
        (λ keys. IfNone keys
        ((set : List NamedKey) → Says IsKeySet (member_named members.now (codes "keys")) set
        → ⊥)) }
{
    let Some(tree) = members.get("keys") else {
        return Ok(None);
    };
    match KeySet::read(alloc, tree) {
        Ok(keys) => Ok(Some(keys)),
        Err(error) => match error {
            KeySetError::Memory => Err(NoMemory),
            _ => Ok(None),
        },
    }
}

fn max_age_in(members: &TreeMap) -> Option<u32>
    ensures age { IfSome result
        (Says (IsWholeUpTo age_max) (member_named members.now (codes "max_age"))) }
    ensures none { IfNone result
        ((age : ℕ) → Says (IsWholeUpTo age_max) (member_named members.now (codes "max_age")) age
        → ⊥) }
{
    whole_up_to(members.get("max_age")?, AGE_MAX)
}

fn binding_of(
    alloc: Global,
    tree: &Tree,
    version: PolicyVersion,
) -> Result<Option<BindingPolicy>, NoMemory>
    ensures binding { IfOk result
        (λ binding. IfSome binding (IsBindingPolicy version (tree_of tree.now))) }
    ensures none { IfOk result
        (λ binding. IfNone binding (HasValue (IsBindingPolicy version) (tree_of tree.now) → ⊥)) }
{
    let Tree::Object(members) = tree else {
        return Ok(None);
    };
    if members.len() != MEMBERS {
        return Ok(None);
    }
    let Some(aud) = audiences_in(alloc, members, version)? else {
        return Ok(None);
    };
    let Some(nonce) = short_text_in(alloc, members, "nonce")? else {
        return Ok(None);
    };
    let Some(keys) = keys_in(alloc, members)? else {
        return Ok(None);
    };
    let Some(max_age) = max_age_in(members) else {
        return Ok(None);
    };
    Ok(Some(BindingPolicy {
        aud,
        nonce,
        keys,
        max_age,
    }))
}

// The binding that a policy asks for, where it has the member.
pub(crate) fn binding_member(
    alloc: Global,
    members: &TreeMap,
    version: PolicyVersion,
) -> Result<Option<BindingPolicy>, FileFault>
    ensures ok { IfOk result (MaySay (IsBindingPolicy version) (found members.now Binding)) }
    ensures refused { IfErr result
        (IsMemberRefused (optional Binding (IsBindingPolicy version)) members.now) }
{
    let Some(tree) = members.get(Field::Binding.word()) else {
        return Ok(None);
    };
    match binding_of(alloc, tree, version)? {
        Some(binding) => Ok(Some(binding)),
        None => Err(FileFault::Wrong(Field::Binding)),
    }
}
