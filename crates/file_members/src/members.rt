// The members of the files that a command reads, one function for each form.
ghost use Rattle.std.specs.Prelude.{◌≡◌, ◌≢◌, ◌≤◌, [], IfOk, IfErr};
ghost use Rattle.sd_outside.specs.Limits.{json_depth_max};
ghost use Rattle.claim_tree.specs.Tree.{object, IsOrdered, depth as depth_of};
ghost use Rattle.claim_tree.specs.TreeValues.{IsText, IsTexts, IsWholeUpTo, IsListOf, IsPointer, MaySay, SaysOr};
ghost use Rattle.file_members.specs.FileForms as spec;
ghost use Rattle.file_members.specs.FileForms.{HasMembers, HasNoMembers, optional, found};
ghost use Rattle.file_members.specs.FileRefusals.{IsMemberRefused};
ghost use Rattle.file_members.specs.declared.file_fault.FileFault.TheVariants.{Memory};

use crate::{Field, FileFault};
use claim_tree::{PathList, Tree, TreeMap, pointers_of, read, texts_of, whole_up_to};
use sd_outside::{TextBox, TextList};
use std::alloc::Global;

// Whether a name is that of one of the fields.
fn is_known(name: &str, fields: &[Field]) -> bool
    ensures { result ≡ spec.is_known fields.now name.now }
{
    fields.iter().any(|field| field.word() == name)
}

fn has_unknown(members: &TreeMap, fields: &[Field]) -> bool
    ensures { result ≡ spec.has_unknown fields.now members.now }
{
    members
        .members()
        .iter()
        .any(|member| !is_known(member.0.as_str(), fields))
}

/// The members of the JSON object that a file is. It has no more bytes than
/// `most`, and each member is one of `fields`.
///
/// The faults are those of a file as a whole, in the order of [`FileFault`];
/// none of them is `Missing` or `Wrong`.
pub fn read_members(
    alloc: Global,
    bytes: &[u8],
    most: usize,
    fields: &[Field],
) -> Result<TreeMap, FileFault>
    ensures ok { IfOk result (HasMembers most fields.now bytes.now) }
    ensures ordered { IfOk result (λ ms. IsOrdered (object ms)) }
    ensures depth { IfOk result (λ ms. depth_of (object ms) ≤ json_depth_max) }
    ensures refused { IfErr result (HasNoMembers most fields.now bytes.now) }
{
    if bytes.len() > most {
        return Err(FileFault::TooLong);
    }
    let members = match read(alloc, bytes)? {
        Tree::Object(members) => members,
        _ => return Err(FileFault::NotObject),
    };
    if has_unknown(&members, fields) {
        return Err(FileFault::Unknown);
    }
    Ok(members)
}

/// The text of a member that a file need not have.
pub fn text_member(
    alloc: Global,
    members: &TreeMap,
    field: Field,
) -> Result<Option<TextBox>, FileFault>
    ensures ok { IfOk result (MaySay IsText (found members.now field)) }
    ensures refused { IfErr result (IsMemberRefused (optional field IsText) members.now) }
{
    let Some(tree) = members.get(field.word()) else {
        return Ok(None);
    };
    let Tree::Text(text) = tree else {
        return Err(FileFault::Wrong(field));
    };
    Ok(Some(TextBox::make(alloc, text.as_str())?))
}

/// The list of texts of a member that a file need not have.
pub fn text_list_member(
    alloc: Global,
    members: &TreeMap,
    field: Field,
) -> Result<Option<TextList>, FileFault>
    ensures ok { IfOk result (MaySay IsTexts (found members.now field)) }
    ensures refused { IfErr result (IsMemberRefused (optional field IsTexts) members.now) }
{
    let Some(tree) = members.get(field.word()) else {
        return Ok(None);
    };
    let Tree::List(list) = tree else {
        return Err(FileFault::Wrong(field));
    };
    match texts_of(alloc, list.trees())? {
        Some(texts) => Ok(Some(texts)),
        None => Err(FileFault::Wrong(field)),
    }
}

/// The whole number from 0 to `most` of a member that a file need not have. It takes no memory.
pub fn whole_member(members: &TreeMap, field: Field, most: u32) -> Result<Option<u32>, FileFault>
    ensures ok { IfOk result (MaySay (IsWholeUpTo most) (found members.now field)) }
    ensures refused { IfErr result
        (IsMemberRefused (optional field (IsWholeUpTo most)) members.now) }
    ensures no_memory { IfErr result (λ fault. fault ≢ Memory) }
{
    let Some(tree) = members.get(field.word()) else {
        return Ok(None);
    };
    match whole_up_to(tree, most) {
        Some(n) => Ok(Some(n)),
        None => Err(FileFault::Wrong(field)),
    }
}

/// The paths of a list of pointers that a file need not have; where it is missing there are none.
pub fn pointer_list_member(
    alloc: Global,
    members: &TreeMap,
    field: Field,
) -> Result<PathList, FileFault>
    ensures ok { IfOk result (SaysOr (IsListOf IsPointer) [] (found members.now field)) }
    ensures refused { IfErr result
        (IsMemberRefused (optional field (IsListOf IsPointer)) members.now) }
{
    let Some(tree) = members.get(field.word()) else {
        return Ok(PathList::new(alloc));
    };
    let Tree::List(list) = tree else {
        return Err(FileFault::Wrong(field));
    };
    match pointers_of(alloc, list.trees())? {
        Some(paths) => Ok(paths),
        None => Err(FileFault::Wrong(field)),
    }
}
