// What the version of a policy file decides: in which form it names issuers and audiences.
ghost use Rattle.std.specs.Prelude.{◌≡◌, ◌↔◌, [], ◌∷◌, List, codes, IfOk, IfErr, IfSome, IfNone, IsTrue};
ghost use Rattle.claim_tree.specs.Tree.{Text, member_named};
ghost use Rattle.claim_tree.specs.TreeValues.{HasValue, Says, MaySay, SaysOr};
ghost use Rattle.file_members.specs.FileForms.{optional, found};
ghost use Rattle.file_members.specs.FileRefusals.{IsMemberRefused};
ghost use Rattle.claim_tree.specs.View.{tree_of};
ghost use Rattle.file_members.specs.declared.field.Field.TheVariants.{Iss, Version};
ghost use Rattle.verifier_core.specs.PolicyVersion.{IsVersion, IsIssuers, IsAudiences, AreAudiences, AreShortTexts};
ghost use Rattle.verifier_core.specs.declared.policy_version.PolicyVersion as seen;

use claim_tree::{Tree, TreeMap, texts_of, whole_up_to};
use file_members::{Field, FileFault};
use key_binding::{BINDING_TEXT_MAX, short_text_in};
use sd_outside::{NoMemory, TextBox, TextList};
use std::alloc::Global;

/// The most audiences of a policy.
pub const AUDIENCES_MAX: usize = 16;

/// The version of a policy file.
#[derive(Clone, Copy, Debug, PartialEq, Eq)]
pub enum PolicyVersion {
    /// It names one issuer and one audience.
    One,
    /// It lists them.
    Two,
}

fn version_of(tree: &Tree) -> Option<PolicyVersion>
    ensures version { IfSome result (IsVersion (tree_of tree.now)) }
    ensures none { IfNone result (HasValue IsVersion (tree_of tree.now) → ⊥) }
{
    match whole_up_to(tree, 2)? {
        1 => Some(PolicyVersion::One),
        2 => Some(PolicyVersion::Two),
        _ => None,
    }
}

/// The version that a policy file says, and the first where it says none.
pub(crate) fn version_member(members: &TreeMap) -> Result<PolicyVersion, FileFault>
    ensures ok { IfOk result (SaysOr IsVersion seen.PolicyVersion.One (found members.now Version)) }
    ensures refused { IfErr result (IsMemberRefused (optional Version IsVersion) members.now) }
{
    let Some(tree) = members.get(Field::Version.word()) else {
        return Ok(PolicyVersion::One);
    };
    match version_of(tree) {
        Some(version) => Ok(version),
        None => Err(FileFault::Wrong(Field::Version)),
    }
}

// The list of one text.
fn list_of(alloc: Global, text: TextBox) -> Result<TextList, NoMemory>
    ensures { IfOk result (λ texts. texts ≡ text ∷ []) }
{
    let mut texts = TextList::new(alloc);
    texts.push(text)?;
    Ok(texts)
}

fn one_issuer(alloc: Global, tree: &Tree) -> Result<Option<TextList>, NoMemory>
    ensures issuers { IfOk result
        (λ issuers. IfSome issuers (IsIssuers seen.PolicyVersion.One (tree_of tree.now))) }
    ensures none { IfOk result
        (λ issuers.
        IfNone issuers (HasValue (IsIssuers seen.PolicyVersion.One) (tree_of tree.now) → ⊥)) }
{
    let Tree::Text(text) = tree else {
        return Ok(None);
    };
    let text = TextBox::make(alloc, text.as_str())?;
    Ok(Some(list_of(alloc, text)?))
}

fn listed_issuers(alloc: Global, tree: &Tree) -> Result<Option<TextList>, NoMemory>
    ensures issuers { IfOk result
        (λ issuers. IfSome issuers (IsIssuers seen.PolicyVersion.Two (tree_of tree.now))) }
    ensures none { IfOk result
        (λ issuers.
        IfNone issuers (HasValue (IsIssuers seen.PolicyVersion.Two) (tree_of tree.now) → ⊥)) }
{
    let Tree::List(list) = tree else {
        return Ok(None);
    };
    let Some(texts) = texts_of(alloc, list.trees())? else {
        return Ok(None);
    };
    if texts.len() == 0 {
        return Ok(None);
    }
    Ok(Some(texts))
}

fn issuers_of(
    alloc: Global,
    tree: &Tree,
    version: PolicyVersion,
) -> Result<Option<TextList>, NoMemory>
    ensures issuers { IfOk result
        (λ issuers. IfSome issuers (IsIssuers version (tree_of tree.now))) }
    ensures none { IfOk result
        (λ issuers. IfNone issuers (HasValue (IsIssuers version) (tree_of tree.now) → ⊥)) }
{
    match version {
        PolicyVersion::One => one_issuer(alloc, tree),
        PolicyVersion::Two => listed_issuers(alloc, tree),
    }
}

/// The issuers that a policy file names, where it names some.
pub(crate) fn issuers_member(
    alloc: Global,
    members: &TreeMap,
    version: PolicyVersion,
) -> Result<Option<TextList>, FileFault>
    ensures ok { IfOk result (MaySay (IsIssuers version) (found members.now Iss)) }
    ensures refused { IfErr result
        (IsMemberRefused (optional Iss (IsIssuers version)) members.now) }
{
    let Some(tree) = members.get(Field::Iss.word()) else {
        return Ok(None);
    };
    match issuers_of(alloc, tree, version)? {
        Some(issuers) => Ok(Some(issuers)),
        None => Err(FileFault::Wrong(Field::Iss)),
    }
}

fn one_audience(alloc: Global, members: &TreeMap) -> Result<Option<TextList>, NoMemory>
    ensures audiences { IfOk result
        (λ texts. IfSome texts
        (Says (IsAudiences seen.PolicyVersion.One) (member_named members.now (codes "aud")))) }
    ensures none { IfOk result
        (λ texts. IfNone texts
        ((list : List Text)
        → Says (IsAudiences seen.PolicyVersion.One) (member_named members.now (codes "aud"))
        list → ⊥)) }
{
    match short_text_in(alloc, members, "aud")? {
        Some(text) => Ok(Some(list_of(alloc, text)?)),
        None => Ok(None),
    }
}

// Whether no text of the list is too long.
fn are_short(texts: &TextList) -> bool
    ensures { IsTrue result ↔ AreShortTexts texts.now }
{
    for i in 0..texts.len() {
        let text = texts.at(i).unwrap();
        if text.as_str().len() > BINDING_TEXT_MAX {
            return false;
        }
    }
    true
}

fn are_audiences(texts: &TextList) -> bool
    ensures { IsTrue result ↔ AreAudiences texts.now }
{
    texts.len() > 0 && texts.len() <= AUDIENCES_MAX && are_short(texts)
}

fn listed_audiences(alloc: Global, members: &TreeMap) -> Result<Option<TextList>, NoMemory>
    ensures audiences { IfOk result
        (λ texts. IfSome texts
        (Says (IsAudiences seen.PolicyVersion.Two) (member_named members.now (codes "aud")))) }
    ensures none { IfOk result
        (λ texts. IfNone texts
        ((list : List Text)
        → Says (IsAudiences seen.PolicyVersion.Two) (member_named members.now (codes "aud"))
        list → ⊥)) }
{
    let Some(Tree::List(list)) = members.get("aud") else {
        return Ok(None);
    };
    let Some(texts) = texts_of(alloc, list.trees())? else {
        return Ok(None);
    };
    if !are_audiences(&texts) {
        return Ok(None);
    }
    Ok(Some(texts))
}

/// The audiences of the member `aud` of a policy's binding.
pub(crate) fn audiences_in(
    alloc: Global,
    members: &TreeMap,
    version: PolicyVersion,
) -> Result<Option<TextList>, NoMemory>
    ensures audiences { IfOk result
        (λ texts.
        IfSome texts (Says (IsAudiences version) (member_named members.now (codes "aud")))) }
    ensures none { IfOk result
        (λ texts. IfNone texts
        ((list : List Text)
        → Says (IsAudiences version) (member_named members.now (codes "aud")) list → ⊥)) }
{
    match version {
        PolicyVersion::One => one_audience(alloc, members),
        PolicyVersion::Two => listed_audiences(alloc, members),
    }
}
