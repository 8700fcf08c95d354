// The members that a header uses.
ghost use Rattle.std.specs.Prelude.{◌≡◌, IfOk, IfErr, OnOk, option_map};
ghost use Rattle.std.specs.Option.{option_copied};
ghost use Rattle.claim_tree.specs.Tree.{member_named};
ghost use Rattle.jws_part.specs.Header.{text_tree, has_name as name_test, has_crit as crit_test, shares_name as sharing, IsNoText};
ghost use Rattle.jws_part.specs.HeaderSteps.{with_text};

use crate::BodyError;
use claim_tree::{Tree, TreeMap};
use sd_outside::{NoMemory, TextBox};
use std::alloc::Global;

// What stands under the name is no text.
#[derive(Drop)]
pub(crate) struct NotText;

impl From<NotText> for BodyError {
    ghost use Rattle.jws_part.specs.declared.body.BodyError.TheVariants.{Unreadable};

    ghost from_gives = { λ _ e. e ≡ Unreadable };

    fn from(_: NotText) -> Self {
        BodyError::Unreadable
    }
}

fn has_name(members: &TreeMap, name: &str) -> bool
    ensures { result ≡ name_test members.now name.now }
{
    members.get(name).is_some()
}

pub(crate) fn shares_name(members: &TreeMap, outer: &TreeMap) -> bool
    ensures { result ≡ sharing members.now outer.now }
{
    outer
        .members()
        .iter()
        .any(|member| has_name(members, member.0.as_str()))
}

pub(crate) fn has_crit(members: &TreeMap, outer: &TreeMap) -> bool
    ensures { result ≡ crit_test members.now outer.now }
{
    has_name(members, "crit") || has_name(outer, "crit")
}

// The text under the name, where the name is there.
pub(crate) fn text_named<'a>(
    members: &'a TreeMap,
    name: &str,
) -> Result<Option<&'a TextBox>, NotText>
    ensures ok { IfOk result
        (λ text. member_named members.now name.now ≡ option_map text_tree (option_copied text)) }
    ensures odd { IfErr result (λ _. IsNoText members.now name.now) }
{
    match members.get(name) {
        None => Ok(None),
        Some(Tree::Text(text)) => Ok(Some(text)),
        Some(_) => Err(NotText),
    }
}

pub(crate) fn copied(alloc: Global, text: Option<&TextBox>) -> Result<Option<TextBox>, NoMemory>
    ensures { IfOk result (λ copy. copy ≡ option_copied text.entry) }
{
    match text {
        None => Ok(None),
        Some(text) => Ok(Some(TextBox::make(alloc, text.as_str())?)),
    }
}

// Puts the text under the name, where it is some.
pub(crate) fn put_text(
    alloc: Global,
    members: &mut TreeMap,
    name: &str,
    text: Option<&TextBox>,
) -> Result<(), NoMemory>
    ensures ok { OnOk result
        (members.new ≡ with_text members.old name.now (option_copied text.entry)) }
{
    if let Some(text) = text {
        let name = TextBox::make(alloc, name)?;
        let text = TextBox::make(alloc, text.as_str())?;
        members.insert(name, Tree::Text(text))?;
    }
    Ok(())
}
