// The tokens of a tree, for the writer of JSON.
ghost use Rattle.std.specs.Prelude.{◌≡◌, [], ◌∷◌, ◌++◌, option_map, OnOk};
ghost use Rattle.json.specs.Token.{number};
ghost use Rattle.json.specs.Tree.{json_tokens, items_tokens, members_tokens};
ghost use Rattle.serde_json.specs.Find.{of_integer};
ghost use Rattle.serde_json.specs.Written.{number_text, outline, items_outline, members_outline};
ghost use Rattle.claim_tree.specs.View.{tree_of};
ghost use Rattle.claim_tree.specs.JsonText.{data_of, elements_data, members_data};
ghost use Rattle.claim_tree.specs.Begun.{begun};

use crate::{Tree, TreeList, TreeMap, Whole};
use json::Writer;
use std::alloc::AllocError;

// Puts the tokens of a tree behind those that are written.
#[cycle(put)]
pub(crate) fn put_tree(out: &mut Writer, tree: &Tree) -> Result<(), AllocError>
    ensures ok { OnOk result
        (out.new.tokens ≡ out.old.tokens ++ json_tokens (outline (data_of (tree_of tree.now)))) }
    ensures before { out.new.before ≡ out.old.before }
{
    match tree {
        Tree::Null => out.null(),
        Tree::Flag(flag) => out.boolean(*flag),
        Tree::Whole(n) => put_whole(out, *n),
        Tree::Text(text) => out.string(text.as_str()),
        Tree::List(trees) => {
            out.begin_array()?;
            put_elements(out, trees)
        }
        Tree::Object(trees) => {
            out.begin_object()?;
            put_members(out, trees)
        }
    }
}

// Puts the beginning of a list: a text, and another where there is one.
pub(crate) fn put_texts(
    out: &mut Writer,
    first: &str,
    second: Option<&str>,
) -> Result<(), AllocError>
    ensures ok { OnOk result
        (out.new.tokens
        ≡ out.old.tokens ++ begun first.now (option_map (λ s. s.now) second.entry)) }
    ensures before { out.new.before ≡ out.old.before }
{
    out.begin_array()?;
    out.string(first)?;
    match second {
        Some(text) => out.string(text),
        None => Ok(()),
    }
}

fn put_whole(out: &mut Writer, whole: Whole) -> Result<(), AllocError>
    ensures ok { OnOk result
        (out.new.tokens ≡ out.old.tokens ++ number (number_text (of_integer whole)) ∷ []) }
    ensures before { out.new.before ≡ out.old.before }
{
    let n = whole.get();
    if n >= 0 {
        out.u64(n as u64)
    } else {
        out.i64(n as i64)
    }
}

#[cycle(put)]
#[tactic(auto, using(crate::proofs::Walks::into_element))]
fn put_elements(out: &mut Writer, trees: &TreeList) -> Result<(), AllocError>
    ensures ok { OnOk result
        (out.new.tokens
        ≡ out.old.tokens ++ items_tokens (items_outline (elements_data trees.now))) }
    ensures before { out.new.before ≡ out.old.before }
{
    for tree in trees.trees() {
        put_tree(out, tree)?;
    }
    out.end_array()
}

#[cycle(put)]
#[tactic(auto, using(crate::proofs::Walks::into_member))]
fn put_members(out: &mut Writer, trees: &TreeMap) -> Result<(), AllocError>
    ensures ok { OnOk result
        (out.new.tokens
        ≡ out.old.tokens ++ members_tokens (members_outline (members_data trees.now))) }
    ensures before { out.new.before ≡ out.old.before }
{
    for (name, tree) in trees.members() {
        out.key(name.as_str())?;
        put_tree(out, tree)?;
    }
    out.end_object()
}
