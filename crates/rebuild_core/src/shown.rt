// What a digest shows, and where it is put.
ghost use Rattle.std.specs.Prelude.{◌≡◌, OnOk, IfOk};
ghost use Rattle.marked_tree.specs.Marked.{MarkedElements, MarkedMembers};
ghost use Rattle.marked_tree.specs.MarkedCalls.{joined, members_joined};
ghost use Rattle.marked_tree.specs.View.{marked_of, marked_members_of};
ghost use Rattle.rebuild_core.specs.Opening.{show_element};
ghost use Rattle.rebuild_core.specs.Whole.{shown_of, shown_member, whole_object};

use marked_tree::{Marked, MarkedList, MarkedMap};
use sd_outside::{NoMemory, TextBox};
use std::alloc::Global;

// A disclosure with its value opened.
#[derive(Debug, Drop)]
pub(crate) struct Revealed {
    // The number of the disclosure.
    pub mark: u32,
    pub name: Option<TextBox>,
    pub tree: Marked,
}

// The hidden members of an object, opened, in the order of their digests: each
// with its name and its mark.
pub(crate) type HiddenMembers = Vec<(TextBox, Option<u32>, Marked)>;

// The members of an object, opened and not yet in one map.
#[derive(Debug, Drop)]
pub(crate) struct OpenedMembers {
    pub hidden: HiddenMembers,
    pub plain: MarkedMap,
}

impl OpenedMembers {
    pub(crate) fn into_object(self, alloc: Global) -> Result<Marked, NoMemory>
        ensures { IfOk result (λ m. marked_of m ≡ whole_object self) }
    {
        let OpenedMembers { hidden, plain } = self;
        Ok(Marked::Object(plain.with_all(alloc, hidden)?))
    }
}

// At the end of an array.
#[tactic(auto, using(crate::proofs::ShownDepths::joined_push))]
pub(crate) fn push_element(out: &mut MarkedList, shown: Option<Revealed>) -> Result<(), NoMemory>
    ensures { OnOk result
        ((es : MarkedElements)
        → joined out.new es ≡ joined out.old (show_element (shown_of shown) es)) }
{
    let Some(Revealed { mark, name, tree }) = shown else {
        return Ok(());
    };
    if name.is_some() {
        return Ok(());
    }
    out.push(Some(mark), tree)
}

// Behind other hidden members.
#[tactic(auto, using(crate::proofs::ShownDepths::members_joined_push))]
pub(crate) fn push_member(out: &mut HiddenMembers, shown: Option<Revealed>) -> Result<(), NoMemory>
    ensures { OnOk result
        ((ms : MarkedMembers)
        → members_joined (marked_members_of out.new.items) ms
        ≡ members_joined (marked_members_of out.old.items)
        (shown_member (shown_of shown) ms)) }
{
    let Some(Revealed { mark, name, tree }) = shown else {
        return Ok(());
    };
    let Some(name) = name else {
        return Ok(());
    };
    out.push((name, Some(mark), tree))?;
    Ok(())
}
