// Whether a rule consents to all that is chosen.
ghost use Rattle.std.specs.Prelude.{◌≡◌, ◌≤◌, ◌++◌, ◌∷◌, ℕ, false, [], None, Some, IfOk, IfErr, OnOk};
ghost use Rattle.sd_outside.specs.Limits.{json_depth_max};
ghost use Rattle.claim_tree.specs.Tree.{depth, elements_depth, members_depth};
ghost use Rattle.marked_tree.specs.Choice.{StandOnce};
ghost use Rattle.marked_tree.specs.Marked.{strip, strip_elements, strip_members};
ghost use Rattle.marked_tree.specs.Numbers.{has};
ghost use Rattle.marked_tree.specs.Paths.{spots, elements_spots, members_spots};
ghost use Rattle.marked_tree.specs.View.{marked_of};
ghost use Rattle.selection_core.specs.Asked.{own_seen, seen_from, is_below as is_below_of, AsksOnWalk};
ghost use Rattle.selection_core.specs.Consent.{AllAllowed};
ghost use Rattle.selection_core.specs.AllowCalls.{IsAllowRefused};

use crate::{AllowError, Consent};
use claim_tree::Path;
use itoa::Buffer;
use marked_tree::{ChosenSet, Marked, MarkedList, MarkedMap};
use sd_outside::NoMemory;
use std::alloc::Global;

/// Asks the rule for the place of each chosen mark, and refuses where it
/// refuses one, with the least such mark. What has no mark, or stands inside a
/// chosen place without one, is not asked for.
///
/// The tree is walked once, and the rule is asked on the way; a mark above one
/// that is already refused is not asked for.
pub fn allow<F: Fn(&Path) -> bool>(
    alloc: Global,
    consent: &Consent<F>,
    tree: &Marked,
    chosen: &ChosenSet,
) -> Result<(), AllowError>
    requires callable { F.IsAlwaysCallable consent.now }
    requires depth { depth (strip (marked_of tree.now)) ≤ json_depth_max }
    requires once { StandOnce (marked_of tree.now) (has chosen.now) }
    ensures allowed { IfOk result
        (λ _. AllAllowed F.Fn consent.now (marked_of tree.now) (has chosen.now)) }
    ensures refused { IfErr result
        (IsAllowRefused F.Fn consent.now (marked_of tree.now) (has chosen.now)) }
{
    let asking = Asking { consent, chosen };
    let mut walk = Walk {
        at: Path::new(alloc),
        refused: None,
    };
    asking.ask_inside(tree, &mut walk)?;
    match walk.refused {
        Some(mark) => Err(AllowError::Refused(mark)),
        None => Ok(()),
    }
}

// The rule, and the marks for whose places it is asked.
#[derive(Drop)]
struct Asking<'a, F: Fn(&Path) -> bool> {
    consent: &'a Consent<F>,
    chosen: &'a ChosenSet,
}

// How far a walk over a tree has come: to which place, and the least mark that is refused so far.
#[derive(Drop)]
struct Walk {
    at: Path,
    refused: Option<u32>,
}

impl<'a, F: Fn(&Path) -> bool> Asking<'a, F> {
    // Asks for the places inside the tree to which the walk has come.
    #[cycle(ask)]
    fn ask_inside(&self, tree: &Marked, walk: &mut Walk) -> Result<(), NoMemory>
        requires callable { F.IsAlwaysCallable self.now.consent.now }
        requires depth { depth (strip (marked_of tree.now)) ≤ json_depth_max }
        ensures asked { OnOk result
            (AsksOnWalk F.Fn self.now (seen_from walk.old.at (spots (marked_of tree.now))) walk.old
            walk.new) }
        ensures at { OnOk result (walk.new.at ≡ walk.old.at) }
    {
        match tree {
            Marked::List(list) => self.ask_elements(list, walk),
            Marked::Object(map) => self.ask_members(map, walk),
            _ => Ok(()),
        }
    }

    #[cycle(ask)]
    #[tactic(auto, using(marked_tree::proofs::MarkedWalks::into_element))]
    fn ask_elements(&self, list: &MarkedList, walk: &mut Walk) -> Result<(), NoMemory>
        requires callable { F.IsAlwaysCallable self.now.consent.now }
        requires depth { elements_depth (strip_elements list.now) ≤ 126 }
        ensures asked { OnOk result
            (AsksOnWalk F.Fn self.now (seen_from walk.old.at (elements_spots 0 list.now)) walk.old
            walk.new) }
        ensures at { OnOk result (walk.new.at ≡ walk.old.at) }
    {
        for (i, element) in list.elements().iter().enumerate() {
            let (mark, tree) = element;
            let mut digits = Buffer::new();
            self.ask_node(digits.format(i), *mark, tree, walk)?;
        }
        Ok(())
    }

    #[cycle(ask)]
    #[tactic(auto, using(marked_tree::proofs::MarkedWalks::into_member))]
    fn ask_members(&self, map: &MarkedMap, walk: &mut Walk) -> Result<(), NoMemory>
        requires callable { F.IsAlwaysCallable self.now.consent.now }
        requires depth { members_depth (strip_members map.now) ≤ 126 }
        ensures asked { OnOk result
            (AsksOnWalk F.Fn self.now (seen_from walk.old.at (members_spots map.now)) walk.old
            walk.new) }
        ensures at { OnOk result (walk.new.at ≡ walk.old.at) }
    {
        for (name, mark, tree) in map.members() {
            self.ask_node(name.as_str(), *mark, tree, walk)?;
        }
        Ok(())
    }

    // Asks for a node that stands one step further, and for the places inside
    // it, where one of them may be chosen.
    #[cycle(ask)]
    fn ask_node(
        &self,
        step: &str,
        mark: Option<u32>,
        tree: &Marked,
        walk: &mut Walk,
    ) -> Result<(), NoMemory>
        requires callable { F.IsAlwaysCallable self.now.consent.now }
        requires depth { depth (strip (marked_of tree.now)) ≤ json_depth_max }
        ensures asked { OnOk result
            (AsksOnWalk F.Fn self.now
            (own_seen mark (walk.old.at ++ step.now ∷ [])
            ++ seen_from (walk.old.at ++ step.now ∷ []) (spots (marked_of tree.now)))
            walk.old walk.new) }
        ensures at { OnOk result (walk.new.at ≡ walk.old.at) }
    {
        if !may_hold(mark, tree, self.chosen) {
            return Ok(());
        }
        walk.at.push(step)?;
        self.ask(mark, walk);
        self.ask_inside(tree, walk)?;
        walk.at.pop();
        Ok(())
    }

    // Asks for the place of a mark, where it is chosen and smaller than the one that is refused.
    fn ask(&self, mark: Option<u32>, walk: &mut Walk)
        requires callable { F.IsAlwaysCallable self.now.consent.now }
        ensures asked { AsksOnWalk F.Fn self.now (own_seen mark walk.old.at) walk.old walk.new }
        ensures at { walk.new.at ≡ walk.old.at }
    {
        let Some(mark) = mark else {
            return;
        };
        if self.chosen.has(mark) && is_below(mark, walk.refused) && !self.consent.test(&walk.at) {
            walk.refused = Some(mark);
        }
    }
}

// Whether the mark is smaller than the one that is refused, if any.
fn is_below(mark: u32, refused: Option<u32>) -> bool
    ensures { result ≡ is_below_of mark refused }
{
    match refused {
        Some(other) => mark < other,
        None => true,
    }
}

// Whether the node is chosen, or has others inside it.
fn may_hold(mark: Option<u32>, tree: &Marked, chosen: &ChosenSet) -> bool
    ensures own { result ≡ false → (i : ℕ) → mark ≡ Some i → has chosen.now i ≡ false }
    ensures inside { result ≡ false → spots (marked_of tree.now) ≡ [] }
{
    match tree {
        Marked::List(_) | Marked::Object(_) => true,
        _ => match mark {
            Some(mark) => chosen.has(mark),
            None => false,
        },
    }
}
