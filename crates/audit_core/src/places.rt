// The sites of a token whose digests are of no disclosure, each at its place in the claims.
ghost use Rattle.std.specs.Prelude.{◌≡◌, [], ◌∷◌, ◌++◌, None, IfOk, OnOk, IsTrue};
ghost use Rattle.claim_tree.specs.View.{tree_of};
ghost use Rattle.marked_tree.specs.View.{marked_of};
ghost use Rattle.audit_core.specs.Found.{AreOthers};
ghost use Rattle.audit_core.specs.Strange.{Adds};
ghost use Rattle.audit_core.specs.Places.{IsBare, value_at, values_at};

use crate::known::digests_of;
use crate::strange::{self, Search};
use claim_tree::{Path, Tree};
use digest_sites::{GivenList, SiteList};
use itoa::Buffer;
use marked_tree::Marked;
use sd_outside::NoMemory;
use std::alloc::Global;

// The strange sites of the payload, and then those of each value. A value stands at the node of the
// claims whose mark is its number. Digests are looked up by their hashes with the seed. A site
// whose path is longer than `longest` ends the search as want of memory does.
pub(crate) fn others_of(
    alloc: Global,
    claims: &Marked,
    payload: &Tree,
    given: &GivenList,
    seed: u64,
    longest: usize,
) -> Result<SiteList, NoMemory>
    ensures { IfOk result (AreOthers (marked_of claims.now) (tree_of payload.now) given.now) }
{
    let mut search = Search {
        alloc,
        known: digests_of(alloc, given, seed)?,
        longest,
        at: Path::new(alloc),
        found: SiteList::new(alloc),
    };
    strange::walk(&mut search, payload)?;
    walk(&mut search, given, claims)?;
    let Search { found, .. } = search;
    Ok(found)
}

#[cycle(values)]
fn walk(search: &mut Search<'_>, given: &GivenList, claims: &Marked) -> Result<(), NoMemory>
    ensures { OnOk result
        (Adds search.old search.new
        (λ known at. values_at known given.now at (marked_of claims.now))) }
{
    match claims {
        Marked::List(list) => {
            #[tactic(auto, using(marked_tree::proofs::MarkedWalks::into_element))]
            for (i, element) in list.elements().iter().enumerate() {
                let (mark, tree) = element;
                if !is_bare(*mark, tree) {
                    let mut digits = Buffer::new();
                    walk_node(search, given, digits.format(i), *mark, tree)?;
                }
            }
        }
        Marked::Object(map) => {
            #[tactic(auto, using(marked_tree::proofs::MarkedWalks::into_member))]
            for (name, mark, tree) in map.members() {
                if !is_bare(*mark, tree) {
                    walk_node(search, given, name.as_str(), *mark, tree)?;
                }
            }
        }
        _ => {}
    }
    Ok(())
}

// Whether nothing is to be searched at a node, so that no step is made to it.
fn is_bare(mark: Option<u32>, tree: &Marked) -> bool
    ensures { IsTrue result → (mark ≡ None) × IsBare (marked_of tree.now) }
{
    match tree {
        Marked::List(_) | Marked::Object(_) => false,
        _ => mark.is_none(),
    }
}

// The node on a step: what is inside it, and then the value with the number of its mark.
#[cycle(values)]
fn walk_node(
    search: &mut Search<'_>,
    given: &GivenList,
    step: &str,
    mark: Option<u32>,
    tree: &Marked,
) -> Result<(), NoMemory>
    ensures { OnOk result
        (Adds search.old search.new
        (λ known at. values_at known given.now (at ++ step.now ∷ []) (marked_of tree.now)
        ++ value_at known given.now (at ++ step.now ∷ []) mark)) }
{
    search.at.push(step)?;
    walk(search, given, tree)?;
    walk_value(search, given, mark)?;
    search.at.pop();
    Ok(())
}

// The value with this number.
fn walk_value(search: &mut Search<'_>, given: &GivenList, mark: Option<u32>) -> Result<(), NoMemory>
    ensures { OnOk result
        (Adds search.old search.new
        (λ known at. value_at known given.now at mark)) }
{
    let Some(number) = mark else {
        return Ok(());
    };
    match given.at(number as usize) {
        Some(one) => strange::walk(search, &one.value),
        None => Ok(()),
    }
}
