// Whether each disclosure fits its place: its shape, its name, and the names beside it.
ghost use Rattle.std.specs.Prelude.{◌≡◌, ◌<◌, ◌&&◌, ℕ, true, not, eqb, if◌then◌else◌, ◌↔◌, map, length, IsTrue, IfOk, OnOk, MatchOption, MatchResult, bytes_eq, option_map};
ghost use Rattle.claim_tree.specs.Tree.{Text};
ghost use Rattle.sd_outside.specs.Lists.{StandsAt, In, AtNone, IsLeast};
ghost use Rattle.claim_tree.specs.View.{tree_of};
ghost use Rattle.digest_sites.specs.GivenView.{given_of};
ghost use Rattle.rebuild_core.specs.Payload.{alg_name, without_alg};
ghost use Rattle.rebuild_core.specs.Soundness.{IsReferencedOnce, IsWellNamed};
ghost use Rattle.rebuild_core.specs.Answer.{IsPayload, IsProcessRefused};
ghost use Rattle.rebuild_core.specs.Rows.{seen, beside_names, all_rows};
ghost use Rattle.rebuild_core.specs.DigestNumbers.{IsNumbered};
ghost use Rattle.rebuild_core.specs.RowNames.{IsWrongRow, IsReservedRow, IsMisfit, StandsAtRow, given_name, Clashes};
ghost use Rattle.rebuild_core.specs.Disclosed.{is_name_disclosed};

use crate::errors::ProcessError;
use crate::readable::is_readable;
use crate::rows::Row;
use claim_tree::{Tree, TreeMap};
use digest_index::Seeded;
use digest_sites::{Given, GivenList, SiteKind, is_dots, is_sd};
use sd_outside::{NoMemory, TextBox};
use std::alloc::Global;
use std::collections::HashSet;

// The disclosure with a number.
fn given_at(given: &GivenList, number: usize) -> &Given
    requires { number < length given.now }
    ensures { StandsAt given.now number (given_of result.now) }
{
    &given.items()[number]
}

// The name of the member of the payload that names the hash.
pub(crate) const ALG: &str = "_sd_alg";

#[tactic(auto, unfolding(crate::specs::Payload::alg_name))]
pub(crate) fn is_alg(name: &TextBox) -> bool
    ensures { result ≡ bytes_eq name.now alg_name }
{
    name.as_str() == ALG
}

// Whether a disclosure has no name and stands for a member, or has one and stands for an element.
fn is_wrong(row: &Row<'_>, item: &Given) -> bool
    ensures { IsTrue result ↔ IsWrongRow (seen row.now) (given_of item.now) }
{
    match row.kind {
        SiteKind::Member => item.name.is_none(),
        SiteKind::Element => item.name.is_some(),
    }
}

// Whether a disclosure gives a reserved name to a member.
fn is_reserved(row: &Row<'_>, item: &Given) -> bool
    ensures { IsTrue result ↔ IsReservedRow (seen row.now) (given_of item.now) }
{
    match (&row.kind, &item.name) {
        (SiteKind::Member, Some(name)) => is_sd(name) || is_dots(name) || is_alg(name) && row.top,
        _ => false,
    }
}

// What may be wrong with a disclosure alone where it stands.
#[derive(Clone, Copy, Debug)]
enum Misfit {
    Shape,
    Name,
}

// Whether this is wrong with a disclosure.
fn is_misfit(misfit: Misfit, row: &Row<'_>, item: &Given) -> bool
    ensures { IsTrue result ↔ IsMisfit misfit (seen row.now) (given_of item.now) }
{
    match misfit {
        Misfit::Shape => is_wrong(row, item),
        Misfit::Name => is_reserved(row, item),
    }
}

// The first disclosure with which this is wrong where it stands.
fn first_misfit(
    misfit: Misfit,
    rows: &[Row<'_>],
    numbers: &[usize],
    given: &GivenList,
) -> Option<usize>
    requires { length numbers.now ≡ length rows.now }
    ensures { MatchOption result
        (AtNone (StandsAtRow (IsMisfit misfit) (map seen rows.now) numbers.now given.now))
        (λ i. IsLeast (StandsAtRow (IsMisfit misfit) (map seen rows.now) numbers.now given.now) i) }
{
    let mut least = given.len();
    for (place, row) in rows.iter().enumerate() {
        let number = numbers[place];
        if number < least && is_misfit(misfit, row, given_at(given, number)) {
            least = number;
        }
    }
    if least < given.len() {
        Some(least)
    } else {
        None
    }
}

// A name that is disclosed, and the number of its object.
#[derive(Debug, PartialEq, Eq, Hash, Drop)]
struct Disclosed<'a> {
    object: usize,
    name: &'a str,
}

// Whether an object has the name, where the payload's own `_sd_alg` is passed over.
fn has_member(members: &TreeMap, top: bool, name: &TextBox) -> bool
    ensures { IsTrue result ↔ In name.now (beside_names top members.now) }
{
    members.get(name.as_str()).is_some() && !(top && is_alg(name))
}

// Whether the name is beside the digest.
fn is_beside(row: &Row<'_>, name: &TextBox) -> bool
    ensures { IsTrue result ↔ In name.now (seen row.now).beside }
{
    match row.beside {
        Some(members) => has_member(members, row.top, name),
        None => false,
    }
}

// The name that a disclosure gives to a member.
fn name_given<'a>(row: &Row<'_>, given: &'a GivenList, number: usize) -> Option<&'a TextBox>
    ensures { option_map (λ t. t.now) result ≡ given_name (seen row.now).kind given.now number }
{
    match row.kind {
        SiteKind::Member => given.at(number)?.name.as_ref(),
        SiteKind::Element => None,
    }
}

// Notes a name, and answers whether it is new in its object.
fn note<'a>(
    disclosed: &mut HashSet<Disclosed<'a>, Seeded>,
    object: usize,
    name: &'a TextBox,
) -> Result<bool, NoMemory>
    ensures new { IfOk result (λ new. new ≡ not (is_name_disclosed disclosed.old object name.now)) }
    ensures noted { OnOk result
        ((o : ℕ) (n : Text)
        → is_name_disclosed disclosed.new o n
        ≡ (if eqb object o && bytes_eq name.now n then true
        else is_name_disclosed disclosed.old o n)) }
{
    let name = name.as_str();
    Ok(disclosed.insert(Disclosed { object, name })?)
}

// The first place at which a name is disclosed that its object has already.
fn first_clash(
    alloc: Global,
    rows: &[Row<'_>],
    numbers: &[usize],
    given: &GivenList,
    seed: u64,
) -> Result<Option<usize>, NoMemory>
    requires { length numbers.now ≡ length rows.now }
    ensures { IfOk result
        (λ r. MatchOption r (AtNone (Clashes (map seen rows.now) numbers.now given.now))
        (λ place. IsLeast (Clashes (map seen rows.now) numbers.now given.now) place)) }
{
    let mut disclosed = HashSet::with_capacity_and_hasher(alloc, given.len(), Seeded::new(seed))?;
    for (place, row) in rows.iter().enumerate() {
        if let Some(name) = name_given(row, given, numbers[place]) {
            if is_beside(row, name) || !note(&mut disclosed, row.object, name)? {
                return Ok(Some(place));
            }
        }
    }
    Ok(None)
}

// Whether each disclosure fits its place in this payload or in a value, where
// each is referenced once.
pub(crate) fn check_names(
    alloc: Global,
    payload: &Tree,
    given: &GivenList,
    rows: &[Row<'_>],
    numbers: &[usize],
    seed: u64,
) -> Result<(), ProcessError>
    requires object { IsPayload (tree_of payload.now) }
    requires rows { map seen rows.now ≡ all_rows (tree_of payload.now) given.now }
    requires referenced { IsReferencedOnce (without_alg (tree_of payload.now)) given.now }
    requires numbered { IsNumbered (without_alg (tree_of payload.now)) given.now numbers.now }
    ensures { MatchResult result (λ _. IsWellNamed (without_alg (tree_of payload.now)) given.now)
        (λ e. IsProcessRefused (without_alg (tree_of payload.now)) given.now e) }
{
    is_readable(payload, given);
    if let Some(i) = first_misfit(Misfit::Shape, rows, numbers, given) {
        return Err(ProcessError::WrongShape(i));
    }
    if let Some(i) = first_misfit(Misfit::Name, rows, numbers, given) {
        return Err(ProcessError::ReservedName(i));
    }
    if let Some(place) = first_clash(alloc, rows, numbers, given, seed)? {
        return Err(ProcessError::NameClash(place));
    }
    Ok(())
}
