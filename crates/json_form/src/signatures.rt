// The entries of a JSON serialization: one in the flattened form, a list of
// them in the general one.
ghost use Rattle.std.specs.Prelude.{◌≡◌, IfOk, IfErr, IfSome, IfNone};
ghost use Rattle.claim_tree.specs.Tree.{Elements, Members, get as get_of};
ghost use Rattle.claim_tree.specs.View.{tree_of};
ghost use Rattle.claim_tree.specs.ListViews.{elements_of};
ghost use Rattle.refusals.specs.PartWords.{part_word};
ghost use Rattle.refusals.specs.declared.fault.JsonPlace.TheVariants.{Wrong};
ghost use Rattle.refusals.specs.declared.fault.Part.TheVariants.{Header, Signatures};
ghost use Rattle.json_form.specs.Json as spec;
ghost use Rattle.json_form.specs.Json.{AreEntries};
ghost use Rattle.json_form.specs.JsonPlaces.{AreNoEntries};
ghost use Rattle.json_form.specs.MembersRead.{IsFirstStray, ListHas, HasEntries};

use claim_tree::{Tree, TreeMap, get};
use refusals::{JsonPlace, Part};

// The entry that is read, and the place of the first later one with a member
// that only the first may have.
#[derive(Drop)]
pub(crate) struct Entries {
    pub(crate) first: TreeMap,
    pub(crate) stray: Option<usize>,
}

fn is_object(tree: &Tree) -> bool
    ensures { result ≡ spec.is_object (tree_of tree.now) }
{
    match tree {
        Tree::Object(_) => true,
        _ => false,
    }
}

fn are_objects(trees: &[Tree]) -> bool
    ensures { result ≡ spec.are_objects (elements_of trees.now) }
{
    trees.iter().all(|tree| is_object(tree))
}

fn has(members: &TreeMap, part: Part) -> bool
    ensures { result ≡ spec.has_part members.now part }
{
    members.get(part.word()).is_some()
}

// Whether a member that belongs into an entry stands beside the list of them.
fn has_beside(members: &TreeMap) -> bool
    ensures { result ≡ spec.has_beside members.now }
{
    has(members, Part::Protected) || has(members, Part::Signature) || has(members, Part::Header)
}

// Whether the header of an entry has a member that only that of the first entry may have.
fn is_odd(entry: &Tree) -> bool
    ensures { result ≡ spec.has_first_only (get_of (tree_of entry.now) (part_word Header)) }
{
    let Some(header) = get(entry, Part::Header.word()) else {
        return false;
    };
    get(header, Part::Disclosures.word()).is_some() || get(header, Part::KbJwt.word()).is_some()
}

fn first_stray(entries: &[Tree]) -> Option<usize>
    ensures { IsFirstStray (elements_of entries.now) result }
{
    for place in 1..entries.len() {
        if is_odd(&entries[place]) {
            return Some(place);
        }
    }
    None
}

// The entries of a list.
fn listed_in(tree: Tree) -> Option<Entries>
    ensures some { IfSome result (ListHas (tree_of tree)) }
    ensures none { IfNone result
        ((first : Members) (later : Elements) → AreEntries (tree_of tree) first later → ⊥) }
{
    let Tree::List(list) = tree else {
        return None;
    };
    if !are_objects(list.trees()) {
        return None;
    }
    let stray = first_stray(list.trees());
    let mut trees = list.into_trees().into_iter();
    match trees.next() {
        Some(Tree::Object(first)) => Some(Entries { first, stray }),
        _ => None,
    }
}

// The entries of an object: itself, or those of its list.
pub(crate) fn entries_of(members: TreeMap) -> Result<Entries, JsonPlace>
    ensures ok { IfOk result (HasEntries members) }
    ensures place { IfErr result (λ place. place ≡ Wrong Signatures) }
    ensures refused { IfErr result (λ _. AreNoEntries members) }
{
    let mut members = members;
    let Some(tree) = members.remove(Part::Signatures.word()) else {
        return Ok(Entries {
            first: members,
            stray: None,
        });
    };
    let Some(entries) = listed_in(tree) else {
        return Err(JsonPlace::Wrong(Part::Signatures));
    };
    if has_beside(&members) {
        return Err(JsonPlace::Wrong(Part::Signatures));
    }
    Ok(entries)
}
