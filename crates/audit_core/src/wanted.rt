// Where an order wants its decoys.
ghost use Rattle.std.specs.Prelude.{◌≡◌, ◌+◌, ◌<◌, ◌≤◌, ◌^◌, [], ◌∷◌, ◌++◌, map, length, replicate, decimal, IfOk, OnOk, bytes_eq, if◌then◌else◌};
ghost use Rattle.sd_outside.specs.Limits.{count_max};
ghost use Rattle.claim_tree.specs.Tree.{Text};
ghost use Rattle.claim_tree.specs.Path.{pointer_text, tree_at};
ghost use Rattle.claim_tree.specs.View.{tree_of};
ghost use Rattle.digest_sites.specs.declared.site.SiteKind.TheVariants.{Member, Element};
ghost use Rattle.marked_tree.specs.Paths.{Path};
ghost use Rattle.issuer_core.specs.Order.{order_of};
ghost use Rattle.issuer_core.specs.Decoys.{decoys_of};
ghost use Rattle.audit_core.specs.Audited.{decoys_wanted, standing};
ghost use Rattle.audit_core.specs.AuditSteps.{kind_letter, standing_text};
ghost use Rattle.audit_core.specs.Wanted.{count_at, entry_texts, element_texts};

use crate::standing::with_kind;
use claim_tree::{Tree, find, print_path};
use digest_sites::SiteKind;
use issuer_core::{Decoy, Order};
use itoa::Buffer;
use sd_outside::{NoMemory, TextBox};
use std::alloc::Global;
use std::collections::BTreeMap;

// How many decoys the place with the pointer has.
fn count_of(counts: &BTreeMap<TextBox, usize>, pointer: &TextBox) -> usize
    ensures { result ≡ count_at counts.now pointer.now }
{
    match counts.get(pointer) {
        Some(count) => *count,
        None => 0,
    }
}

// Puts so many more decoys to the place with the pointer, which has so many already.
fn note(
    counts: &mut BTreeMap<TextBox, usize>,
    pointer: TextBox,
    before: usize,
    more: u32,
) -> Result<(), NoMemory>
    requires before { before ≡ count_at counts.old pointer }
    requires few { before + more < 2 ^ 64 }
    ensures { OnOk result
        ((q : Text)
        → count_at counts.new q
        ≡ (if bytes_eq pointer q then more else 0) + count_at counts.old q) }
{
    match counts.insert(pointer, before + more as usize) {
        Ok(_) => Ok(()),
        Err(_) => Err(NoMemory),
    }
}

// So many decoys of the object with this pointer.
fn push_members(
    alloc: Global,
    pointer: &str,
    count: u32,
    wanted: &mut Vec<TextBox>,
) -> Result<(), NoMemory>
    ensures { OnOk result
        (wanted.new.items
        ≡ wanted.old.items ++ replicate count (kind_letter Member ++ pointer.now)) }
{
    for _ in 0..count {
        let text = with_kind(alloc, SiteKind::Member, pointer)?;
        wanted.push(TextBox::from_string(text))?;
    }
    Ok(())
}

// Where the element with this position stands, of the list with this pointer.
// Its digits are written as they are.
fn element_text(alloc: Global, pointer: &str, position: usize) -> Result<TextBox, NoMemory>
    ensures { IfOk result
        (λ text. (at : Path) → pointer.now ≡ pointer_text at
        → text ≡ standing_text (standing Element (at ++ decimal position ∷ []))) }
{
    let mut digits = Buffer::new();
    let mut text = with_kind(alloc, SiteKind::Element, pointer)?;
    text.push_str("/")?;
    text.push_str(digits.format(position))?;
    Ok(TextBox::from_string(text))
}

// So many decoys of the list with this pointer, from this position on.
fn push_elements(
    alloc: Global,
    pointer: &str,
    first: usize,
    count: u32,
    wanted: &mut Vec<TextBox>,
) -> Result<(), NoMemory>
    requires { first + count < 2 ^ 64 }
    ensures { OnOk result
        ((at : Path) → pointer.now ≡ pointer_text at
        → wanted.new.items ≡ wanted.old.items ++ element_texts at first count) }
{
    for i in 0..count as usize {
        wanted.push(element_text(alloc, pointer, first + i)?)?;
    }
    Ok(())
}

// The decoys of an entry, whose place has this pointer and so many earlier ones.
fn push_entry(
    alloc: Global,
    payload: &Tree,
    entry: &Decoy,
    pointer: &str,
    before: usize,
    wanted: &mut Vec<TextBox>,
) -> Result<(), NoMemory>
    requires place { pointer.now ≡ pointer_text entry.now.at }
    requires few { before + entry.now.count ≤ count_max }
    ensures { OnOk result
        (wanted.new.items
        ≡ wanted.old.items
        ++ entry_texts entry.now.at before entry.now.count
        (tree_at (tree_of payload.now) entry.now.at)) }
{
    match find(payload, &entry.at) {
        Some(Tree::Object(_)) => push_members(alloc, pointer, entry.count, wanted),
        Some(Tree::List(list)) => {
            let first = list.trees().len() + before;
            push_elements(alloc, pointer, first, entry.count, wanted)
        }
        _ => Ok(()),
    }
}

// Where the order wants its decoys.
pub(crate) fn wanted_standings(alloc: Global, order: &Order) -> Result<Vec<TextBox>, NoMemory>
    requires { length (decoys_of (order_of order.now)) ≤ count_max }
    ensures { IfOk result
        (λ wanted. wanted.items ≡ map standing_text (decoys_wanted (order_of order.now))) }
{
    let mut counts = BTreeMap::new(alloc);
    let mut wanted = Vec::new(alloc);
    for entry in order.decoys.elements() {
        let pointer = print_path(alloc, &entry.at)?;
        let before = count_of(&counts, &pointer);
        push_entry(
            alloc,
            &order.payload,
            entry,
            pointer.as_str(),
            before,
            &mut wanted,
        )?;
        note(&mut counts, pointer, before, entry.count)?;
    }
    Ok(wanted)
}
