// The sites whose digests are of no disclosure.
ghost use Rattle.std.specs.Prelude.{[], ◌∷◌, ◌++◌, Some, IsSome, OnOk, unwrap_or};
ghost use Rattle.claim_tree.specs.View.{tree_of};
ghost use Rattle.digest_sites.specs.Reserved.{texts_of, sd_texts};
ghost use Rattle.digest_sites.specs.Walk.{site};
ghost use Rattle.audit_core.specs.Strange.{Adds, strange_at, strange_own, strange_on};

use crate::known::has;
use claim_tree::{Path, Tree, TreeList, TreeMap};
use digest_index::Seeded;
use digest_sites::{Site, SiteKind, SiteList, element_digest, is_sd, own_digests};
use itoa::Buffer;
use sd_outside::{NoMemory, TextBox};
use std::alloc::Global;
use std::collections::HashSet;

// A search for the digests that are of no disclosure.
#[derive(Drop)]
pub(crate) struct Search<'a> {
    pub(crate) alloc: Global,
    // The digests of the disclosures.
    pub(crate) known: HashSet<&'a str, Seeded>,
    // How long the path of a site may be.
    pub(crate) longest: usize,
    // Where in the claims the search is.
    pub(crate) at: Path,
    pub(crate) found: SiteList,
}

// Adds the strange sites of a tree that stands where the search is.
#[cycle(strange)]
pub(crate) fn walk(search: &mut Search<'_>, tree: &Tree) -> Result<(), NoMemory>
    ensures { OnOk result
        (Adds search.old search.new
        (λ known at. strange_at known at (tree_of tree.now))) }
{
    match tree {
        Tree::List(trees) => {
            #[tactic(auto, using(claim_tree::proofs::Walks::into_element))]
            for (i, tree) in trees.trees().iter().enumerate() {
                let mut digits = Buffer::new();
                let step = digits.format(i);
                match element_digest(tree) {
                    Some(digest) => add_element(search, step, digest)?,
                    None => walk_inside(search, step, tree)?,
                }
            }
        }
        Tree::Object(trees) => {
            add_own(search, trees)?;
            #[tactic(auto, using(claim_tree::proofs::Walks::into_member))]
            for (name, tree) in trees.members() {
                if !is_sd(name) {
                    walk_inside(search, name.as_str(), tree)?;
                }
            }
        }
        _ => {}
    }
    Ok(())
}

// The tree on a step, which is not made to a value that has nothing inside.
#[cycle(strange)]
fn walk_inside(search: &mut Search<'_>, step: &str, tree: &Tree) -> Result<(), NoMemory>
    ensures { OnOk result
        (Adds search.old search.new
        (λ known at. strange_at known (at ++ step.now ∷ []) (tree_of tree.now))) }
{
    match tree {
        Tree::List(_) | Tree::Object(_) => {
            search.at.push(step)?;
            walk(search, tree)?;
            search.at.pop();
            Ok(())
        }
        _ => Ok(()),
    }
}

// Whether the texts of the steps are longer than this.
fn is_longer(path: &Path, most: usize) -> bool {
    let mut length = 0usize;
    for step in path.steps() {
        length = length.saturating_add(step.len());
    }
    length > most
}

// A site at a path, whose digest is of no disclosure. A path that is too long
// is refused as want of memory is.
fn add_site(
    search: &mut Search<'_>,
    at: Path,
    kind: SiteKind,
    digest: &TextBox,
) -> Result<(), NoMemory>
    ensures { OnOk result (Adds search.old search.new (λ _ _. site at kind digest.now ∷ [])) }
{
    if is_longer(&at, search.longest) {
        return Err(NoMemory);
    }
    let digest = TextBox::make(search.alloc, digest.as_str())?;
    search.found.push(Site { at, kind, digest })
}

// The element on a step, which has a digest.
fn add_element(search: &mut Search<'_>, step: &str, digest: &TextBox) -> Result<(), NoMemory>
    ensures { OnOk result
        (Adds search.old search.new
        (λ known at. strange_on known (at ++ step.now ∷ []) (Some digest.now) [])) }
{
    if has(&search.known, digest.as_str()) {
        return Ok(());
    }
    let mut at = search.at.copy(search.alloc)?;
    at.push(step)?;
    add_site(search, at, SiteKind::Element, digest)
}

fn add_own(search: &mut Search<'_>, trees: &TreeMap) -> Result<(), NoMemory>
    ensures { OnOk result
        (Adds search.old search.new
        (λ known at. strange_own known at (sd_texts trees.now))) }
{
    match own_digests(trees) {
        Some(digests) => add_members(search, digests),
        None => Ok(()),
    }
}

fn add_members(search: &mut Search<'_>, digests: &TreeList) -> Result<(), NoMemory>
    requires { IsSome (texts_of digests.now) }
    ensures { OnOk result
        (Adds search.old search.new
        (λ known at. strange_own known at (unwrap_or (texts_of digests.now) []))) }
{
    for tree in digests.trees() {
        if let Some(digest) = tree.as_text() {
            add_member(search, digest)?;
        }
    }
    Ok(())
}

fn add_member(search: &mut Search<'_>, digest: &TextBox) -> Result<(), NoMemory>
    ensures { OnOk result
        (Adds search.old search.new
        (λ known at. strange_own known at (digest.now ∷ []))) }
{
    if has(&search.known, digest.as_str()) {
        return Ok(());
    }
    let at = search.at.copy(search.alloc)?;
    add_site(search, at, SiteKind::Member, digest)
}
