// The sites of a tree, in their order.
ghost use Rattle.std.specs.Prelude.{◌≡◌, [], ◌∷◌, ◌++◌, map, false, IsSome, IfOk, IfErr, OnOk, unwrap_or};
ghost use Rattle.claim_tree.specs.View.{tree_of};
ghost use Rattle.digest_sites.specs.Reserved.{misuses, texts_of, element_digest as digest_in};
ghost use Rattle.digest_sites.specs.Sites.{sites as sites_of};
ghost use Rattle.digest_sites.specs.SiteCalls.{listed, IsSitesRefused};
ghost use Rattle.digest_sites.specs.Walk.{site, sites_at, own_sites as own_sites_at, element_sites_on, elements_sites, members_sites};
ghost use Rattle.digest_sites.specs.declared.site.SiteKind.TheVariants.{Member};

use crate::misuse::is_misused;
use crate::reserved::{element_digest, is_sd, own_digests};
use crate::site::{Site, SiteKind, SiteList};
use claim_tree::{Path, Tree, TreeList, TreeMap};
use itoa::Buffer;
use sd_outside::{NoMemory, TextBox};
use std::alloc::Global;

/// Why a tree has no list of sites.
#[derive(Clone, Copy, Debug, PartialEq, Eq)]
pub enum SiteError {
    /// There was no memory for the sites.
    Memory,
    /// The tree misuses a reserved name.
    Misused,
}

impl From<NoMemory> for SiteError {
    ghost use Rattle.digest_sites.specs.declared.walk.SiteError.TheVariants.{Memory};

    ghost from_gives = { λ _ e. e ≡ Memory };

    fn from(_: NoMemory) -> Self {
        SiteError::Memory
    }
}

/// The sites of a tree: of an object first those of its `_sd`, then those
/// inside its other members in ascending order; of an array those of its
/// elements in order, where an element with a digest is one site.
#[tactic(auto, using(crate::proofs::Moved::listed_sites))]
pub fn sites(alloc: Global, tree: &Tree) -> Result<SiteList, SiteError>
    ensures ok { IfOk result (λ list. list ≡ map listed (sites_of (tree_of tree.now))) }
    ensures well { IfOk result (λ _. misuses (tree_of tree.now) ≡ false) }
    ensures refused { IfErr result (IsSitesRefused (tree_of tree.now)) }
{
    if is_misused(tree) {
        return Err(SiteError::Misused);
    }
    let mut walk = Walk {
        alloc,
        at: Path::new(alloc),
        found: SiteList::new(alloc),
    };
    walk.visit(tree)?;
    Ok(walk.found)
}

// A walk over a tree: the place to which it has come, and the sites that it has found.
#[derive(Drop)]
struct Walk {
    alloc: Global,
    at: Path,
    found: SiteList,
}

impl Walk {
    // Adds the sites of the tree to which the walk has come.
    #[cycle(walk)]
    fn visit(&mut self, tree: &Tree) -> Result<(), NoMemory>
        ensures found { OnOk result
            (self.new.found ≡ self.old.found ++ sites_at self.old.at (tree_of tree.now)) }
        ensures at { OnOk result (self.new.at ≡ self.old.at) }
    {
        match tree {
            Tree::List(trees) => self.visit_elements(trees),
            Tree::Object(trees) => {
                self.add_own_sites(trees)?;
                self.visit_members(trees)
            }
            _ => Ok(()),
        }
    }

    #[cycle(walk)]
    #[tactic(auto, using(claim_tree::proofs::Walks::into_element))]
    fn visit_elements(&mut self, trees: &TreeList) -> Result<(), NoMemory>
        ensures found { OnOk result
            (self.new.found ≡ self.old.found ++ elements_sites self.old.at 0 trees.now) }
        ensures at { OnOk result (self.new.at ≡ self.old.at) }
    {
        for (i, tree) in trees.trees().iter().enumerate() {
            let mut digits = Buffer::new();
            self.visit_element(digits.format(i), tree)?;
        }
        Ok(())
    }

    // The element on a step.
    #[cycle(walk)]
    fn visit_element(&mut self, step: &str, tree: &Tree) -> Result<(), NoMemory>
        ensures found { OnOk result
            (self.new.found
            ≡ self.old.found
            ++ element_sites_on (self.old.at ++ step.now ∷ [])
            (digest_in (tree_of tree.now))
            (sites_at (self.old.at ++ step.now ∷ []) (tree_of tree.now))) }
        ensures at { OnOk result (self.new.at ≡ self.old.at) }
    {
        self.at.push(step)?;
        match element_digest(tree) {
            Some(digest) => self.add_site(SiteKind::Element, digest)?,
            None => self.visit(tree)?,
        }
        self.at.pop();
        Ok(())
    }

    #[cycle(walk)]
    #[tactic(auto, using(claim_tree::proofs::Walks::into_member))]
    fn visit_members(&mut self, trees: &TreeMap) -> Result<(), NoMemory>
        ensures found { OnOk result
            (self.new.found ≡ self.old.found ++ members_sites self.old.at trees.now) }
        ensures at { OnOk result (self.new.at ≡ self.old.at) }
    {
        for (name, tree) in trees.members() {
            if !is_sd(name) {
                self.visit_member(name.as_str(), tree)?;
            }
        }
        Ok(())
    }

    #[cycle(walk)]
    fn visit_member(&mut self, name: &str, tree: &Tree) -> Result<(), NoMemory>
        ensures found { OnOk result
            (self.new.found
            ≡ self.old.found ++ sites_at (self.old.at ++ name.now ∷ []) (tree_of tree.now)) }
        ensures at { OnOk result (self.new.at ≡ self.old.at) }
    {
        self.at.push(name)?;
        self.visit(tree)?;
        self.at.pop();
        Ok(())
    }

    // Adds the sites of the digests of an object's own hidden members.
    fn add_own_sites(&mut self, trees: &TreeMap) -> Result<(), NoMemory>
        ensures found { OnOk result
            (self.new.found ≡ self.old.found ++ own_sites_at self.old.at trees.now) }
        ensures at { OnOk result (self.new.at ≡ self.old.at) }
    {
        match own_digests(trees) {
            Some(digests) => self.add_member_sites(digests),
            None => Ok(()),
        }
    }

    fn add_member_sites(&mut self, digests: &TreeList) -> Result<(), NoMemory>
        requires { IsSome (texts_of digests.now) }
        ensures found { OnOk result
            (self.new.found
            ≡ self.old.found
            ++ map (site self.old.at Member) (unwrap_or (texts_of digests.now) [])) }
        ensures at { OnOk result (self.new.at ≡ self.old.at) }
    {
        for tree in digests.trees() {
            if let Some(digest) = tree.as_text() {
                self.add_site(SiteKind::Member, digest)?;
            }
        }
        Ok(())
    }

    // Adds a site at the place to which the walk has come.
    fn add_site(&mut self, kind: SiteKind, digest: &TextBox) -> Result<(), NoMemory>
        ensures found { OnOk result
            (self.new.found ≡ self.old.found ++ site self.old.at kind digest.now ∷ []) }
        ensures at { OnOk result (self.new.at ≡ self.old.at) }
    {
        let at = self.at.copy(self.alloc)?;
        let digest = TextBox::make(self.alloc, digest.as_str())?;
        self.found.push(Site { at, kind, digest })
    }
}
