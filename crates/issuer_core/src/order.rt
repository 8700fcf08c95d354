// What an issuer is asked for.
ghost use Rattle.std.specs.Prelude.{◌≡◌, ◌≤◌, length, IfOk};
ghost use Rattle.sd_outside.specs.Limits.{count_max, json_depth_max};
ghost use Rattle.claim_tree.specs.Tree.{depth};
ghost use Rattle.claim_tree.specs.View.{tree_of};
ghost use Rattle.issuer_core.specs.Decoys.{decoy_paths};
ghost use Rattle.issuer_core.specs.Order.{order_of};

use claim_tree::{Path, PathList, Tree, copy, copy_paths};
use disclosure::HashAlg;
use sd_outside::{ListOf, NoMemory, TextBox, copy_text};
use std::alloc::Global;

/// Decoy digests at a place, RFC 9901 section 4.2.5.
#[derive(Debug, Drop)]
pub struct Decoy {
    /// An object or a list of the payload.
    pub at: Path,
    /// How many.
    pub count: u32,
}

/// Entries of decoys in order. Contracts see the list of them.
pub type DecoyList = ListOf<Decoy>;

/// How many decoys the entries ask for.
pub fn decoy_count(decoys: &DecoyList) -> usize
    requires { length (decoy_paths decoys.now) ≤ count_max }
    ensures { result ≡ length (decoy_paths decoys.now) }
{
    let mut count = 0;
    for entry in decoys.elements() {
        count += entry.count as usize;
    }
    count
}

// A copy of the entries.
fn copy_decoys(alloc: Global, decoys: &DecoyList) -> Result<DecoyList, NoMemory>
    ensures { IfOk result (λ copies. copies ≡ decoys.now) }
{
    let mut copies = DecoyList::new(alloc);
    for entry in decoys.elements() {
        copies.push(Decoy {
            at: entry.at.copy(alloc)?,
            count: entry.count,
        })?;
    }
    Ok(copies)
}

/// What an issuer is asked for: a payload, and what is hidden of it.
///
/// Contracts see it by `order_of`.
#[derive(Debug, Drop)]
pub struct Order {
    /// The payload, before anything is hidden.
    pub payload: Tree,
    /// The places that are hidden, each with all that is inside it. A place
    /// that stands twice counts once.
    pub hide: PathList,
    /// Where decoys are put.
    pub decoys: DecoyList,
    /// The name of the key, for the header.
    pub kid: Option<TextBox>,
    /// The type, for the header (RFC 7515 section 4.1.9).
    pub typ: Option<TextBox>,
    /// The hash of the digests, which the payload names (RFC 9901 section 4.1.1).
    pub hash: HashAlg,
}

impl Order {
    /// A copy of the order.
    pub fn copy(&self, alloc: Global) -> Result<Order, NoMemory>
        requires { depth (tree_of self.now.payload) ≤ json_depth_max }
        ensures { IfOk result (λ copy. order_of copy ≡ order_of self.now) }
    {
        let kid = copy_text(alloc, &self.kid)?;
        let typ = copy_text(alloc, &self.typ)?;
        let decoys = copy_decoys(alloc, &self.decoys)?;
        let hide = copy_paths(alloc, &self.hide)?;
        Ok(Order {
            payload: copy(alloc, &self.payload)?,
            hide,
            decoys,
            kid,
            typ,
            hash: self.hash,
        })
    }
}
