// A place of a payload where a digest stands.
use claim_tree::Path;
use sd_outside::{ListOf, TextBox};

/// What a digest hides.
#[derive(Clone, Copy, Debug, PartialEq, Eq)]
pub enum SiteKind {
    /// A member of an object, RFC 9901 section 4.2.4.1.
    Member,
    /// An element of an array, RFC 9901 section 4.2.4.2.
    Element,
}

/// A digest in a tree.
#[derive(Debug, Drop)]
pub struct Site {
    /// For `Member` the place of the object, for `Element` that of the element
    /// that stands for the hidden one.
    pub at: Path,
    pub kind: SiteKind,
    pub digest: TextBox,
}

/// Sites in order. Contracts see the list of them.
pub type SiteList = ListOf<Site>;
