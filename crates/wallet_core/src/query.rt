// What is asked of a wallet.
use claim_tree::{Path, PathList, Tree};
use hmac_sign::KeySet;
use sd_outside::{ByteBox, ListOf};

/// A value that a claim is to have.
#[derive(Debug, Drop)]
pub struct Equal {
    /// The place of the claim.
    pub at: Path,
    /// Its value.
    pub value: Tree,
}

/// Values that claims are to have. Contracts see the list of them.
pub type EqualList = ListOf<Equal>;

/// The token files that a holder has, in the order in which they are asked.
/// Contracts see the list of their bytes.
pub type CredentialList = ListOf<ByteBox>;

/// What is asked of a credential.
#[derive(Drop)]
pub struct Query {
    /// The keys of the issuers that are trusted.
    pub keys: KeySet,
    /// The places that are wanted.
    pub want: PathList,
    /// The values that claims are to have, which are shown too.
    pub equal: EqualList,
}
