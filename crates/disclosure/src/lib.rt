//! Disclosures and their digests, RFC 9901 section 4.2.
//!
//! A [`Disclosure`] is the base64url encoding of a JSON array: the salt, the name of a member, and
//! its value. The disclosure of an element of an array has no name. The digest is the hash of the
//! base64url string, byte for byte.
#![tactic(auto)]

mod digests;
mod disclosure;
mod errors;
pub mod laws;

pub use digests::{HashAlg, digest, hash_named, payload_hash};
pub use disclosure::{
    Disclosed, Disclosure, DisclosureParts, DisclosureReader, disclosed_by, make, make_text,
    parts_of, read_disclosure,
};
pub use errors::DisclosureError;
