// The hash algorithms of digests, and the digests of texts (RFC 9901 section 4.2.3).
ghost use Rattle.std.specs.Prelude.{◌≡◌, ◌≢◌, IfOk, Some, IfSome, IfNone};
ghost use Rattle.claim_tree.specs.View.{tree_of};
ghost use Rattle.disclosure.specs.Digest.{digest_of, hash_name, hash_of_text, hash_of_name as hash_of_name_by, payload_hash as payload_hash_by};
ghost use Rattle.disclosure.specs.declared.digests.HashAlg.{HashAlg};

use b64url_text::encode;
use claim_tree::{Tree, get};
use sd_outside::{NoMemory, TextBox};
use sha2::{Digest, Sha256, Sha384, Sha512};
use std::alloc::Global;

/// A hash algorithm, by its name in the registry of named hashes (RFC 6920, RFC
/// 9901 section 4.1.1).
#[derive(Clone, Copy, Debug, PartialEq, Eq)]
pub enum HashAlg {
    /// `sha-256`.
    Sha256,
    /// `sha-384`.
    Sha384,
    /// `sha-512`.
    Sha512,
}

impl HashAlg {
    /// Returns the name of the algorithm.
    pub fn name(self) -> &'static str
        ensures { result.now ≡ hash_name self }
    {
        match self {
            HashAlg::Sha256 => "sha-256",
            HashAlg::Sha384 => "sha-384",
            HashAlg::Sha512 => "sha-512",
        }
    }
}

/// Returns the algorithm with this name, if it is known.
pub fn hash_named(name: &str) -> Option<HashAlg>
    ensures named { IfSome result (λ alg. name.now ≡ hash_name alg) }
    ensures other { IfNone result ((alg : HashAlg) → name.now ≢ hash_name alg) }
    ensures value { result ≡ hash_of_text name.now }
{
    match name {
        "sha-256" => Some(HashAlg::Sha256),
        "sha-384" => Some(HashAlg::Sha384),
        "sha-512" => Some(HashAlg::Sha512),
        _ => None,
    }
}

// The algorithm whose name the claim is.
fn hash_of_name(name: &Tree) -> Option<HashAlg>
    ensures { result ≡ hash_of_name_by (Some (tree_of name.now)) }
{
    hash_named(name.as_text()?.as_str())
}

/// Returns the algorithm of a payload's digests, RFC 9901 section 4.1.1: the one that `_sd_alg`
/// names, or SHA-256 if there is no `_sd_alg`. Returns `None` if `_sd_alg` is not a string or does
/// not name a known algorithm.
pub fn payload_hash(payload: &Tree) -> Option<HashAlg>
    ensures { result ≡ payload_hash_by (tree_of payload.now) }
{
    match get(payload, "_sd_alg") {
        Some(name) => hash_of_name(name),
        None => Some(HashAlg::Sha256),
    }
}

/// Returns the digest of a disclosure or of any other string: the base64url encoding of the hash of
/// its bytes, RFC 9901 section 4.2.3.
pub fn digest(alloc: Global, alg: HashAlg, text: &str) -> Result<TextBox, NoMemory>
    ensures { IfOk result (λ digest. digest ≡ digest_of alg text.now) }
{
    match alg {
        HashAlg::Sha256 => encode(alloc, &Sha256::digest(text)),
        HashAlg::Sha384 => encode(alloc, &Sha384::digest(text)),
        HashAlg::Sha512 => encode(alloc, &Sha512::digest(text)),
    }
}
