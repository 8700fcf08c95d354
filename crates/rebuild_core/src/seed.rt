// The seed by which the digests of a token are hashed.
ghost use Rattle.std.specs.Prelude.{◌≡◌};
ghost use Rattle.rebuild_core.specs.Reached.{given_digests};
ghost use Rattle.rebuild_core.specs.Seed.{seed_over};

use digest_sites::GivenList;
use std::hash::{DefaultHasher, Hasher};

/// A seed for the index of a token's digests, derived from its signature, once this is checked, and
/// from the digests of all disclosures that came with it, in their order.
///
/// The author of the payload can't know it while choosing the digests in it, since the signature is
/// over them. Nor can the sender of disclosures: each disclosure that is chosen changes the seed.
pub fn seed_of(signature: &str, given: &GivenList) -> u64
    ensures { result ≡ seed_over signature.now (given_digests given.now) }
{
    let mut hasher = DefaultHasher::new();
    hasher.write(signature.as_bytes());
    for item in given.items() {
        hasher.write(item.digest.as_str().as_bytes());
    }
    hasher.finish()
}
