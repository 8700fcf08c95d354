// Hashes that are begun once for a key, and gone on with for each text.
ghost use Rattle.std.specs.Prelude.{◌≡◌, take};
ghost use Rattle.sha2.specs.Hashers.{Holds256};
ghost use Rattle.hmac_sign.specs.Begun.{IsBegun};
ghost use Rattle.hmac_sign.specs.Hmac.{xored};
ghost use Rattle.hmac_sign.specs.declared.hasher.Hasher.{Hasher as HasherOf};

use crate::hasher::Hasher;
use crate::keyed_hash::{BLOCK_MAX, INNER_PAD, OUTER_PAD, padded};
use sha2::{Digest, Sha256};

// The bytes of a block of SHA-256.
const BLOCK_LEN: usize = 64;

// The two hashes of an HMAC with SHA-256, each behind its padded block.
#[derive(Drop)]
pub(crate) struct Begun {
    inner: Sha256,
    outer: Sha256,
}

// The hash of a block with a pad on each byte.
fn padded_sha256(block: &[u8; BLOCK_MAX], pad: u8) -> Sha256
    ensures { Holds256 result (xored (take 64 block.now) pad) }
{
    Sha256::new_with_prefix(&padded(block, pad)[..BLOCK_LEN])
}

// The same hash once more.
fn again(hasher: &Sha256) -> Sha256
    ensures { result ≡ hasher.now }
{
    match hasher.clone() {
        Ok(copy) => copy,
        Err(_) => unreachable!(),
    }
}

impl Begun {
    // The hashes of a key for HS256, which begin with its block.
    pub(crate) fn new(block: &[u8; BLOCK_MAX]) -> Begun
        ensures { IsBegun result (take 64 block.now) }
    {
        Begun {
            inner: padded_sha256(block, INNER_PAD),
            outer: padded_sha256(block, OUTER_PAD),
        }
    }

    // The inner and the outer one, to go on with.
    pub(crate) fn hashers(&self) -> (Hasher, Hasher)
        ensures { result ≡ (HasherOf.Sha256 self.now.inner, HasherOf.Sha256 self.now.outer) }
    {
        (
            Hasher::Sha256(again(&self.inner)),
            Hasher::Sha256(again(&self.outer)),
        )
    }
}
