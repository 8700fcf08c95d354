// HMAC (RFC 2104) over the hashes of the SHA-2 family.
ghost use Rattle.std.specs.Prelude.{◌≡◌, ◌↔◌, ◌≤◌, ◌++◌, ℕ, List, length, take, IsTrue};
ghost use Rattle.hmac_sign.specs.Algs.{block_length, hash_by};
ghost use Rattle.hmac_sign.specs.CodeLengths.{code_length};
ghost use Rattle.hmac_sign.specs.Codes.{IsHashing};
ghost use Rattle.hmac_sign.specs.Hmac.{filled as filled_block, hmac as hmac_of, key_block as block_of, xored};
ghost use Rattle.hmac_sign.specs.declared.alg.Alg.{Alg as Named};
ghost use Rattle.hmac_sign.specs.declared.alg.Alg.TheVariants.{Hs256};

use crate::hasher::Hasher;
use crate::{Alg, Mac};

// The most bytes of a block.
pub(crate) const BLOCK_MAX: usize = 128;

pub(crate) const INNER_PAD: u8 = 0x36;

pub(crate) const OUTER_PAD: u8 = 0x5c;

// The key, with zeros behind it.
fn filled(key: &[u8]) -> [u8; BLOCK_MAX]
    requires { length key.now ≤ BLOCK_MAX }
    ensures { result ≡ filled_block BLOCK_MAX key.now }
{
    let mut block = [0; BLOCK_MAX];
    block[..key.len()].copy_from_slice(key);
    block
}

// The key as one block, and zeros behind it.
pub(crate) fn key_block(alg: Alg, key: &[u8]) -> [u8; BLOCK_MAX]
    ensures { take (block_length alg) result ≡ block_of alg key.now }
{
    if key.len() > alg.block_len() {
        filled(Hasher::new(alg, key).finish().bytes())
    } else {
        filled(key)
    }
}

// The block with this pad on each byte.
pub(crate) fn padded(block: &[u8; BLOCK_MAX], pad: u8) -> [u8; BLOCK_MAX]
    ensures { result ≡ xored block.now pad }
{
    let mut bytes = *block;
    for i in 0..BLOCK_MAX {
        bytes[i] ^= pad;
    }
    bytes
}

// The hash of the algorithm, of the block with this pad on each byte. A text is added to it.
pub(crate) fn padded_hasher(alg: Alg, block: &[u8; BLOCK_MAX], pad: u8) -> Hasher
    ensures { IsHashing result alg (xored (take (block_length alg) block.now) pad) }
{
    Hasher::new(alg, &padded(block, pad)[..alg.block_len()])
}

// The code of what the inner hash holds, by the outer one.
pub(crate) fn code_over(inner: Hasher, outer: Hasher) -> Mac
    ensures { (alg : Named) (pad message : List ℕ) → IsHashing inner alg message
        → IsHashing outer alg pad → result ≡ hash_by alg (pad ++ hash_by alg message) }
{
    outer.with(inner.finish().bytes()).finish()
}

/// The HMAC of a text, RFC 2104, under a key of any length.
pub fn hmac(alg: Alg, key: &[u8], text: &[u8]) -> Mac
    ensures code { result ≡ hmac_of alg key.now text.now }
    ensures long { length result ≡ code_length alg }
{
    let block = key_block(alg, key);
    let inner = padded_hasher(alg, &block, INNER_PAD).with(text);
    code_over(inner, padded_hasher(alg, &block, OUTER_PAD))
}

/// The HMAC with SHA-256.
pub fn hmac_sha256(key: &[u8], text: &[u8]) -> [u8; 32]
    ensures { result ≡ hmac_of Hs256 key.now text.now }
{
    code_32(&hmac(Alg::Hs256, key, text))
}

// A code of 32 bytes.
pub(crate) fn code_32(mac: &Mac) -> [u8; 32]
    requires { length mac.now ≡ 32 }
    ensures { result ≡ mac.now }
{
    let mut code = [0; 32];
    code.copy_from_slice(mac.bytes());
    code
}

// Whether two codes are equal, in a time that does not tell where they differ.
pub(crate) fn are_equal(code: &[u8], other: &[u8]) -> bool
    ensures { IsTrue result ↔ (other.now ≡ code.now) }
{
    if other.len() != code.len() {
        return false;
    }
    let mut differing = 0;
    for i in 0..code.len() {
        differing |= code[i] ^ other[i];
    }
    differing == 0
}
