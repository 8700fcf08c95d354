// Keys for HS256, with which a holder signs.
ghost use Rattle.std.specs.Prelude.{◌≡◌, ◌<◌, ◌≤◌, length, IfOk, IfErr};
ghost use Rattle.sd_outside.specs.Limits.{key_min};
ghost use Rattle.hmac_sign.specs.Algs.{alg_text};
ghost use Rattle.hmac_sign.specs.Hmac.{key_block, hs256_key, mac as mac_of, IsGood};
ghost use Rattle.hmac_sign.specs.declared.alg.Alg.TheVariants.{Hs256};

use crate::keyed_hash::code_32;
use crate::{Alg, AlgName, Checker, HsKey, KeyShort, SignError, Signatures, Signer};
use sd_outside::ByteBox;
use std::alloc::Global;
use std::marker::Model;

/// A key for HS256, the algorithm of key binding tokens. Contracts see the
/// block of 64 bytes that HMAC makes of it.
#[derive(Drop)]
pub struct Hs256Key {
    key: HsKey,
}

impl Model for Hs256Key {
    ghost use Rattle.std.specs.Prelude.{◌≡◌, List, ℕ};
    ghost use Rattle.hmac_sign.specs.declared.alg.Alg.TheVariants.{Hs256};

    ghost Value = { List ℕ };

    ghost view = { λ key. key.key.block };

    ghost invariant = { λ key. key.key.alg ≡ Hs256 };
}

impl Hs256Key {
    /// The key of these bytes, of which there are at least 32.
    pub fn new(key: &[u8]) -> Result<Hs256Key, KeyShort>
        ensures ok { IfOk result (λ made. made ≡ key_block Hs256 key.now) }
        ensures enough { IfOk result (λ _. key_min ≤ length key.now) }
        ensures short { IfErr result (λ _. length key.now < key_min) }
    {
        Ok(Hs256Key {
            key: HsKey::new(Alg::Hs256, key)?,
        })
    }

    /// Its algorithm.
    pub fn alg(&self) -> Alg
        ensures { result ≡ Hs256 }
    {
        Alg::Hs256
    }

    /// As a key of any algorithm.
    pub fn as_key(&self) -> &HsKey
        ensures { result.now ≡ hs256_key self.now }
    {
        &self.key
    }

    /// The HMAC of the head, a full stop and the body: the signing input of RFC 7515 section 5.1.
    pub fn mac(&self, head: &str, body: &str) -> [u8; 32]
        ensures { result ≡ mac_of (hs256_key self.now) head.now body.now }
    {
        code_32(&self.as_key().mac(head, body))
    }
}

impl Signatures for Hs256Key {
    ghost good = { λ key. IsGood (hs256_key key) };
}

impl Checker for Hs256Key {
    fn check(&self, head: &str, body: &str, signature: &[u8]) -> bool {
        self.as_key().check(head, body, signature)
    }
}

impl Signer for Hs256Key {
    ghost faults = { λ _. 0 };

    ghost alg_name_of = { λ _. alg_text Hs256 };

    fn alg_name(&self) -> AlgName<'_> {
        Alg::Hs256.alg_name()
    }

    fn sign(&mut self, alloc: Global, head: &str, body: &str) -> Result<ByteBox, SignError> {
        self.as_key().signature(alloc, head, body)
    }
}
