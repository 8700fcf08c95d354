// Keys for HS256, HS384 and HS512.
ghost use Rattle.std.specs.Prelude.{◌≡◌, ◌<◌, ◌≤◌, ◌↔◌, length, IfOk, IfErr, IsTrue};
ghost use Rattle.hmac_sign.specs.Algs.{block_length, key_least, alg_text};
ghost use Rattle.hmac_sign.specs.CodeLengths.{code_length};
ghost use Rattle.hmac_sign.specs.Codes.{IsHashing};
ghost use Rattle.hmac_sign.specs.Hmac.{alg_key, mac as mac_of, xored, IsGood, IsGoodText};

use crate::begun::Begun;
use crate::hasher::Hasher;
use crate::keyed_hash::{
    BLOCK_MAX, INNER_PAD, OUTER_PAD, are_equal, code_over, key_block, padded_hasher,
};
use crate::{Alg, AlgName, Checker, Mac, SignError, Signatures, Signer};
use b64url_text::{DecodeError, decode};
use sd_outside::{ByteBox, NoMemory};
use std::alloc::Global;
use std::marker::Model;

/// The key has fewer bytes than the algorithm asks for.
#[derive(Clone, Copy, Debug, PartialEq, Eq)]
pub struct KeyShort;

/// A key for an algorithm. Contracts see its algorithm, and the block that HMAC
/// makes of it, so keys of one block are one.
#[derive(Drop)]
pub struct HsKey {
    alg: Alg,
    block: [u8; BLOCK_MAX],
    // For HS256, by which nearly all tokens are signed.
    begun: Option<Begun>,
}

impl Model for HsKey {
    ghost use Rattle.std.specs.Prelude.{take};
    ghost use Rattle.hmac_sign.specs.Algs.{block_length};
    ghost use Rattle.hmac_sign.specs.Begun.{AreBegun};
    ghost use Rattle.hmac_sign.specs.Hmac.{AlgKey};

    ghost Value = { AlgKey };

    ghost view = { λ key. record { alg = key.alg; block = take (block_length key.alg) key.block } };

    ghost invariant = { λ key. AreBegun key.begun key.alg (take (block_length key.alg) key.block) };
}

impl HsKey {
    /// The key of these bytes. The fewest are 32, 48 and 64 (RFC 7518 section 3.2).
    pub fn new(alg: Alg, key: &[u8]) -> Result<HsKey, KeyShort>
        ensures ok { IfOk result (λ made. made ≡ alg_key alg key.now) }
        ensures enough { IfOk result (λ _. key_least alg ≤ length key.now) }
        ensures short { IfErr result (λ _. length key.now < key_least alg) }
    {
        if key.len() < alg.key_min() {
            return Err(KeyShort);
        }
        let block = key_block(alg, key);
        let begun = match alg {
            Alg::Hs256 => Some(Begun::new(&block)),
            Alg::Hs384 | Alg::Hs512 => None,
        };
        Ok(HsKey { alg, block, begun })
    }

    /// The algorithm that it was made for.
    pub fn alg(&self) -> Alg
        ensures { result ≡ self.now.alg }
    {
        self.alg
    }

    /// The HMAC of the head, a full stop and the body: the signing input of RFC 7515 section 5.1.
    pub fn mac(&self, head: &str, body: &str) -> Mac
        ensures code { result ≡ mac_of self.now head.now body.now }
        ensures long { length result ≡ code_length self.now.alg }
    {
        let (inner, outer) = self.hashers();
        let inner = inner.with(head.as_bytes()).with(b".").with(body.as_bytes());
        code_over(inner, outer)
    }

    // The inner and the outer hash, each behind its padded block.
    fn hashers(&self) -> (Hasher, Hasher)
        ensures inner { IsHashing result.0 self.now.alg (xored self.now.block 0x36) }
        ensures outer { IsHashing result.1 self.now.alg (xored self.now.block 0x5c) }
        ensures whole { length self.now.block ≡ block_length self.now.alg }
    {
        match &self.begun {
            Some(begun) => begun.hashers(),
            None => (
                padded_hasher(self.alg, &self.block, INNER_PAD),
                padded_hasher(self.alg, &self.block, OUTER_PAD),
            ),
        }
    }

    /// Whether a text is the base64url text of a good signature. One that does not decode is none.
    pub fn check_text(
        &self,
        alloc: Global,
        head: &str,
        body: &str,
        text: &str,
    ) -> Result<bool, NoMemory>
        ensures { IfOk result
            (λ good. IsTrue good ↔ IsGoodText self.now head.now body.now text.now) }
    {
        match decode(alloc, text.as_bytes()) {
            Ok(signature) => Ok(self.check(head, body, signature.bytes())),
            Err(DecodeError::NotBase64) => Ok(false),
            Err(DecodeError::Memory) => Err(NoMemory),
        }
    }

    // The code as a signature.
    pub(crate) fn signature(
        &self,
        alloc: Global,
        head: &str,
        body: &str,
    ) -> Result<ByteBox, SignError>
        ensures good { IfOk result (IsGood self.now head.now body.now) }
        ensures some { IfOk result (λ signature. 0 < length signature) }
        ensures memory { IfErr result (λ error. error ≡ SignError.Memory) }
    {
        let mut signature = ByteBox::new(alloc);
        signature.append(self.mac(head, body).bytes())?;
        Ok(signature)
    }
}

impl Signatures for HsKey {
    ghost good = { IsGood };
}

impl Checker for HsKey {
    fn check(&self, head: &str, body: &str, signature: &[u8]) -> bool {
        are_equal(self.mac(head, body).bytes(), signature)
    }
}

impl Signer for HsKey {
    ghost faults = { λ _. 0 };

    ghost alg_name_of = { λ key. alg_text key.alg };

    fn alg_name(&self) -> AlgName<'_> {
        self.alg.alg_name()
    }

    fn sign(&mut self, alloc: Global, head: &str, body: &str) -> Result<ByteBox, SignError> {
        self.signature(alloc, head, body)
    }
}
