// What a caller says of signatures that it checks itself.
ghost use Rattle.std.specs.Prelude.{◌↔◌, IsTrue, IfOk};
ghost use Rattle.key_binding.specs.Caller.{IsAlgUntaken, IsUnknownTo, IsBadTo};
ghost use Rattle.key_binding.specs.CallerSeen.{Tells, caller_of};

use b64url_text::{DecodeError, decode};
use hmac_sign::AlgName;
use sd_outside::{NoMemory, TextList};
use std::alloc::Global;

/// What there is to say of a signature.
#[derive(Clone, Copy, Debug, PartialEq, Eq)]
pub enum SignatureAnswer {
    /// There is no key for it.
    Unknown,
    /// It is not good under the key.
    Bad,
    /// It is good under the key.
    Good,
}

/// A caller that checks signatures itself, where their keys are not held here:
/// those of elliptic curves, say, or shared ones beside them.
#[derive(Clone, Copy)]
pub struct Caller<'a> {
    /// The algorithms that it takes, by their names in RFC 7518 section 3.1 or
    /// RFC 8037 section 3.1. The empty name and `none` are not taken even where
    /// they stand among them. Who takes `HS256` beside others has to check it
    /// under shared keys alone, so that nobody can use a public key as one (RFC
    /// 8725 section 3.1).
    pub algs: &'a TextList,
    /// What it says of the signature, where it was asked.
    pub answer: Option<SignatureAnswer>,
}

impl Caller<'_> {
    /// Whether it does not take signatures of the algorithm of this name.
    pub fn refuses(self, alg: &str) -> bool
        ensures { IsTrue result ↔ IsAlgUntaken (caller_of self.entry) alg.now }
    {
        AlgName::new(alg).is_none() || !self.algs.contains(alg)
    }

    /// What it says of the signature of this base64url text. Where it says nothing, or the text is
    /// that of no bytes, the signature is bad.
    pub fn tells(self, alloc: Global, signature: &str) -> Result<SignatureAnswer, NoMemory>
        ensures { IfOk result
            (λ answer. Tells answer (IsUnknownTo (caller_of self.entry) signature.now)
            (IsBadTo (caller_of self.entry) signature.now)) }
    {
        match decode(alloc, signature.as_bytes()) {
            Ok(_) => Ok(self.answer.unwrap_or(SignatureAnswer::Bad)),
            Err(DecodeError::Memory) => Err(NoMemory),
            Err(DecodeError::NotBase64) => Ok(SignatureAnswer::Bad),
        }
    }
}
