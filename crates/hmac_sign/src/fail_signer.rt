// A signer for tests that fails where it is told to.
ghost use Rattle.std.specs.Prelude.{◌≡◌, ◌<◌, ◌↔◌, length, IfOk, IsErrOf};
ghost use Rattle.sd_outside.specs.Causes.{Rose};
ghost use Rattle.hmac_sign.specs.Algs.{alg_text};
ghost use Rattle.hmac_sign.specs.declared.alg.Alg.TheVariants.{Hs256};
ghost use Rattle.hmac_sign.specs.FailState.{after_call};
ghost use Rattle.hmac_sign.specs.Hmac.{IsGood, hs256_key};
ghost use Rattle.hmac_sign.specs.Agreement.{IsSameSigner};

use crate::{Alg, AlgName, Hs256Key, SignError, Signatures, Signer};
use sd_outside::ByteBox;
use std::alloc::Global;
use std::marker::Model;

/// A key that fails to sign at one call.
#[derive(Drop)]
pub struct FailSigner {
    key: Hs256Key,
    call: u64,
    calls: u64,
    faults: u64,
}

impl Model for FailSigner {
    ghost use Rattle.hmac_sign.specs.FailState.{FailState};

    ghost Value = { FailState };

    ghost view = { λ s. record { key = s.key; call = s.call; calls = s.calls; faults = s.faults } };
}

impl FailSigner {
    /// Signs as the key does, but fails the call of this number, counted from 0.
    pub fn new(key: Hs256Key, call: u64) -> FailSigner
        ensures { result ≡ record { key = key; call = call; calls = 0; faults = 0 } }
    {
        FailSigner {
            key,
            call,
            calls: 0,
            faults: 0,
        }
    }

    /// The algorithm of its key.
    pub fn alg(&self) -> Alg
        ensures { result ≡ Hs256 }
    {
        self.key.alg()
    }

    /// The number of calls that failed.
    pub fn failures(&self) -> u64
        ensures { result ≡ self.now.faults }
    {
        self.faults
    }
}

impl Signatures for FailSigner {
    ghost good = { λ s. IsGood (hs256_key s.key) };
}

impl Signer for FailSigner {
    ghost faults = { λ s. s.faults };

    ghost alg_name_of = { λ _. alg_text Hs256 };

    fn alg_name(&self) -> AlgName<'_> {
        self.key.alg_name()
    }

    fn sign(&mut self, alloc: Global, head: &str, body: &str) -> Result<ByteBox, SignError>
        // the clauses of the trait
        ensures good { IfOk result (IsGood (hs256_key self.old.key) head.now body.now) }
        ensures some { IfOk result (λ signature. 0 < length signature) }
        ensures failed { IsErrOf result SignError.Failed → Rose self.old.faults self.new.faults }
        ensures kept { IsSameSigner
            (λ signer. IsGood (hs256_key signer.key)) (λ _. alg_text Hs256)
            (λ signer. signer.faults) self.old self.new }

        // it fails exactly at its call, and just then it counts
        ensures fails { IsErrOf result SignError.Failed ↔ (self.old.calls ≡ self.old.call) }
        ensures counts { self.new ≡ after_call self.old }
    {
        let call = self.calls;
        self.calls = call.saturating_add(1);
        if call == self.call {
            self.faults = self.faults.saturating_add(1);
            return Err(SignError::Failed);
        }
        self.key.as_key().signature(alloc, head, body)
    }
}
