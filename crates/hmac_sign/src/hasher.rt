// A hash in the making, by the algorithm of the signature that it is for.
ghost use Rattle.std.specs.Prelude.{◌≡◌, ℕ, List, ◌++◌};
ghost use Rattle.hmac_sign.specs.Algs.{hash_by};
ghost use Rattle.hmac_sign.specs.Codes.{IsHashing};
ghost use Rattle.hmac_sign.specs.declared.alg.Alg.{Alg};

use crate::Alg;
use crate::mac_code::{Code, Mac};
use sha2::{Digest, Sha256, Sha384, Sha512};

#[derive(Drop)]
pub(crate) enum Hasher {
    Sha256(Sha256),
    Sha384(Sha384),
    Sha512(Sha512),
}

impl Hasher {
    // The hash of the algorithm, of these bytes so far.
    pub(crate) fn new(alg: Alg, bytes: &[u8]) -> Hasher
        ensures { IsHashing result alg bytes.now }
    {
        match alg {
            Alg::Hs256 => Hasher::Sha256(Sha256::new_with_prefix(bytes)),
            Alg::Hs384 => Hasher::Sha384(Sha384::new_with_prefix(bytes)),
            Alg::Hs512 => Hasher::Sha512(Sha512::new_with_prefix(bytes)),
        }
    }

    // With these bytes behind them.
    pub(crate) fn with(self, bytes: &[u8]) -> Hasher
        ensures { (alg : Alg) (message : List ℕ) → IsHashing self alg message
            → IsHashing result alg (message ++ bytes.now) }
    {
        match self {
            Hasher::Sha256(hasher) => Hasher::Sha256(hasher.chain_update(bytes)),
            Hasher::Sha384(hasher) => Hasher::Sha384(hasher.chain_update(bytes)),
            Hasher::Sha512(hasher) => Hasher::Sha512(hasher.chain_update(bytes)),
        }
    }

    // The hash of all of them.
    pub(crate) fn finish(self) -> Mac
        ensures { (alg : Alg) (message : List ℕ) → IsHashing self alg message
            → result ≡ hash_by alg message }
    {
        let code = match self {
            Hasher::Sha256(hasher) => Code::Sha256(hasher.finalize()),
            Hasher::Sha384(hasher) => Code::Sha384(hasher.finalize()),
            Hasher::Sha512(hasher) => Code::Sha512(hasher.finalize()),
        };
        Mac { code }
    }
}
