// Who signs, and who checks.
ghost use Rattle.std.specs.Prelude.{◌≡◌, ◌<◌, ◌↔◌, ℕ, length, IfOk, IsTrue, IsErrOf};
ghost use Rattle.sd_outside.specs.Causes.{Rose};
ghost use Rattle.claim_tree.specs.Tree.{Text};
ghost use Rattle.hmac_sign.specs.Signatures.{Meaning};
ghost use Rattle.hmac_sign.specs.Agreement.{IsSameSigner};
ghost use Rattle.hmac_sign.specs.declared.sign.SignError.TheVariants.{Memory};

use crate::AlgName;
use sd_outside::{ByteBox, NoMemory};
use std::alloc::Global;

/// Why a signer answers no signature.
#[derive(Clone, Copy, Debug, PartialEq, Eq)]
pub enum SignError {
    /// There was no memory for it.
    Memory,
    /// The signer failed.
    Failed,
}

impl From<NoMemory> for SignError {
    ghost from_gives = { λ _ e. e ≡ Memory };

    fn from(_: NoMemory) -> Self {
        SignError::Memory
    }
}

/// Which signatures are good. A signer and its checker have this one meaning.
pub trait Signatures {
    ghost good: { Self → Meaning };
}

/// Who signs, by an algorithm of any name: a key that is held here, or whoever keeps one elsewhere.
pub trait Signer: Signatures {
    /// How often the signer has failed.
    ghost faults: { Self → ℕ };

    /// The name of the algorithm of its signatures.
    ghost alg_name_of: { Self → Text };

    /// The name of the algorithm of the signatures, as the `alg` of a JWS
    /// header has it (RFC 7515 section 4.1.1).
    fn alg_name(&self) -> AlgName<'_>
        ensures { result ≡ alg_name_of self.now };

    /// A signature of the head and the body.
    fn sign(&mut self, alloc: Global, head: &str, body: &str) -> Result<ByteBox, SignError>
        ensures good { IfOk result (Self.good self.old head.now body.now) }
        ensures some { IfOk result (λ signature. 0 < length signature) }
        ensures failed { IsErrOf result SignError.Failed
            → Rose (faults self.old) (faults self.new) }

        // what stays
        ensures kept { IsSameSigner Self.good alg_name_of faults self.old self.new };
}

/// Who checks signatures.
pub trait Checker: Signatures {
    /// Whether the signature is good for the head and the body. It takes no memory.
    fn check(&self, head: &str, body: &str, signature: &[u8]) -> bool
        ensures { IsTrue result ↔ Self.good self.now head.now body.now signature.now };
}
