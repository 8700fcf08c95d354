// The nonce that a policy asks of a key binding token, set anew.
ghost use Rattle.std.specs.Prelude.{◌≡◌, ◌↔◌, ◌<◌, length, IsSome, IsNone, OnOk, OnErr, IsErrOf};
ghost use Rattle.sd_outside.specs.Limits.{binding_text_max};
ghost use Rattle.verifier_core.specs.Nonces.{with_nonce};

use crate::Policy;
use key_binding::BINDING_TEXT_MAX;
use sd_outside::{NoMemory, TextBox};
use std::alloc::Global;

/// Why a policy does not take a nonce.
#[derive(Clone, Copy, Debug, PartialEq, Eq)]
pub enum NonceError {
    /// There was no memory for it.
    Memory,
    /// The policy asks for no key binding token.
    NoBinding,
    /// It has more than [`BINDING_TEXT_MAX`] bytes.
    TooLong,
}

impl Policy {
    /// Sets the nonce that a key binding token has to have (RFC 9901 section 4.3), in the place of
    /// the one before. A verifier needs a new nonce for each presentation: so it reads its policy
    /// once, and sets the nonce before each call.
    ///
    /// The nonce has at most [`BINDING_TEXT_MAX`] bytes.
    pub fn set_nonce(&mut self, alloc: Global, nonce: &str) -> Result<(), NonceError>
        ensures ok { OnOk result (self.new ≡ with_nonce self.old nonce.now) }
        ensures no_binding { IsErrOf result NonceError.NoBinding ↔ IsNone self.old.binding }
        ensures too_long { IsErrOf result NonceError.TooLong
            ↔ (IsSome self.old.binding × (binding_text_max < length nonce.now)) }
        ensures kept { OnErr result (self.new ≡ self.old) }
    {
        let Some(binding) = &mut self.binding else {
            return Err(NonceError::NoBinding);
        };
        if nonce.len() > BINDING_TEXT_MAX {
            return Err(NonceError::TooLong);
        }
        match TextBox::make(alloc, nonce) {
            Ok(nonce) => {
                binding.nonce = nonce;
                Ok(())
            }
            Err(NoMemory) => Err(NonceError::Memory),
        }
    }
}
