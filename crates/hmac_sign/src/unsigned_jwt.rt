// A JWT that has no signature yet.
ghost use Rattle.std.specs.Prelude.{◌≡◌, ◌<◌, ◌++◌, ◌↔◌, [], codes, length, IfOk, OnOk, IsErrOf};
ghost use Rattle.sd_outside.specs.Causes.{Rose};
ghost use Rattle.hmac_sign.specs.Agreement.{IsSameSigner};
ghost use Rattle.hmac_sign.specs.SignedJwt.{IsSignedWith, IsSignedBy};

use crate::{SignError, Signer};
use b64url_text::encode;
use compact_form::JwtParts;
use sd_outside::{NoMemory, TextBox};
use std::alloc::Global;

/// What is to be signed of a JWT: its JWS header and its payload, as base64url texts. The signature
/// is over both, with a full stop between them (RFC 7515 section 5.1).
#[derive(Debug, Drop)]
pub struct UnsignedJwt {
    pub protected: TextBox,
    pub payload: TextBox,
}

impl UnsignedJwt {
    /// The text that the signature is over.
    pub fn text(&self, alloc: Global) -> Result<TextBox, NoMemory>
        ensures { IfOk result
            (λ text. text ≡ self.now.protected ++ (codes "." ++ self.now.payload)) }
    {
        let mut text = String::with_capacity(alloc, self.protected.as_str().len())?;
        text.push_str(self.protected.as_str())?;
        text.push('.')?;
        text.push_str(self.payload.as_str())?;
        Ok(TextBox::from_string(text))
    }

    /// The JWT with these bytes as its signature, whoever made them. Where there are none, nobody
    /// signed: the answer is [`SignError::Failed`].
    pub fn with_signature(self, alloc: Global, signature: &[u8]) -> Result<JwtParts, SignError>
        ensures signed { IfOk result (IsSignedWith self signature.now) }
        ensures some { OnOk result (0 < length signature.now) }
        ensures nobody { IsErrOf result SignError.Failed ↔ (signature.now ≡ []) }
    {
        if signature.is_empty() {
            return Err(SignError::Failed);
        }
        let signature = encode(alloc, signature)?;
        Ok(JwtParts {
            protected: self.protected,
            payload: self.payload,
            signature,
        })
    }

    /// The JWT with a signature of the signer, which is asked once.
    pub fn sign<S: Signer>(self, alloc: Global, signer: &mut S) -> Result<JwtParts, SignError>
        ensures signed { IfOk result (IsSignedBy self (S.good signer.old)) }
        ensures failed { IsErrOf result SignError.Failed
            → Rose (S.faults signer.old) (S.faults signer.new) }

        // what stays
        ensures kept { IsSameSigner S.good S.alg_name_of S.faults signer.old signer.new }
    {
        let signature = signer.sign(alloc, self.protected.as_str(), self.payload.as_str())?;
        self.with_signature(alloc, signature.bytes())
    }
}
