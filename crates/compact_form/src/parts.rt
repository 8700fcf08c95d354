// The parts of a token in compact form, which own their texts.
ghost use Rattle.std.specs.Prelude.{◌≡◌};
ghost use Rattle.compact_form.specs.Views.{jwt_of};

use crate::JwtView;
use sd_outside::{TextBox, TextList};

/// The three base64url texts of a JWS in compact serialization, RFC 7515 section 7.1.
#[derive(Debug, Drop)]
pub struct JwtParts {
    pub protected: TextBox,
    pub payload: TextBox,
    pub signature: TextBox,
}

impl JwtParts {
    /// The texts, borrowed.
    pub fn view(&self) -> JwtView<'_>
        ensures { jwt_of result ≡ self.now }
    {
        JwtView {
            protected: self.protected.as_str(),
            payload: self.payload.as_str(),
            signature: self.signature.as_str(),
        }
    }
}

/// The parts of an SD-JWT: the issuer's JWT, the disclosures, and the key
/// binding token where there is one.
#[derive(Debug, Drop)]
pub struct Parts {
    pub signed: JwtParts,
    pub disclosures: TextList,
    pub binding: Option<JwtParts>,
}
