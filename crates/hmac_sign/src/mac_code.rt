// The code of an HMAC.
ghost use Rattle.std.specs.Prelude.{◌≡◌};

use std::marker::Model;

// The bytes of a code, by the hash that they are of.
#[derive(Drop)]
pub(crate) enum Code {
    Sha256([u8; 32]),
    Sha384([u8; 48]),
    Sha512([u8; 64]),
}

/// The code of an HMAC: 32, 48 or 64 bytes. Contracts see it as their list.
#[derive(Drop)]
pub struct Mac {
    pub(crate) code: Code,
}

impl Model for Mac {
    ghost use Rattle.std.specs.Prelude.{List, ℕ};
    ghost use Rattle.hmac_sign.specs.Codes.{code_bytes};

    ghost Value = { List ℕ };

    ghost view = { λ mac. code_bytes mac.code };
}

impl Mac {
    /// Its bytes.
    pub fn bytes(&self) -> &[u8]
        ensures { result.now ≡ self.now }
    {
        match &self.code {
            Code::Sha256(code) => code,
            Code::Sha384(code) => code,
            Code::Sha512(code) => code,
        }
    }
}
