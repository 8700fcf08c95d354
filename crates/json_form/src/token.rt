// A token in whichever of the three forms it came.
ghost use Rattle.std.specs.Prelude.{◌≡◌, IfOk, IsErrOf};
ghost use Rattle.refusals.specs.declared.fault.Fault.{Fault as TheFault};
ghost use Rattle.json_form.specs.Token.{IsToken, IsTextRefused};
ghost use Rattle.json_form.specs.Printable.{IsPrintable};

use crate::{JsonFormError, TokenText, TokenView};
use claim_tree::TreeMap;
use compact_form::Parts;
use refusals::{Condition, Fault, Place};
use sd_outside::NoMemory;
use std::alloc::Global;

/// A token: its parts, and what a JSON serialization says beside them.
#[derive(Debug, Drop)]
pub struct Token {
    /// The issuer's JWT, the disclosures and the key binding token.
    pub parts: Parts,
    /// The members of the unprotected header other than `disclosures` and `kb_jwt` (RFC 9901
    /// section 8). A compact token has none.
    pub outer: TreeMap,
}

impl Token {
    /// The token, borrowed.
    pub fn view(&self) -> TokenView<'_>
        ensures { result ≡ self.now }
    {
        TokenView::apart(&self.parts, &self.outer)
    }
}

/// Why a text has no token to show.
#[derive(Clone, Copy, Debug, PartialEq, Eq)]
pub enum TokenError {
    /// There was no memory for its parts.
    Memory,
    /// The lowest condition of 1 to 3 that fails.
    Fault(Fault),
}

impl From<NoMemory> for TokenError {
    ghost use Rattle.json_form.specs.declared.token.TokenError.TheVariants.{Memory};

    ghost from_gives = { λ _ e. e ≡ Memory };

    fn from(_: NoMemory) -> Self {
        TokenError::Memory
    }
}

impl From<Fault> for TokenError {
    ghost use Rattle.json_form.specs.declared.token.TokenError.{TokenError};

    ghost from_gives = { λ fault e. e ≡ TokenError.Fault fault };

    fn from(fault: Fault) -> Self {
        TokenError::Fault(fault)
    }
}

impl From<JsonFormError> for TokenError {
    ghost use Rattle.json_form.specs.MembersRead.{misformed};

    ghost from_gives = { λ error e. e ≡ misformed error };

    fn from(error: JsonFormError) -> Self {
        match error {
            JsonFormError::Memory => TokenError::Memory,
            JsonFormError::Fault(place) => {
                TokenError::Fault(Condition::Form.fault_at(Place::Json(place)))
            }
        }
    }
}

/// The token of a text as it comes from a file, or the lowest condition of 1 to 3 that fails.
///
/// The blanks at both ends are cut off first. A text that then begins with `{`
/// is a JSON serialization, flattened or general (RFC 9901 section 8); any
/// other is the compact one (section 4).
pub fn read_token(alloc: Global, text: &[u8]) -> Result<Token, TokenError>
    ensures ok { IfOk result (IsToken text.now) }
    ensures printable { IfOk result IsPrintable }
    ensures refused { (fault : TheFault) → IsErrOf result (TokenError.Fault fault)
        → IsTextRefused text.now fault }
{
    let token = match TokenText::read(alloc, text) {
        Ok(token) => token,
        Err(error) => return Err(error),
    };
    Ok(token.into_token(alloc)?)
}
