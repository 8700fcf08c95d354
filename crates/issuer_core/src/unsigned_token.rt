// A token that is not signed yet.
ghost use Rattle.std.specs.Prelude.{◌≡◌, ◌<◌, ◌≤◌, length, None, IfOk, OnOk, IfErr, IsErrOf};
ghost use Rattle.sd_outside.specs.Causes.{Rose};
ghost use Rattle.sd_outside.specs.Limits.{issue_max};
ghost use Rattle.compact_form.specs.Compact.{compact, AreWords};
ghost use Rattle.hmac_sign.specs.Agreement.{IsSameSigner};
ghost use Rattle.issuer_core.specs.ToSign.{AreUnsignedWords, IsTokenWith, IsTokenBy, IsUnmadeWith, IsTokenUnmade};
ghost use Rattle.issuer_core.specs.declared.errors.IssueError.{IssueError};

use crate::IssueError;
use compact_form::{ISSUE_MAX, JwtParts, Parts, is_longer_than};
use hmac_sign::{Signer, UnsignedJwt};
use sd_outside::TextList;
use std::alloc::Global;

/// A token of an issuer that is not signed yet: what is to be signed of its
/// JWT, and the disclosures.
#[derive(Debug, Drop)]
pub struct UnsignedToken {
    pub jwt: UnsignedJwt,
    pub disclosures: TextList,
}

impl UnsignedToken {
    /// The token with these bytes as the issuer's signature, whoever made them: the compact parts
    /// of an SD-JWT without a key binding token. It may be too long with them. Where there are no
    /// bytes, nobody signed: the answer is [`IssueError::SignFailed`].
    pub fn signed(self, alloc: Global, signature: &[u8]) -> Result<Parts, IssueError>
        ensures signed { IfOk result (IsTokenWith self signature.now) }
        ensures some { OnOk result (0 < length signature.now) }
        ensures words { AreUnsignedWords self → IfOk result AreWords }
        ensures short { IfOk result (λ parts. length (compact parts) ≤ issue_max) }
        ensures refused { IfErr result (IsUnmadeWith self signature.now) }
    {
        let signed = match self.jwt.with_signature(alloc, signature) {
            Ok(signed) => signed,
            Err(error) => return Err(IssueError::from(error)),
        };
        within_limit(token_of(signed, self.disclosures))
    }

    // The token with a signature of the signer, which is asked once.
    pub(crate) fn sign<S: Signer>(self, alloc: Global, signer: &mut S) -> Result<Parts, IssueError>
        ensures signed { IfOk result (IsTokenBy self (S.good signer.old)) }
        ensures short { IfOk result (λ parts. length (compact parts) ≤ issue_max) }
        ensures refused { IfErr result (IsTokenUnmade self (S.good signer.old)) }
        ensures failed { IsErrOf result IssueError.SignFailed
            → Rose (S.faults signer.old) (S.faults signer.new) }

        // what stays
        ensures kept { IsSameSigner S.good S.alg_name_of S.faults signer.old signer.new }
    {
        let signed = match self.jwt.sign(alloc, signer) {
            Ok(signed) => signed,
            Err(error) => return Err(IssueError::from(error)),
        };
        within_limit(token_of(signed, self.disclosures))
    }
}

fn token_of(signed: JwtParts, disclosures: TextList) -> Parts
    ensures { result ≡ record { signed = signed; disclosures = disclosures; binding = None } }
{
    Parts {
        signed,
        disclosures,
        binding: None,
    }
}

// Refusal 61: the compact text is too long.
fn within_limit(parts: Parts) -> Result<Parts, IssueError>
    ensures short { IfOk result (λ same. (same ≡ parts) × (length (compact parts) ≤ issue_max)) }
    ensures long { IfErr result
        (λ error. (error ≡ IssueError.TooLong) × (issue_max < length (compact parts))) }
{
    if is_longer_than(&parts, ISSUE_MAX) {
        return Err(IssueError::TooLong);
    }
    Ok(parts)
}
