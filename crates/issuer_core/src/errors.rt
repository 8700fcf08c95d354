// Why nothing is issued.
use claim_tree::Path;
use hmac_sign::SignError;
use sd_outside::NoMemory;

/// Why an order is not issued.
///
/// Beside `Memory` and `SignFailed` these are the refusals 51 to 61, in the order in which they are
/// judged. Of those that apply the first is answered, and of its places the least, counted from 0.
#[derive(Debug, Drop)]
pub enum IssueError {
    /// There was no memory for the token.
    Memory,
    /// The signer failed, or gave a signature of no bytes, where none of 51 to 60 applies.
    SignFailed,
    /// 51: the payload is no object.
    PayloadNotObject,
    /// 52: an object in the payload has a member `_sd`, `_sd_alg` or `...`.
    /// This is the path of the first.
    ReservedName(Path),
    /// 53: the payload nests deeper than [`DEPTH_MAX`](crate::DEPTH_MAX).
    TooDeep,
    /// 54: this path to hide is that of the whole payload.
    RootMarked(usize),
    /// 55: this path to hide leads nowhere in the payload.
    NoSuchPlace(usize),
    /// 56: this path to hide leads into `iss`, `aud`, `exp`, `nbf` or `cnf` (RFC 9901 section 9.7).
    ProtectedClaim(usize),
    /// 57: the place of this entry of decoys is no object and no list of the payload.
    DecoyPlace(usize),
    /// 58: there are more than [`COUNT_MAX`](compact_form::COUNT_MAX) different paths to hide.
    TooManyHidden,
    /// 59: there are more than [`COUNT_MAX`](compact_form::COUNT_MAX) decoys.
    TooManyDecoys,
    /// 60: the digests at these two places are equal, those of disclosures
    /// first and then those of decoys.
    DigestClash(usize, usize),
    /// 61: the compact text has more than [`ISSUE_MAX`](compact_form::ISSUE_MAX) bytes.
    TooLong,
}

impl From<NoMemory> for IssueError {
    ghost use Rattle.std.specs.Prelude.{◌≡◌};
    ghost use Rattle.issuer_core.specs.declared.errors.IssueError.TheVariants.{Memory};

    ghost from_gives = { λ _ e. e ≡ Memory };

    fn from(_: NoMemory) -> Self {
        IssueError::Memory
    }
}

impl From<SignError> for IssueError {
    ghost use Rattle.std.specs.Prelude.{◌≡◌};
    ghost use Rattle.issuer_core.specs.IssueCalls.{issue_unsigned};

    ghost from_gives = { λ error e. e ≡ issue_unsigned error };

    fn from(error: SignError) -> Self {
        match error {
            SignError::Memory => IssueError::Memory,
            SignError::Failed => IssueError::SignFailed,
        }
    }
}
