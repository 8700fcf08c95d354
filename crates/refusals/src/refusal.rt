// The refusals of the commands, with their numbers and names. The trusted core cites them.
ghost use Rattle.std.specs.Prelude.{◌≡◌};

use crate::Condition;

/// The reason for a refusal, with its printed number and name. A number never changes its meaning.
#[derive(Clone, Copy, Debug, PartialEq, Eq)]
pub enum Refusal {
    /// A token fails this condition: 1 to 38.
    Condition(Condition),
    /// 51: the payload of an order is not a JSON object.
    PayloadNotObject,
    /// 52: the payload of an order has a member with a reserved name.
    ReservedInPayload,
    /// 53: the payload of an order nests too deep.
    PayloadTooDeep,
    /// 54: a path to hide is the path of the whole payload.
    RootMarked,
    /// 55: a path to hide leads nowhere.
    NoSuchPlace,
    /// 56: a path to hide leads into a claim that a verifier has to see.
    ProtectedClaim,
    /// 57: decoys are ordered at a place that is not an object or an array of the payload.
    DecoyPlace,
    /// 58: the order hides too many places.
    TooManyHidden,
    /// 59: the order asks for too many decoys.
    TooManyDecoys,
    /// 60: two digests of the issued token are equal.
    DigestClash,
    /// 61: the issued token would be too long.
    IssueTooLong,
    /// 71: the token to be presented already has a key binding token.
    HasBinding,
    /// 72: a wanted path leads nowhere.
    WantedNotThere,
    /// 73: the holder's rule forbids the place of a disclosure that would have to be sent.
    ConsentRefused,
    /// 74: the token to be presented does not name the holder's key in `cnf`.
    BindingKeyDiffers,
    /// 75: the presentation would be too long.
    PresentTooLong,
    /// 77: no held credential meets the query.
    NoCredentialAnswers,
    /// 80: the order of an audited token is itself refused.
    OrderRefused,
    /// 81: the signed part of an audited token is not the one that its order asks for.
    SignedPartDiffers,
    /// 82: the payload or a disclosure of an audited token is not written as the issuer writes it.
    WrittenFormDiffers,
    /// 83: the disclosures of an audited token do not open it to its order's payload.
    PayloadDiffers,
    /// 84: the digests of an audited token are not those of its disclosures and
    /// of its order's decoys.
    DigestsDiffer,
    /// 85: the decoys of an audited token are not at the places that its order asks for.
    DecoysDiffer,
    /// 86: an array `_sd` of an audited token is empty or is not in ascending order.
    SdOrderDiffers,
    /// 87: the input of a feed is too long.
    FeedTooLong,
}

impl Refusal {
    ghost use Rattle.refusals.specs.Refusal.{refusal_number, refusal_name};

    /// Returns the printed number.
    pub fn number(self) -> u8
        ensures { result ≡ refusal_number self }
    {
        match self {
            Refusal::Condition(condition) => condition.number(),
            Refusal::PayloadNotObject => 51,
            Refusal::ReservedInPayload => 52,
            Refusal::PayloadTooDeep => 53,
            Refusal::RootMarked => 54,
            Refusal::NoSuchPlace => 55,
            Refusal::ProtectedClaim => 56,
            Refusal::DecoyPlace => 57,
            Refusal::TooManyHidden => 58,
            Refusal::TooManyDecoys => 59,
            Refusal::DigestClash => 60,
            Refusal::IssueTooLong => 61,
            Refusal::HasBinding => 71,
            Refusal::WantedNotThere => 72,
            Refusal::ConsentRefused => 73,
            Refusal::BindingKeyDiffers => 74,
            Refusal::PresentTooLong => 75,
            Refusal::NoCredentialAnswers => 77,
            Refusal::OrderRefused => 80,
            Refusal::SignedPartDiffers => 81,
            Refusal::WrittenFormDiffers => 82,
            Refusal::PayloadDiffers => 83,
            Refusal::DigestsDiffer => 84,
            Refusal::DecoysDiffer => 85,
            Refusal::SdOrderDiffers => 86,
            Refusal::FeedTooLong => 87,
        }
    }

    /// Returns the printed name.
    pub fn name(self) -> &'static str
        ensures { result.now ≡ refusal_name self }
    {
        match self {
            Refusal::Condition(condition) => condition.name(),
            Refusal::PayloadNotObject => "payloadNotObject",
            Refusal::ReservedInPayload => "reservedInPayload",
            Refusal::PayloadTooDeep => "payloadTooDeep",
            Refusal::RootMarked => "rootMarked",
            Refusal::NoSuchPlace => "noSuchPlace",
            Refusal::ProtectedClaim => "protectedClaim",
            Refusal::DecoyPlace => "decoyPlace",
            Refusal::TooManyHidden => "tooManyHidden",
            Refusal::TooManyDecoys => "tooManyDecoys",
            Refusal::DigestClash => "digestClash",
            Refusal::IssueTooLong => "issueTooLong",
            Refusal::HasBinding => "hasBinding",
            Refusal::WantedNotThere => "wantedNotThere",
            Refusal::ConsentRefused => "consentRefused",
            Refusal::BindingKeyDiffers => "bindingKeyDiffers",
            Refusal::PresentTooLong => "presentTooLong",
            Refusal::NoCredentialAnswers => "noCredentialAnswers",
            Refusal::OrderRefused => "orderRefused",
            Refusal::SignedPartDiffers => "signedPartDiffers",
            Refusal::WrittenFormDiffers => "writtenFormDiffers",
            Refusal::PayloadDiffers => "payloadDiffers",
            Refusal::DigestsDiffer => "digestsDiffer",
            Refusal::DecoysDiffer => "decoysDiffer",
            Refusal::SdOrderDiffers => "sdOrderDiffers",
            Refusal::FeedTooLong => "feedTooLong",
        }
    }
}
