// The 38 conditions of a verdict, with their numbers and names. The trusted core cites them.
ghost use Rattle.std.specs.Prelude.{◌≡◌};
ghost use Rattle.refusals.specs.Faults.{fault_at as fault_of, unplaced};

use crate::{Fault, Place};

/// A condition of a verifier, RFC 9901 section 7.3, with its number. Each condition is named for
/// its failure, and a verifier judges them in this order.
#[derive(Clone, Copy, Debug, PartialEq, Eq)]
pub enum Condition {
    /// The token is too long.
    TooLong = 1,
    /// The token is in no form of RFC 9901 sections 4 and 8.
    Form = 2,
    /// The token has too many disclosures, or would be too long in the compact form.
    TooMuch = 3,
    /// The policy asks for key binding, and the token has no key binding token (section 4.3).
    BindingMissing = 4,
    /// A header of the token cannot be read.
    HeaderUnreadable = 5,
    /// A header of the token has a member `crit` (RFC 7515 section 4.1.11).
    HeaderCritical = 6,
    /// The policy does not allow the algorithm that the header names.
    AlgRefused = 7,
    /// The `typ` of the header is missing or is not the one that the policy names.
    TypeRefused = 8,
    /// The key set has no key for the issuer's signature.
    IssuerKeyUnknown = 9,
    /// The issuer's signature is not valid for the header and the payload.
    BadSignature = 10,
    /// The signed payload cannot be read as a JSON object.
    PayloadUnreadable = 11,
    /// The hash that `_sd_alg` of the payload names is not supported (section 4.1.1).
    HashUnknown = 12,
    /// A disclosure cannot be read (section 4.2).
    DisclosureUnreadable = 13,
    /// Two disclosures have the same digest.
    RepeatedDisclosure = 14,
    /// A reserved name is misused: `_sd` is not an array of strings, or `...` is not the only
    /// member, with a string value, of an array element (section 4.2.4).
    ReservedMisused = 15,
    /// The same digest appears at two places.
    RepeatedDigest = 16,
    /// A disclosure is not referenced by any digest.
    UnreferencedDisclosure = 17,
    /// A disclosure has a name where it may not, or lacks one where it must have it.
    WrongShape = 18,
    /// A disclosure gives a claim a reserved name.
    ReservedName = 19,
    /// A disclosure gives a claim a name that its object already has.
    NameClash = 20,
    /// The processed payload nests too deep.
    TooDeep = 21,
    /// The claim `iss` is missing or is not one of the issuers that the policy names.
    IssuerRefused = 22,
    /// A claim that the policy requires is missing.
    ClaimMissing = 23,
    /// The claim `exp` or `nbf` is present and is not a whole number.
    TimeUnreadable = 24,
    /// The token has expired: the time `exp` has come, even with the allowed clock skew.
    Expired = 25,
    /// The token is not valid yet: the time `nbf` has not come, even with the allowed skew.
    NotYet = 26,
    /// The policy has no key for the holder whom the claim `cnf` names.
    HolderKeyUnknown = 27,
    /// The header of the key binding token cannot be read, or it has `crit`.
    BindingHeader = 28,
    /// The algorithm of the key binding token is not accepted.
    BindingAlg = 29,
    /// The signature of the key binding token is not valid for the holder's key.
    BindingSignature = 30,
    /// The `typ` of the key binding token is missing or is not `kb+jwt`.
    BindingType = 31,
    /// The payload of the key binding token cannot be read.
    BindingPayload = 32,
    /// The key binding token is older than `max_age` and the clock skew allow.
    BindingStale = 33,
    /// The key binding token was made in the future, by more than the clock skew.
    BindingEarly = 34,
    /// The nonce of the key binding token is not the one that the policy names.
    NonceDiffers = 35,
    /// The audience of the key binding token is not one that the policy names.
    AudienceDiffers = 36,
    /// The `sd_hash` of the key binding token is not the digest of the token (section 4.3.1).
    HashDiffers = 37,
    /// The key binding token has expired, is not valid yet, or has an unreadable time.
    BindingTime = 38,
}

impl Condition {
    ghost use Rattle.refusals.specs.Condition.{number_of, name_of};

    /// Returns the number that is printed if the condition fails: from 1 to 38.
    pub fn number(self) -> u8
        ensures { result ≡ number_of self }
    {
        self as u8
    }

    /// Returns the printed name.
    pub fn name(self) -> &'static str
        ensures { result.now ≡ name_of self }
    {
        match self {
            Condition::TooLong => "tooLong",
            Condition::Form => "form",
            Condition::TooMuch => "tooMuch",
            Condition::BindingMissing => "bindingMissing",
            Condition::HeaderUnreadable => "headerUnreadable",
            Condition::HeaderCritical => "headerCritical",
            Condition::AlgRefused => "algRefused",
            Condition::TypeRefused => "typeRefused",
            Condition::IssuerKeyUnknown => "issuerKeyUnknown",
            Condition::BadSignature => "badSignature",
            Condition::PayloadUnreadable => "payloadUnreadable",
            Condition::HashUnknown => "hashUnknown",
            Condition::DisclosureUnreadable => "disclosureUnreadable",
            Condition::RepeatedDisclosure => "repeatedDisclosure",
            Condition::ReservedMisused => "reservedMisused",
            Condition::RepeatedDigest => "repeatedDigest",
            Condition::UnreferencedDisclosure => "unreferencedDisclosure",
            Condition::WrongShape => "wrongShape",
            Condition::ReservedName => "reservedName",
            Condition::NameClash => "nameClash",
            Condition::TooDeep => "tooDeep",
            Condition::IssuerRefused => "issuerRefused",
            Condition::ClaimMissing => "claimMissing",
            Condition::TimeUnreadable => "timeUnreadable",
            Condition::Expired => "expired",
            Condition::NotYet => "notYet",
            Condition::HolderKeyUnknown => "holderKeyUnknown",
            Condition::BindingHeader => "bindingHeader",
            Condition::BindingAlg => "bindingAlg",
            Condition::BindingSignature => "bindingSignature",
            Condition::BindingType => "bindingType",
            Condition::BindingPayload => "bindingPayload",
            Condition::BindingStale => "bindingStale",
            Condition::BindingEarly => "bindingEarly",
            Condition::NonceDiffers => "nonceDiffers",
            Condition::AudienceDiffers => "audienceDiffers",
            Condition::HashDiffers => "hashDiffers",
            Condition::BindingTime => "bindingTime",
        }
    }

    /// Returns the fault of this condition without a place.
    pub fn fault(self) -> Fault
        ensures { result ≡ unplaced self }
    {
        self.fault_at(Place::Nowhere)
    }

    /// Returns the fault of this condition at `place`.
    pub fn fault_at(self, place: Place) -> Fault
        ensures { result ≡ fault_of self place }
    {
        Fault {
            number: self.number(),
            place,
        }
    }
}
