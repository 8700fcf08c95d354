// A condition that fails, with its place. The trusted core cites it.
ghost use Rattle.std.specs.Prelude.{◌≡◌};
ghost use Rattle.refusals.specs.declared.condition.Condition.{Condition};
ghost use Rattle.refusals.specs.Condition.{number_of};
ghost use Rattle.refusals.specs.Numbered.{one_numbered};

use crate::Condition;

/// A condition of a verifier that failed: its number, and the place of the failure.
#[derive(Clone, Copy, Debug, PartialEq, Eq)]
pub struct Fault {
    /// The number of a [`Condition`](crate::Condition), from 1 to 38.
    pub number: u8,
    pub place: Place,
    pub ghost of_condition: { (condition : Condition) × (number ≡ number_of condition) } by { one_numbered number },
}

impl Fault {
    ghost use Rattle.refusals.specs.Faults.{failed_of};

    /// Returns the condition that failed.
    pub fn condition(&self) -> Condition
        ensures { result ≡ failed_of self.now }
    {
        match self.number {
            1 => Condition::TooLong,
            2 => Condition::Form,
            3 => Condition::TooMuch,
            4 => Condition::BindingMissing,
            5 => Condition::HeaderUnreadable,
            6 => Condition::HeaderCritical,
            7 => Condition::AlgRefused,
            8 => Condition::TypeRefused,
            9 => Condition::IssuerKeyUnknown,
            10 => Condition::BadSignature,
            11 => Condition::PayloadUnreadable,
            12 => Condition::HashUnknown,
            13 => Condition::DisclosureUnreadable,
            14 => Condition::RepeatedDisclosure,
            15 => Condition::ReservedMisused,
            16 => Condition::RepeatedDigest,
            17 => Condition::UnreferencedDisclosure,
            18 => Condition::WrongShape,
            19 => Condition::ReservedName,
            20 => Condition::NameClash,
            21 => Condition::TooDeep,
            22 => Condition::IssuerRefused,
            23 => Condition::ClaimMissing,
            24 => Condition::TimeUnreadable,
            25 => Condition::Expired,
            26 => Condition::NotYet,
            27 => Condition::HolderKeyUnknown,
            28 => Condition::BindingHeader,
            29 => Condition::BindingAlg,
            30 => Condition::BindingSignature,
            31 => Condition::BindingType,
            32 => Condition::BindingPayload,
            33 => Condition::BindingStale,
            34 => Condition::BindingEarly,
            35 => Condition::NonceDiffers,
            36 => Condition::AudienceDiffers,
            37 => Condition::HashDiffers,
            38 => Condition::BindingTime,
            _ => unreachable!(),
        }
    }
}

/// The place at which a condition failed.
#[derive(Clone, Copy, Debug, PartialEq, Eq)]
pub enum Place {
    /// The failure has no place.
    Nowhere,
    /// A position, counted from 0: of a byte, a disclosure, a digest or a name.
    At(usize),
    /// A place in a JSON serialization.
    Json(JsonPlace),
}

/// A member of a JSON serialization, RFC 9901 section 8.
#[derive(Clone, Copy, Debug, PartialEq, Eq)]
pub enum Part {
    Payload,
    Protected,
    Signature,
    Signatures,
    Header,
    Disclosures,
    KbJwt,
}

impl Part {
    ghost use Rattle.refusals.specs.PartWords.{part_word};

    /// Returns the name of the member in the serialization.
    pub fn word(self) -> &'static str
        ensures { result.now ≡ part_word self }
    {
        match self {
            Part::Payload => "payload",
            Part::Protected => "protected",
            Part::Signature => "signature",
            Part::Signatures => "signatures",
            Part::Header => "header",
            Part::Disclosures => "disclosures",
            Part::KbJwt => "kb_jwt",
        }
    }
}

/// What is wrong with a JSON serialization.
#[derive(Clone, Copy, Debug, PartialEq, Eq)]
pub enum JsonPlace {
    /// The input is not JSON.
    NotJson,
    /// A number is not a whole number.
    NotWhole,
    /// The value is not an object.
    NotObject,
    /// A member is missing.
    Missing(Part),
    /// A member does not have its required form.
    Wrong(Part),
    /// A later entry of `signatures` has members that only the first may have. Counted from 0.
    Stray(usize),
}
