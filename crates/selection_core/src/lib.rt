//! What a holder shows of a credential: the disclosures that lead to the wanted places (RFC 9901
//! section 7.2), and whether the holder consents.
//!
//! [`choose`] answers the marks that are to be shown, and [`allow`] asks the rule of a [`Consent`]
//! for the place of each. [`NeverPlaces`] is the rule by places that are never shown.
#![tactic(auto)]

mod allowing;
mod choosing;
mod consent;
mod errors;
mod never;

pub use allowing::allow;
pub use choosing::choose;
pub use consent::Consent;
pub use errors::{AllowError, ChooseError};
pub use never::NeverPlaces;
