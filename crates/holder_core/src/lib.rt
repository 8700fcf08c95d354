//! What a holder does with a credential: it shows the places that it is asked
//! for, and no more (RFC 9901 section 7.2).
//!
//! [`read_present`] reads an [`Ask`] from its file, with the places that are never shown and the
//! key of the holder. [`present`] answers it: the disclosures that lead to the wanted places, where
//! the holder consents, with a key binding token where one is asked for. [`refusal_line`] is the
//! line that tells why it does not. Two of its steps may be taken apart: [`check_held`] judges a
//! token that is held, and [`parts_with_chosen`] leaves out what is not chosen.
//!
//! [`present_unsigned`] answers a [`CallerAsk`] without keys, which [`read_unsigned_present`] reads
//! from its file: the caller checks the issuer's signature and makes the holder's, and
//! [`UnsignedPresentation::signed`] puts it in.
#![tactic(auto)]

mod ask;
mod asked;
mod errors;
pub mod laws;
mod present_file;
mod presenting;
mod refusal;
mod signing;
mod whole;

pub use ask::{Ask, BindingAsk, CallerAsk, CallerBinding};
pub use errors::PresentError;
pub use present_file::{PresentFile, UnsignedPresentFile, read_present, read_unsigned_present};
pub use presenting::{check_held, parts_with_chosen, present};
pub use refusal::refusal_line;
pub use signing::{Presentation, UnsignedPresentation, present_unsigned};
