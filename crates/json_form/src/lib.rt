//! Tokens as they come from a file, in the serializations of RFC 9901.
//!
//! [`read_token`] reads the compact serialization (section 4) and, where a text begins with `{`,
//! the JSON ones, flattened and general (section 8). [`TokenText`] does the same without a copy of
//! a compact text. A [`TokenView`] borrows a token, wherever its parts stand. [`parse_json`] reads
//! the JSON ones alone; [`print_flat`] and [`print_general`] write them.
#![tactic(auto)]

mod disclosures;
mod json_error;
pub mod laws;
mod member_values;
mod parsing;
mod printing;
mod signature_entry;
mod signatures;
mod token;
mod token_text;
mod token_view;

pub use disclosures::Disclosures;
pub use json_error::JsonFormError;
pub use parsing::parse_json;
pub use printing::{flat_text, general_text, print_flat, print_general};
pub use token::{Token, TokenError, read_token};
pub use token_text::TokenText;
pub use token_view::TokenView;
