//! The compact serialization of an SD-JWT, RFC 9901 section 4: its grammar, its
//! parts and its limits.
//!
//! [`View::scan`] reads a text once and borrows its parts; [`parse`] copies them.
//! Both refuse a text at the first byte at which it stops being the front of a token.
//! [`read_view`] judges a token as it comes from a file: its limits, its blanks and
//! its form. [`print`] writes parts as the text that [`parse`] reads, [`hashed_text`]
//! as much of it as a key binding token hashes, and [`is_longer_than`] says without
//! it how long it is. [`read_jwt`] and [`print_jwt`] are for a JWT that stands alone.
#![tactic(auto)]

mod blanks;
mod compact_token;
mod field;
mod form;
mod jwt_reading;
pub mod laws;
mod lengths;
mod limits;
mod parts;
mod reader;
mod spelling;
mod view;

pub use blanks::trim;
pub use compact_token::{is_json, read_view};
pub use form::{FormError, check, parse};
pub use jwt_reading::read_jwt;
pub use lengths::is_longer_than;
pub use limits::{COMPACT_MAX, COUNT_MAX, FILE_MAX, ISSUE_MAX};
pub use parts::{JwtParts, Parts};
pub use reader::At;
pub use spelling::{hashed_text, print, print_jwt};
pub use view::{JwtView, Pieces, View};
