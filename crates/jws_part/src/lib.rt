//! The header and the payload of a JWS (RFC 7515): base64url texts of JSON objects.
//!
//! Both are read from such a text, and written to one. No extension of headers is understood, so
//! one with `crit` is refused by name. The times that a payload claims are judged here too.
#![tactic(auto)]

mod body;
mod header;
pub mod laws;
mod members;
mod times;

pub use body::{BodyError, read_body, read_body_with, write_body};
pub use header::{Header, HeaderError, read_header, read_header_with, write_header};
pub use times::{is_expired, is_not_yet, is_time_unreadable, moment};
