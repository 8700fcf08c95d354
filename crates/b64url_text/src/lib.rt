//! Base64url text without padding, RFC 4648 section 5.
//!
//! [`encode`] and [`decode`] are inverse to each other: a text is refused where
//! it is the text of no bytes, by its letters, its length or the bits that are
//! left over at its end. A text of a byte or more is a word.
#![tactic(auto)]

mod codec;
mod errors;
mod lanes;
pub mod laws;
mod word;

pub use codec::{decode, decode_into, encode};
pub use errors::{DecodeError, NotBase64};
pub use word::{is_word, word_len};
