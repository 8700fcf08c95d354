//! The rules of a verifier for a token, and the conditions under which it refuses the token
//! (RFC 9901 section 7.3).
//!
//! [`read_policy`] reads a [`Policy`] from its file, and [`verify`] and [`verify_payload`] judge a
//! token file under it, by the conditions 1 to 38. [`check_token`] judges a token itself,
//! [`check_view`] a borrowed token. They take two steps, which a caller may also take one by one:
//! [`Content::read`] reads a token by the conditions 5 to 13, under [`Rules`], and
//! [`Content::open`] and [`Content::open_payload`] judge the others. [`fault_line`] returns
//! the line that reports a failed condition.
#![tactic(auto)]

mod asking;
mod binding_file;
mod check_shown;
mod check_signed;
mod claims;
mod content;
mod given_reading;
pub mod laws;
mod nonce;
mod payload_reading;
mod policy;
mod policy_version;
mod rules;
mod token_checking;
mod verdict;

pub use asking::{Answers, JudgeError, Judgement, Question, judge, question_on};
pub use binding_file::AGE_MAX;
pub use content::Content;
pub use nonce::NonceError;
pub use policy::{Policy, SKEW_MAX, read_policy};
pub use policy_version::{AUDIENCES_MAX, PolicyVersion};
pub use refusals::fault_line;
pub use rules::{Issuers, Rules};
pub use token_checking::{Checked, VerifyError, check_token, check_view};
pub use verdict::{Accepted, verify, verify_payload, verify_payload_with};
