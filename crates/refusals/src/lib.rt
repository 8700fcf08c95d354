//! The conditions of a verifier, the refusals of the commands, and the lines that report them.
//!
//! A [`Fault`] reports a [`Condition`] of a verifier (RFC 9901 section 7) that failed, at a
//! [`Place`]. A [`Refusal`] is any reason for which a command refuses: a failed condition, or a
//! fault of an order, a query or an audit. [`refused_line`], [`placed_line`] and [`fault_line`]
//! return the line that a user reads.
#![tactic(auto)]

mod condition;
mod fault;
pub mod laws;
mod lines;
mod refusal;

pub use condition::Condition;
pub use fault::{Fault, JsonPlace, Part, Place};
pub use lines::{fault_line, placed_line, refused_line};
pub use refusal::Refusal;
