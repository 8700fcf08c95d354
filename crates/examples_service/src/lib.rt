//! How another program uses the libraries: two calls of a small service, which names one crate.
//!
//! [`claim_of`] verifies a presentation and answers one of its claims, and [`token_for`] issues a
//! token. `docs/LIBRARY.md` goes through both.
#![tactic(auto)]

mod claim;
mod token;

pub use claim::claim_of;
pub use token::token_for;
