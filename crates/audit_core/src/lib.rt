//! Whether a token is what an order asks for, without the seed that its issuer
//! had (RFC 9901 section 4).
//!
//! [`audit`] judges six parts (`part`) of what an order asks for (`asked`), in this order: what is
//! signed (`signed`), how it is written (`written`, `json_parts`, `salted`), what it shows
//! (`claims`, `same`), its digests (`counts`, `known`, `strange`, `places`, `found`), the places of
//! its decoys (`standing`, `wanted`), and the order of its digests (`sorted`). [`audit_files`] does
//! so over the bytes of two files, and [`run_audit`] over files and two sinks.
#![tactic(auto)]

mod asked;
mod auditing;
mod claims;
mod counts;
mod errors;
mod found;
mod json_parts;
mod known;
pub mod laws;
mod part;
mod places;
mod refusal;
mod run;
mod salted;
mod same;
mod signed;
mod sorted;
mod standing;
mod strange;
mod wanted;
mod written;

pub use auditing::audit;
pub use errors::AuditError;
pub use refusal::refusal_line;
pub use run::{audit_files, run_audit};
