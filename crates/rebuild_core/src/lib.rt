//! A payload rebuilt from its disclosures, RFC 9901 section 7.1.
//!
//! [`process`] answers the processed payload, or why a token is refused; [`process_payload`]
//! answers it without its marks. What may be relied on besides stands in [`laws`].
#![tactic(auto)]

mod errors;
mod graph;
pub mod laws;
mod names;
mod numbers;
mod opening;
mod processing;
mod readable;
mod references;
mod rows;
mod seed;
mod shown;
mod unhidden;

pub use errors::ProcessError;
pub use processing::{DEPTH_MAX, process, process_payload, process_seeded};
pub use seed::seed_of;
pub use unhidden::without_alg;
