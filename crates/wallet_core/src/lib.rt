//! A wallet: of the credentials that a holder has, it shows the one that
//! answers a query with the fewest disclosures.
//!
//! [`read_query`] reads a [`Query`] from its file, with the places that are never
//! shown. [`answer`] picks the credential and what is presented of it, under the
//! rule of the holder. [`answer_files`] does so over the bytes of files, under
//! the rule of the query file, and [`run_wallet`] over files and two sinks.
#![tactic(auto)]

mod answering;
mod error;
pub mod laws;
mod query;
mod query_file;
mod run;
mod values;
mod words;

pub use answering::{Picked, answer};
pub use error::WalletError;
pub use query::{CredentialList, Equal, EqualList, Query};
pub use query_file::{QueryFile, read_query};
pub use run::{answer_files, run_wallet};
pub use words::TOKENS_MAX;
