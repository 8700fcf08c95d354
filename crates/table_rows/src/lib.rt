//! Tables of rows, each of them a run of a program over files that the row
//! itself holds, and what the run has to leave.
//!
//! [`run_table`] runs every row of a table, and tells which ones leave something else than they
//! say. The language of rows stands in `README.md` beside the tables, in `crates/sd_vectors/data`.
#![tactic(auto)]

mod bench;
mod names;
mod spelling;
mod table;
mod token;
mod trouble;

pub use table::{Count, Report, run_table};
