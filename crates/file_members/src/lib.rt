//! The members of the files that a command reads: a policy, an issue order, a
//! present order, a wallet query.
//!
//! Each such file is one JSON object. [`read_members`] reads it where all of its
//! members are known; then a function for each form of a member takes what it
//! says, and a [`FileFault`] names the first that is missing or wrong.
#![tactic(auto)]

mod field;
mod file_fault;
mod members;

pub use field::Field;
pub use file_fault::FileFault;
pub use members::{pointer_list_member, read_members, text_list_member, text_member, whole_member};
