//! The top call of the program `sdjwt_tools`: [`run_tools`] runs the tool that
//! the first word names.
#![tactic(auto)]

mod tools;

pub use tools::run_tools;
