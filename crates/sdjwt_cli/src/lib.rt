//! The program `sdjwt` as one call, over a cabinet of files and two sinks.
//!
//! [`run`] does all that the program does. Each command is a module of its own, which answers the
//! bytes for standard output or the reason why there are none: [`commands`] has those calls, for a
//! caller who has the bytes of the files.
#![tactic(auto)]

mod command;
pub mod commands;
mod convert;
mod form;
mod generated;
mod issue;
pub mod laws;
mod present;
mod show;
mod split;
mod summary;
mod token_file;
mod top;
mod verify;

pub use cli_parts::Stop;
pub use form::Form;
pub use sd_outside::Status;
pub use top::run;
