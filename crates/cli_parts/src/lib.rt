//! What the programs share around their commands: a file by its word, the policy of a file, why a
//! command has no answer, and how a run ends.
#![tactic(auto)]

mod files;
mod host;
mod lines;
mod policy_file;
mod stop;
mod telling;

pub use files::{FETCH_MAX, fetch_file};
pub use host::{Ending, exit_code, seconds, words};
pub use lines::{as_line, refusal_line, short_seed_line, unreadable_line};
pub use policy_file::policy_of;
pub use stop::{Stop, readable, refused};
pub use telling::{end_run, tell, tell_stop};
