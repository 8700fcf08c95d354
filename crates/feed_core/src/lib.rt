//! A verdict for each line of an input that comes in pieces.
//!
//! A [`Feed`] takes the input in pieces, judges each line as a token file, and writes one line for
//! it. How the input is cut into pieces doesn't matter.
#![tactic(auto)]

mod answer;
mod error;
mod feed;
pub mod laws;
mod pump;
mod run;
mod send;
mod verdict_line;
mod words;

pub use error::FeedError;
pub use feed::Feed;
pub use run::run_feed;
