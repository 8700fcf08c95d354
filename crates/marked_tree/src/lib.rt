//! Trees whose members and elements carry the number of the disclosure from which they came.
//!
//! [`mark`] numbers the places of a plain tree, [`strip`] drops the marks, [`prune`] leaves out
//! what is not chosen, and [`place_of`] answers where a mark stands.
#![tactic(auto)]

mod chosen;
mod compares;
mod inside;
pub mod laws;
mod marked;
mod marking;
mod places;
mod prunes;
mod strips;

pub use chosen::ChosenSet;
pub use compares::compare_paths;
pub use inside::stepped;
pub use marked::{Marked, MarkedList, MarkedMap};
pub use marking::{different_paths, mark, mark_counted, run_below};
pub use places::place_of;
pub use prunes::prune;
pub use strips::{into_tree, strip};
