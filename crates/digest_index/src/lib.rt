//! Numbers for texts, in the order in which they are first seen, and a count of the look-ups.
//!
//! A [`DigestIndex`] gives each text the position at which it was first seen, so that what follows
//! works on numbers. It borrows the texts. Each look-up adds one to the [`Steps`] that it is lent.
#![tactic(auto)]

mod index;
mod seeded;
mod steps;

pub use index::DigestIndex;
pub use seeded::Seeded;
pub use steps::Steps;
