//! The commands of sdjwt for C, over bytes and into a buffer of the caller's.
//! `c/sdjwt.h` is its header.
//!
//! Each function of [`commands`] is one command, and each of [`tools`] one tool. Those of
//! [`policy`] verify many tokens under one policy, which is read once and kept behind a handle.
//! Those of [`judging`] verify where the caller checks the signatures, those of [`signing`] issue
//! where the caller makes them, and those of [`presenting`] present where it does both. Those of
//! [`parts`] take what is asked out of a question. What a call leaves in the buffer is said by
//! `HandsBy` (`specs/Handed.antt`), by `HandsVerdictBy` (`specs/Judging.antt`), by `HandsStepBy`
//! (`specs/Presenting.antt`) and by `HandsPartBy` (`specs/QuestionParts.antt`).
#![tactic(auto)]

mod answer;
mod boxed;
mod commands;
mod handle;
mod judging;
mod loose;
mod parts;
mod policy;
mod presenting;
mod question;
mod said;
mod signing;
mod tools;
mod verdict;
