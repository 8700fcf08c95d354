//! Issuing an SD-JWT, RFC 9901 section 4.2: places of a payload hidden behind
//! the digests of their disclosures, and decoys.
//!
//! In three layers, each over the one before:
//! - an order, and what speaks against it: `order`, `order_file`, `reserved`, `judging`, `refusal`;
//! - what hiding makes of its claims: `salts`, `decoys`, `laying`, `clash`;
//! - the token that is signed: `issuing`, `unsigned_token`.
#![tactic(auto)]

mod clash;
mod decoys;
mod errors;
mod issuing;
mod judging;
pub mod laws;
mod laying;
mod order;
mod order_file;
mod refusal;
mod reserved;
mod salts;
mod unsigned_token;

pub use clash::first_clash;
pub use errors::IssueError;
pub use issuing::{issue, issue_owned, order_header, to_sign};
pub use judging::{judge, judged_places};
pub use order::{Decoy, DecoyList, Order, decoy_count};
pub use order_file::{IssueFile, read_order, read_unsigned_order};
pub use rebuild_core::DEPTH_MAX;
pub use refusal::{order_refusal, refusal_line};
pub use unsigned_token::UnsignedToken;
