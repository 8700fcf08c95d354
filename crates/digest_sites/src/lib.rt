//! The digests that are embedded in a JSON value, RFC 9901 section 4.2.4.
//!
//! [`sites`] answers where they stand, and [`is_misused`] whether a reserved
//! name is used otherwise.
#![tactic(auto)]

mod given;
mod misuse;
mod reserved;
mod site;
mod walk;

pub use given::{Given, GivenList};
pub use misuse::is_misused;
pub use reserved::{element_digest, is_dots, is_sd, own_count, own_digests};
pub use site::{Site, SiteKind, SiteList};
pub use walk::{SiteError, sites};
