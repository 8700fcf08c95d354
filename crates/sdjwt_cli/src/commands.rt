//! The commands over the bytes of their files: each answers what [`run`](crate::run) writes to
//! standard output, or the [`Stop`](crate::Stop) that tells why there is nothing.

pub use crate::convert::convert;
pub use crate::issue::issue;
pub use crate::present::present;
pub use crate::show::show;
pub use crate::split::split;
pub use crate::verify::{verify, verify_under};
