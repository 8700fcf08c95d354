//! Key binding tokens, RFC 9901 section 4.3: a holder shows that a token was
//! issued to it, to one verifier and for one use.
//!
//! [`bind`] writes one, over the text of the token that it is sent with, and [`unsigned_binding`]
//! what is to be signed of it. [`check_binding`] judges one by a [`BindingPolicy`]: the conditions
//! 27 to 38 of a verifier. The holder's key is found by the `kid` of the claim `cnf` (RFC 7800
//! section 3.4), or is the caller's, who checks signatures itself.
#![tactic(auto)]

mod caller;
mod errors;
mod holder;
mod judging;
pub mod laws;
mod policy;
mod reading;
mod short_text;
mod writing;

pub use caller::{Caller, SignatureAnswer};
pub use errors::{BindError, BindingError, BoundError};
pub use holder::holder_kid;
pub use judging::{Bound, check_binding, check_bound};
pub use policy::{BindingPolicy, BindingRules, Holders};
pub use short_text::{BINDING_TEXT_MAX, short_text_in};
pub use writing::{bind, unsigned_binding};
