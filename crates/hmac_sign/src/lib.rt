//! HMAC, RFC 2104, and who signs and who checks with it: HS256, HS384 and
//! HS512, RFC 7518 section 3.2.
//!
//! A [`Signer`] signs a head and a body, and a [`Checker`] tells which signatures are good. Both
//! have one meaning of good, so a checker that agrees with a signer accepts all that it signs. An
//! [`UnsignedJwt`] is what is to be signed.
#![tactic(auto)]

mod alg;
mod alg_name;
mod begun;
mod fail_signer;
mod file_keys;
mod hasher;
mod hs256_key;
mod hs_key;
mod key_set;
mod key_set_elements;
mod keyed_hash;
pub mod laws;
mod mac_code;
mod sign;
mod unsigned_jwt;

pub use alg::{Alg, alg_named, alg_names};
pub use alg_name::{AlgName, AlgNameBox};
pub use fail_signer::FailSigner;
pub use file_keys::{key_bytes_member, key_bytes_of, key_of, keys_member};
pub use hs_key::{HsKey, KeyShort};
pub use hs256_key::Hs256Key;
pub use key_set::{KeySet, KeySetError, NamedKey};
pub use keyed_hash::{hmac, hmac_sha256};
pub use mac_code::Mac;
pub use sign::{Checker, SignError, Signatures, Signer};
pub use unsigned_jwt::UnsignedJwt;
