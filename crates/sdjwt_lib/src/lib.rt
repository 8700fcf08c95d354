//! One crate to depend on: the libraries under their own names, and all three ends of a credential
//! in one call.
//!
//! The line `your_service: sdjwt_lib` of `crates.txt` gives a program each crate of the table. In
//! code, `verifier_core::verify` is written `sdjwt_lib::verifier_core::verify`. In contracts,
//! `Rattle.verifier_core.specs.Verdict` is written `Rattle.sdjwt_lib.specs.verifier_core.Verdict`,
//! and in proofs the lemmas of `Rattle.verifier_core.proofs` are in
//! `Rattle.sdjwt_lib.proofs.Lemmas.verifier_core`.
//!
//! | Crates | For |
//! |---|---|
//! | `verifier_core`, `feed_core` | to verify a presentation, or one on each line |
//! | `issuer_core`, `audit_core` | to issue a token, or to check a token against its order |
//! | `holder_core`, `wallet_core` | to present a token, or the credential that meets a query |
//! | `selection_core` | to choose the disclosures, under the holder's consent |
//! | `hmac_sign`, `key_binding` | keys and signers, and a caller's answers about signatures |
//! | `compact_form`, `json_form` | the serializations of a token, and their limits |
//! | `refusals` | conditions and refusals, and the lines that report them |
//! | `jws_part`, `disclosure` | the header and payload of a token, and its disclosures |
//! | `claim_tree`, `marked_tree` | JSON, and JSON that marks what each disclosure shows |
//! | `file_members` | the members of policies, orders and queries, and why a file is refused |
//! | `digest_index`, `digest_sites`, `rebuild_core` | digests, and the values that they refer to |
//! | `sd_outside`, `b64url_text` | strings and bytes, their sources and destinations |
//! | `sdjwt_cli`, `cli_parts` | the commands of the program, and their common parts |
//!
//! [`issue_present_verify`] issues, presents and verifies in one call: its contract says what the
//! libraries promise together. `docs/LIBRARY.md` says which call is for what. The crate
//! `examples_service` is a program that depends only on this crate.
#![tactic(auto)]

mod end_to_end;

pub use audit_core;
pub use b64url_text;
pub use claim_tree;
pub use cli_parts;
pub use compact_form;
pub use digest_index;
pub use digest_sites;
pub use disclosure;
pub use end_to_end::{Holder, Issuer, issue_present_verify};
pub use feed_core;
pub use file_members;
pub use hmac_sign;
pub use holder_core;
pub use issuer_core;
pub use json_form;
pub use jws_part;
pub use key_binding;
pub use marked_tree;
pub use rebuild_core;
pub use refusals;
pub use sd_outside;
pub use sdjwt_cli;
pub use selection_core;
pub use verifier_core;
pub use wallet_core;
