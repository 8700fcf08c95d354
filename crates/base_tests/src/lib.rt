//! Tests of the crates below the verdict, of what no run of the program shows. They stand apart
//! from the code because a crate with tests is proved twice.
#![tactic(auto)]

#[cfg(test)]
mod b64url_tests;
#[cfg(test)]
mod disclosure_tests;
#[cfg(test)]
mod from_text;
#[cfg(test)]
mod hmac_tests;
#[cfg(test)]
mod index_tests;
#[cfg(test)]
mod key_set_tests;
#[cfg(test)]
mod marked_tests;
#[cfg(test)]
mod outside_tests;
#[cfg(test)]
mod rebuild_tests;
#[cfg(test)]
mod selection_tests;
#[cfg(test)]
mod sites_tests;
#[cfg(test)]
mod token_tests;
