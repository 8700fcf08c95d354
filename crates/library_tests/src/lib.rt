//! Tests of the libraries that issue, present and judge, of what no run of the program shows. They
//! stand apart from the code because a crate with tests is proved twice, and apart from
//! `base_tests` so that those need not wait for these.
#![tactic(auto)]

#[cfg(test)]
mod audit_tests;
#[cfg(test)]
mod binding_tests;
#[cfg(test)]
mod feed_tests;
#[cfg(test)]
mod holder_tests;
#[cfg(test)]
mod issuer_tests;
#[cfg(test)]
mod judge_tests;
#[cfg(test)]
mod look_up_tests;
#[cfg(test)]
mod presenting_tests;
#[cfg(test)]
mod recording;
#[cfg(test)]
mod tell;
#[cfg(test)]
mod verifier_tests;
#[cfg(test)]
mod wallet_tests;
