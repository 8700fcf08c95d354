//! Tests of the top calls of the programs, of what no row of a table shows, of the runner of those
//! rows, and of `sdjwt_lib` and `examples_service`. They stand apart from `library_tests` so that
//! those need not wait for these.
#![tactic(auto)]

#[cfg(test)]
mod counted;
#[cfg(test)]
mod end_to_end_tests;
#[cfg(test)]
mod failing_tests;
#[cfg(test)]
mod fetch_tests;
#[cfg(test)]
mod row_tests;
#[cfg(test)]
mod service_tests;
