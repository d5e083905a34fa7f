//! Tests of the console and the server: what their contracts don't say.
//!
//! A test demands an answer by `expect`, `yes` or `same` and not by `?`: each is a call to the prover, and an early return a case
//! for each value that may be dropped there. What differs between runs of one function stands in rows.
#![tactic(auto)]

#[cfg(test)]
mod checks;
#[cfg(test)]
mod command_line_tests;
#[cfg(test)]
mod given_texts;
#[cfg(test)]
mod replay_tests;
