//! Tests of the centre: what its contracts don't say. What is answered, worked scripts in the data of `examples` show.
//!
//! A test demands an answer by `expect` and not by `?`, and lets a value of a large enum go by `drop`. Either is a call to
//! the prover; an early return, or the end of such a value's block, is a case for each value that may be dropped there.
#![tactic(auto)]

#[cfg(test)]
mod centre_tests;
#[cfg(test)]
mod checkpoint_tests;
#[cfg(test)]
mod checks;
#[cfg(test)]
mod copying_tests;
#[cfg(test)]
mod day;
#[cfg(test)]
mod meter_tests;
#[cfg(test)]
mod stale_tests;
#[cfg(test)]
mod steps;
