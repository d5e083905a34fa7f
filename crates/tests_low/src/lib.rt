//! Tests of the libraries of octets and of texts, of the register, the areas, the book and the serial numbers, of the
//! rules of links, of message identifiers, and of the simulated BSC: what their contracts don't say.
//!
//! A test demands an answer by `expect` and not by `?`, and lets a value of a large enum go by `drop`. Either is a call to
//! the prover; an early return, or the end of such a value's block, is a case for each value that may be dropped there.
#![tactic(auto)]

#[cfg(test)]
mod area_tests;
#[cfg(test)]
mod book_tests;
#[cfg(test)]
mod broadcast_tests;
#[cfg(test)]
mod element_tests;
#[cfg(test)]
mod first_line_tests;
#[cfg(test)]
mod frame_tests;
#[cfg(test)]
mod identifier_tests;
#[cfg(test)]
mod journal_file_tests;
#[cfg(test)]
mod kept_line_tests;
#[cfg(test)]
mod link_rule_tests;
#[cfg(test)]
mod measure_tests;
#[cfg(test)]
mod message_tests;
#[cfg(test)]
mod query_tests;
#[cfg(test)]
mod register_tests;
#[cfg(test)]
mod serial_tests;
#[cfg(test)]
mod simulated_bsc_tests;
#[cfg(test)]
mod text_tests;
#[cfg(test)]
mod values;
