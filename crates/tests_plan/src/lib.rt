//! Tests of the plan, the lines, the orders and the lists of a reply: what their contracts don't say. The tables of a
//! centre and its board are tested by the rows of `examples`.
//!
//! A test demands an answer by `expect` and not by `?`, and lets a value of a large enum go by `drop`. Either is a call to
//! the prover; an early return, or the end of such a value's block, is a case for each value that may be dropped there.
#![tactic(auto)]

#[cfg(test)]
mod line_table_tests;
#[cfg(test)]
mod order_tests;
#[cfg(test)]
mod plan_edits_tests;
#[cfg(test)]
mod plan_tests;
#[cfg(test)]
mod reply_list_tests;
#[cfg(test)]
mod values;
