//! Tests of the office and of the two sides of a link: what their contracts don't say.
//!
//! A test demands an answer by `expect`, `yes` or `same` and not by `?`, and lets a value of a large enum go by `drop`. Each is a
//! call to the prover; an early return, or the end of such a value's block, is a case for each value that may be dropped there.
#![tactic(auto)]

#[cfg(test)]
mod checks;
#[cfg(test)]
mod counting_tests;
#[cfg(test)]
mod folding_tests;
#[cfg(test)]
mod following_tests;
#[cfg(test)]
mod given_events;
#[cfg(test)]
mod given_link;
#[cfg(test)]
mod held_link_tests;
#[cfg(test)]
mod office_tests;
#[cfg(test)]
mod orders_in_turn_tests;
#[cfg(test)]
mod own_wish_tests;
#[cfg(test)]
mod passage_tests;
#[cfg(test)]
mod read_side_tests;
#[cfg(test)]
mod sending_tests;
#[cfg(test)]
mod two_links_tests;
#[cfg(test)]
mod two_waits_tests;
#[cfg(test)]
mod waiting_tests;
#[cfg(test)]
mod waking_tests;
#[cfg(test)]
mod write_side_tests;
