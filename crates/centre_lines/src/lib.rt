//! The lines on which an event bears: which they are, how they stand before it, and how they follow it.
//!
//! Begin with `reach`, then `reached`, which reads the lines of an edit before it, and `following`, which changes the lines.
//! `facts_before`, `following`, `line_before`, `lines_before` and `reached` are public only for `centre_core`, where the events
//! are entered.
#![tactic(auto)]

mod before_lemmas;
mod coverages;
mod downs;
mod facts;
pub mod facts_before;
mod follow_lemmas;
pub mod following;
mod found_plan;
mod found_warning;
pub mod line_before;
mod line_in_cell;
pub mod lines_before;
mod naming;
mod outside_lemmas;
mod reach;
pub mod reached;
mod reached_warnings;
mod reading;
mod spots;
mod walking;
mod warning_before;
