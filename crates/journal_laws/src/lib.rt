//! What a file of a journal's lines is worth: every event that is accepted has a line, and the lines, run by `replay`, make the
//! same journal.
//!
//! Begin with `laws`. Which events these are stands in `specs/Given`, what such a file is in `specs/Files`, and what `replay` makes of
//! it in `specs/Replayed`.
#![tactic(auto)]

mod laws;

pub use laws::{
    accepted_has_line, all_entered_have_lines, entries_have_lines, journal_is_replayed,
    start_is_replayed,
};
