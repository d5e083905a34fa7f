//! The text of a journal's entries: for each event the line of the console that asks for it.
//!
//! Begin with `writing` and `reading`. Which events have a line stands in `specs/Sayable`, what is written of each in `specs/Texts`, and
//! what it means to be the line of an event in `specs/Reading`, by the grammar of `console_text`.
#![tactic(auto)]

mod checks;
mod contents;
mod edits;
mod events;
mod laws;
mod names;
mod numbers;
mod reading;
mod reports;
mod words;
mod writing;

pub use laws::{asked_has_line, link_event_has_line, read_has_frame, restart_has_frame};
pub use reading::request_of;
pub use writing::{checkpoint_line, line_of};
