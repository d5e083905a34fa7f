//! The text of a centre's lists: a line for each thing, and a last line with their number.
//!
//! What stands in each line is defined in `specs/ListTexts`. What is printed was asked for before: a list is a picture of one
//! moment, in memory of its own (`centre_past::lists`).
#![tactic(auto)]

mod air;
mod bscs;
mod cells;
mod contents;
mod digits;
mod failures;
mod lines;
mod named_areas;
mod names;
mod pages;
mod status;
mod warnings;

pub use air::SilentRow;
pub use bscs::{bscs_text, links_text};
pub use cells::cells_text;
pub use failures::{cause_name, failed_text};
pub use named_areas::{area_text, areas_text};
pub use status::status_text;
pub use warnings::{sheet_text, warnings_text};
