//! What a server says on standard error: one line an occurrence, each with the UTC time at which it was made.
//!
//! Begin with `telling`, which makes the lines; `errors` says them, in a thread of its own. What a line is stands in
//! `specs/ErrorLines`, and what its time is in `specs/UtcTexts`. `cells` makes what is said of cells; `recent` holds what was said last,
//! for consoles that follow.
#![tactic(auto)]

mod cells;
mod clearance;
mod errors;
mod level;
mod line;
mod lines;
mod queue;
mod recent;
mod refused_cell;
mod said;
mod telling;
mod utc;

pub use cells::{failure_text, refusal_text, restart_text};
pub use clearance::{AtOnce, Clearance};
pub use errors::Errors;
pub use level::Level;
pub use lines::{bsc_text, line_text, link_text, marked};
pub use refused_cell::RefusedCell;
pub use said::Said;
pub use telling::{say_of_centre, say_of_centre_at, tell, tell_link, tell_link_at};
pub use utc::utc_text;
