//! The cell broadcast centre: its events, their journal, and what is kept beside it.
//!
//! What is planned for each base station controller (BSC), what each of them has reported, what is still to be ordered
//! and every number of a board are kept, and changed line by line. Begin with `centre`. The rules of each event are in
//! `centre_answers`, the lines on which it bears and how these change in `centre_lines`, what is kept and the definitions
//! over the past in `centre_past` and `centre_events`, and what holds after every history in `centre_laws`. What is given to
//! a centre and what it answers is exported from here too.
#![tactic(auto)]

mod base;
mod before_entry;
pub mod centre;
mod entering;
mod finishing;
mod journal;
mod looking;
mod rebuilding;
mod telling;

pub use areas::Selector;
pub use cell_register::BscId;
pub use centre::Centre;
pub use centre_events::answer::Answer;
pub use centre_events::entry::Entry;
pub use centre_events::event::Event;
pub use centre_events::in_flight::InFlight;
pub use centre_events::outcome::Outcome;
pub use centre_events::refusal::{Limit, Refusal};
pub use centre_events::replies::Replies;
pub use centre_events::reply::Reply;
pub use centre_past::link_state::LinkState;
pub use centre_past::meter::Meter;
pub use centre_past::reported::{ReportedKey, ReportedKeys};
pub use coverage_board::Numbers;
pub use coverage_plan::Edit;
pub use mirror::Presence;
pub use order_maker::{Order, OrderKind, Orders};
pub use serials::{Scope, Serial};
pub use warning_book::{Category, Content, ContentPages, Notice, WarningId};
