//! The text of a console of a cell broadcast centre: what an operator may write, and what he is answered.
//!
//! Octets become lines (`lines`), a line becomes words (`words`) and a `Line` (`grammar`), a `Line` an event (`events`), and a `Response`
//! becomes text (`answer_text`). Begin with `line` and `response`; what they mean stands in `specs/Grammar`, `specs/Events` and
//! `specs/Texts`. What the command line asks for is read by `asked`; its commands and options stand in `options`.
#![tactic(auto)]

pub mod alert_heading;
pub mod answer_text;
pub mod asked;
pub mod content_heading;
mod digits;
pub mod edits;
pub mod emergency_heading;
pub mod events;
mod fault;
pub mod frames;
pub mod grammar;
pub mod heading;
pub mod hex_text;
mod laws;
pub mod line;
pub mod line_edit;
pub mod line_event;
pub mod lines;
mod list_text;
pub mod no_run;
mod numbers;
pub mod options;
mod parts;
mod reports;
pub mod response;
pub mod runs;
pub mod text_fault;
pub mod word;
pub mod words;

pub use fault::{ReplayFault, fault_words};
pub use laws::written_is_cut;
