//! A simulated base station controller, the other end of a centre's link: it carries out orders on a table of the
//! messages that are on air in its cells, and answers them (3GPP TS 48.049, clause 8.1).
//!
//! Begin with `bsc`, then `running`, which converses over a stream. What is answered is defined in
//! `specs/Answering.antt`, and what a conversation writes in `specs/Conversation.antt`.
#![tactic(auto)]

mod bsc;
mod choices;
mod end;
mod indications;
mod key;
mod keys;
mod own_cells;
mod replying;
mod request;
mod running;
mod tally;

pub use bsc::Bsc;
pub use choices::Choices;
pub use end::SimEnd;
