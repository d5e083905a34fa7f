//! What a cell broadcast centre accepts, and what each event does to what is stored of one version in one cell.
//!
//! Begin with `event`, `answer` and `refusal`; what an event makes of a line is in `stepping`, of the presence of one version
//! in `effects`, and of a count in `counts`. The message of an order is in `order_message`. The definitions over the past
//! that contracts cite are in `specs/`, beginning with `Past`.
#![tactic(auto)]

pub mod answer;
mod count_places;
pub mod counts;
pub mod effect;
pub mod effects;
pub mod entry;
pub mod event;
mod finding;
pub mod folding;
pub mod in_flight;
mod last_places;
mod lookups;
pub mod naming;
pub mod network;
pub mod order_message;
pub mod outcome;
pub mod refusal;
pub mod replies;
pub mod reply;
mod reply_places;
pub mod replying;
pub mod settings;
pub mod stepping;
