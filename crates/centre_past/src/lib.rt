//! The past of a centre, and what a centre keeps of it.
//!
//! A past is what the entries of a journal come to. Here is what is legal, which numbers, tables and lines a past has, on
//! which lines an event bears (`specs/`), and what holds of every legal past (`proofs/`, which the crates above cite).
//! `kept` is what a centre keeps beside its journal, and `specs/IsKept` says that it is what the past says. `kept`,
//! `kept_links`, `links`, `keys` and `telling` are public only for the crates above, up to `centre_core`.
#![tactic(auto)]

pub mod kept;
pub mod kept_links;
pub mod keys;
mod lemmas;
pub mod link;
pub mod link_state;
pub mod links;
pub mod lists;
pub mod meter;
pub mod reported;
pub mod telling;
pub mod up_or_down;
