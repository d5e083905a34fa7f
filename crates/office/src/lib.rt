//! One centre for many callers: each has a desk, which gets a receipt for each event that is accepted.
//!
//! Begin with `office`, then `held`, which is what stands under its lock. What a desk's receipts are is defined in
//! `specs/Receipts.antt`, when a desk is as the office knows it in `specs/Helds.antt`, what a call promises whatever other
//! desks do in `specs/Offices.antt`, and when a journal is a shuffle of receipts in `specs/Shuffles.antt`. What can be asked,
//! and what it is answered, stands in `centre_questions`.
#![tactic(auto)]

mod affected;
mod affecting;
mod auditing;
mod conditions;
mod copying;
mod counting;
pub mod counts;
pub mod desk;
mod entering;
pub mod entries;
pub mod event_kind;
pub mod fault;
pub mod folded;
pub mod held;
pub mod laws;
pub mod office;
pub mod progress;
pub mod receipt;
mod row;
pub mod seen;
mod sending;
mod settling;
mod standing;
mod submitting;
pub mod surveyed;
pub mod unsent;
mod waiter;
mod waiters;
pub mod wake;
mod waking;
pub mod wish;
mod wishes;
mod wishing;

pub use centre_questions::{question, survey, surveying};
