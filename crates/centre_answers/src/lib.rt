//! What a centre answers, by what it keeps: the verdict on each event, and each question.
//!
//! The rules of each event are in `events`. No line is changed here. All of this is public only for `centre_core`, where the
//! events are entered and the questions are asked.
#![tactic(auto)]

pub mod events;
pub mod lists;
mod merging;
pub mod questions;
