//! A picture of an office, from one survey of it.
//!
//! Begin with `picturing`. What stands in the picture is defined in `specs/Pictures.antt`; what a survey shows in
//! `centre_questions`, and what the picture becomes in `status_figures`. `laws` says that no warning is left out of a survey,
//! and no area of a warning.
#![tactic(auto)]

mod bscs;
mod downs;
pub mod laws;
mod moments;
mod picturing;
mod tallying;
mod warnings;

pub use downs::down_count;
pub use moments::{Moments, WarningAir};
pub use picturing::picture;
