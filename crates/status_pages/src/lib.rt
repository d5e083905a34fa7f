//! The page that a centre shows to those who only look.
//!
//! Begin with `pages`; what it shows stands in `specs/Pages`, `specs/WarningParts` and `specs/BscParts`, and what is looked at
//! first in `specs/Standings` and `specs/Ranks`. Text is escaped by `escapes`, and `laws` says what holds of it. What is the same on each page is in
//! `piece`; the styles and the script that renews the page are the constants of `fixed`.
#![tactic(auto)]

mod boards;
mod bscs;
mod cause;
mod causes;
mod contents;
mod escapes;
mod fixed;
mod header;
mod items;
mod kinds;
mod laws;
mod pages;
mod piece;
mod ranked_warning;
mod ranks;
mod sections;
mod standing;
mod standings;
mod times;
mod turns;
mod verdict;
mod verdicts;
mod warnings;

pub use fixed::POLICY;
pub use laws::{escaped_has_no_markup, escaped_is_read_back, escaped_turns_nothing};
pub use pages::page;
