//! What a centre shows to those who only look: a picture of it, and the picture's numbers as tables and as metrics.
//!
//! A picture holds values alone and nothing of the centre. Begin with `picture`; `tables` makes the two tables in CSV,
//! `metric_texts` the text for Prometheus, and `health` says whether the centre is whole. What each text is stands in
//! `specs/Tables`, `specs/Metrics` and `specs/Health`.
#![tactic(auto)]

mod ailing;
mod area_board;
mod area_boards;
mod bsc_figures;
mod bsc_list;
mod bsc_metrics;
mod centre_metrics;
mod fields;
mod health;
mod labels;
mod metric_texts;
mod picture;
mod rows;
mod samples;
mod tables;
mod tallies;
mod tally;
mod version;
mod warning_figures;
mod warning_list;
mod warning_metrics;
mod words;

pub use ailing::{health_of, health_text};
pub use area_board::AreaBoard;
pub use area_boards::AreaBoards;
pub use bsc_figures::BscFigures;
pub use bsc_list::BscList;
pub use health::Health;
pub use metric_texts::metrics;
pub use picture::Picture;
pub use tables::{boards_csv, bscs_csv};
pub use tallies::Tallies;
pub use tally::Tally;
pub use version::VERSION;
pub use warning_figures::WarningFigures;
pub use warning_list::WarningList;
pub use words::{flight_name, four_digits, is_in_service, kind_name, link_word, state_name};
