//! A warning in a picture.

use crate::area_boards::AreaBoards;
use centre_past::lists::WarningSheet;

/// A warning in the book.
#[derive(Drop)]
pub struct WarningFigures {
    pub sheet: WarningSheet,
    /// Its areas, in the order in which they were named.
    pub areas: AreaBoards,
    /// In how many cells it is silent: it is on air there, and its number of broadcasts doesn't rise.
    pub silent: u64,
    /// Since when an emergency warning is over by its period, in seconds after 1970-01-01T00:00:00Z; `None` where it isn't, or where
    /// that isn't known.
    pub over: Option<u64>,
}
