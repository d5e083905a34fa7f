//! A BSC in a picture.

use centre_past::lists::BscRow;

/// A registered BSC.
#[derive(Clone, Copy, Debug, PartialEq, Eq)]
pub struct BscFigures {
    pub row: BscRow,
    /// When what is in flight to it went out, in seconds after 1970-01-01T00:00:00Z; `None` where nothing is in flight, or where
    /// that isn't known.
    pub since: Option<u64>,
    /// When a RESET went out over its link that it hasn't answered, in seconds after 1970-01-01T00:00:00Z. Until it has, no order
    /// goes out over the link.
    pub reset: Option<u64>,
    /// When its link ended, or the program began where it had none since, in seconds after 1970-01-01T00:00:00Z; `None` where it is up,
    /// or where that isn't known.
    pub ended: Option<u64>,
    /// How many of its cells are down for some kind of warning; `None` where that isn't known.
    pub down: Option<u64>,
}
