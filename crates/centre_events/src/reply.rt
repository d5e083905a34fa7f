//! What a reply says of one cell.

use crate::outcome::Outcome;
use common::Cell;

/// What a reply says of one cell of its order.
#[derive(Clone, Copy, Debug, PartialEq, Eq)]
pub struct Reply {
    pub cell: Cell,
    pub outcome: Outcome,
    /// The number of broadcasts of the version that was on air there, where the reply gives one (TS 48.049, 8.2.10); none of
    /// a write.
    pub count: Option<u16>,
}
