//! A registered cell, by its BSC.

use common::Cell;

/// A cell with the number of its BSC. Ordered by BSC, then by cell.
#[derive(Clone, Copy, Debug, PartialEq, Eq, PartialOrd, Ord)]
pub(crate) struct Seat {
    /// A BSC's number, or one past the greatest.
    pub(crate) bsc: u32,
    pub(crate) cell: Cell,
}
