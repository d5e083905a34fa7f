//! Which line.

use cell_register::BscId;
use common::Cell;
use warning_book::WarningId;

/// The BSC, the cell and the warning of a line.
#[derive(Clone, Copy, Debug, PartialEq, Eq)]
pub struct LineKey {
    pub bsc: BscId,
    pub cell: Cell,
    pub warning: WarningId,
}
