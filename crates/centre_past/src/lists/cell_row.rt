//! A cell, as a list shows it.

use common::Cell;

/// A cell that is registered at a BSC, and for which kinds of warnings it is down there (TS 48.049, 8.1.3).
#[derive(Clone, Copy, Debug, PartialEq, Eq)]
pub struct CellRow {
    pub cell: Cell,
    /// It is down for warnings with pages.
    pub is_down: bool,
    /// It is down for emergency warnings.
    pub is_down_for_emergency: bool,
}
