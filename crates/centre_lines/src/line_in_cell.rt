//! A line in its cell.

use kept_tables::Spot;
use mirror::Line;

/// A line, the cell at a BSC where it is, and whether the cell is down there for warnings of the kind of its warning.
#[derive(Clone, Copy)]
pub(crate) struct LineInCell {
    pub(crate) spot: Spot,
    pub(crate) line: Line,
    pub(crate) down: bool,
}
