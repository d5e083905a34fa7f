//! What is read of one line before it is counted.

use crate::area_set::AreaSet;
use mirror::Sight;

/// What a board counts of one BSC, cell and warning.
#[derive(Drop)]
pub struct Stand<'a> {
    pub sight: Sight<'a>,
    /// The warning's areas that cover the cell.
    pub areas: AreaSet<'a>,
    /// The cell is registered at this BSC.
    pub here: bool,
    /// The warning is active: it was not stopped.
    pub active: bool,
}
