//! What is wished for: a query.

use cell_register::BscId;
use common::Cell;
use warning_book::WarningId;

/// A wish to ask a BSC about a warning, in the cells after that one.
#[derive(Clone, Copy, Debug)]
pub struct Wish {
    pub bsc: BscId,
    pub warning: WarningId,
    pub after: Option<Cell>,
}
