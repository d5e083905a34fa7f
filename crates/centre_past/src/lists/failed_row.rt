//! A cell that counts as failed, as a list shows it.

use crate::lists::failure::Failure;
use cell_register::BscId;
use common::Cell;

/// A cell in which a warning failed, its BSC, and why.
#[derive(Clone, Copy, Debug, PartialEq, Eq)]
pub struct FailedRow {
    pub cell: Cell,
    pub bsc: BscId,
    pub why: Failure,
}
