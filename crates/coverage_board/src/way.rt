//! How a line is counted on a board.

/// How a line, which is a BSC, a cell and a warning, is counted on a board.
#[derive(Clone, Copy, Debug, PartialEq, Eq)]
pub enum Way {
    /// The warning is still to be written, or the answer is still to come.
    Awaited,
    /// The warning is on air, as its BSC reported.
    OnAir,
    /// The cell is down, or the write was refused.
    Failed,
    /// A message of the warning that isn't wanted there may be on air.
    Left,
}
