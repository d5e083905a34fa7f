//! What a BSC answers to a RESET.

/// What a BSC answers to a RESET of all its cells (3GPP TS 48.049, 8.1.3).
#[derive(Clone, Copy, Debug, PartialEq, Eq)]
pub enum ResetAnswer {
    /// RESET COMPLETE, of all cells.
    Complete,
    /// RESET COMPLETE, whose Cell List leaves out a cell, or can't be read.
    Partial,
    /// RESET FAILURE: in some cells it can't be done.
    Failure,
}
