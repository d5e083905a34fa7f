//! What became of an order in a cell.

use cbsp_ie::Cause;

/// What became of an order in one of its cells, as its reply says.
#[derive(Clone, Copy, Debug, PartialEq, Eq)]
pub enum Outcome {
    /// It was carried out.
    Done,
    /// It was refused, with this cause (TS 48.049, 8.2.13).
    Refused(Cause),
    /// Nothing was said of it, or the link was lost first.
    Silent,
}
