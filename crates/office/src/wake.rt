//! Why a caller that waited for a BSC goes on.

use common::Cell;
use warning_book::WarningId;

/// What there is to do for the link of a BSC.
#[derive(Clone, Copy, Debug, PartialEq, Eq)]
pub enum Wake {
    /// An order is pending, and nothing is in flight.
    Order,
    /// A query of a warning is wished for, in the cells after that one; no order is pending, and nothing is in flight.
    Query(WarningId, Option<Cell>),
    /// The link is not up: it was lost, or another has come up since.
    Ended,
    /// The centre is stale.
    StaleCentre,
}
