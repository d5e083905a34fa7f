//! A message that is to be broadcast in a cell.

use common::Cell;
use serials::Serial;

/// A message that the plan wants in a cell: the current version of an active warning.
#[derive(Clone, Copy, Debug, PartialEq, Eq)]
pub struct PlanItem {
    pub cell: Cell,
    /// The message identifier (TS 23.041, 9.4.1.2.2).
    pub message_id: u16,
    pub serial: Serial,
}
