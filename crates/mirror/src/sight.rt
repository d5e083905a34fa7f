//! What is read of one line before anything is ordered on it.

use crate::line::Line;
use serials::Serial;

/// What the orders for one BSC, cell and warning depend on.
#[derive(Clone, Copy, Debug)]
pub struct Sight<'a> {
    pub line: Line,
    /// The warning's message identifier (TS 23.041, 9.4.1.2.2).
    pub message_id: u16,
    /// The serial numbers of its versions, the current one last.
    pub versions: &'a [Serial],
    /// The serial number that is wanted there, if one is.
    pub wanted: Option<Serial>,
    /// The cell is down: its BSC reported that it failed.
    pub down: bool,
}
