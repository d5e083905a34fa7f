//! What is in flight, as a list shows it.

use crate::lists::flight_kind::FlightKind;
use serials::Serial;

/// What is in flight to a BSC, but for its cells and an Old Serial Number.
#[derive(Clone, Copy, Debug, PartialEq, Eq)]
pub struct FlightRow {
    pub kind: FlightKind,
    /// The message identifier (TS 23.041, 9.4.1.2.2).
    pub message_id: u16,
    /// The message that is written, killed or asked for.
    pub serial: Serial,
}
