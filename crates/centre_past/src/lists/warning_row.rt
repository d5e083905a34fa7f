//! A warning, as a list shows it.

use common::Names;
use coverage_board::Numbers;
use serials::Serial;
use warning_book::{Kind, WarningId};

/// A warning in the book.
#[derive(Drop)]
pub struct WarningRow {
    pub number: WarningId,
    /// The message identifier (TS 23.041, 9.4.1.2.2).
    pub message_id: u16,
    /// The serial number of its current version.
    pub serial: Option<Serial>,
    /// It was not stopped.
    pub is_active: bool,
    pub kind: Kind,
    /// Its areas, in the order in which they were named.
    pub areas: Names,
    /// Its numbers on the board.
    pub numbers: Numbers,
}
