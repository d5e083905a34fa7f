//! A key that a BSC has reported.

ghost use Rattle.std.specs.Prelude.{◌≡◌, Bool};

use common::{Cell, Ordered, comes_before};
use mirror::Presence;
use serials::Serial;

/// A message that is on air in a cell at a BSC, or may be.
#[derive(Clone, Copy, Debug, PartialEq, Eq)]
pub struct ReportedKey {
    pub cell: Cell,
    /// The message identifier (TS 23.041, 9.4.1.2.2).
    pub message_id: u16,
    pub serial: Serial,
    /// On air or unknown.
    pub presence: Presence,
}

impl Ordered for ReportedKey {
    ghost use Rattle.centre_past.specs.Table.{key_lt};

    ghost before = { key_lt };

    fn is_before(&self, other: &ReportedKey) -> bool {
        let by_serial = self.serial.to_u16() < other.serial.to_u16();
        let by_message = comes_before(self.message_id as u32, other.message_id as u32, by_serial);
        self.cell.is_before(&other.cell) || (self.cell == other.cell && by_message)
    }
}
