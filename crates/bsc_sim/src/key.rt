//! A message that is on air in a cell.

use common::Cell;

/// A message in a cell, by its Message Identifier and its serial number. Ordered by cell, then by these.
#[derive(Clone, Copy, Debug, PartialEq, Eq, PartialOrd, Ord)]
pub(crate) struct Key {
    pub(crate) cell: Cell,
    pub(crate) message_id: u16,
    pub(crate) serial: u16,
}
