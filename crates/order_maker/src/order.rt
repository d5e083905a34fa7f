//! An order for some cells of one BSC.

ghost use Rattle.std.specs.Prelude.{◌≡◌, ◌↔◌, IsTrue, IfOk};

use crate::order_kind::OrderKind;
use common::Cells;
use serials::Serial;
use std::alloc::{AllocError, Global};

/// An order of one kind for one message, in all cells that need it.
#[derive(Debug, PartialEq, Eq)]
pub struct Order {
    pub kind: OrderKind,
    /// The message identifier (TS 23.041, 9.4.1.2.2).
    pub message_id: u16,
    /// The message that is written, or killed.
    pub serial: Serial,
    /// In order of location area, then cell.
    pub cells: Cells,
}

/// Written out, so that no crate above proves anew how its parts are dropped.
impl Drop for Order {
    fn drop(self) {
        let Order {
            kind: _kind,
            message_id: _message_id,
            serial: _serial,
            cells: _cells,
        } = self;
    }
}

impl Order {
    /// The same order in memory of its own.
    pub fn copied(&self, alloc: Global) -> Result<Order, AllocError>
        ensures { IfOk result (λ copy. copy ≡ self.now) }
    {
        Ok(Order {
            kind: self.kind,
            message_id: self.message_id,
            serial: self.serial,
            cells: self.cells.copied(alloc)?,
        })
    }

    pub fn same(&self, other: &Order) -> bool
        ensures { IsTrue result ↔ (self.now ≡ other.now) }
    {
        self.kind == other.kind
            && self.message_id == other.message_id
            && self.serial == other.serial
            && self.cells.same(&other.cells)
    }
}
