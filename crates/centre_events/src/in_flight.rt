//! What is in flight to a BSC.

ghost use Rattle.std.specs.Prelude.{◌≡◌, ◌↔◌, IsTrue, IfOk};

use common::Cells;
use order_maker::Order;
use serials::Serial;
use std::alloc::{AllocError, Global};

/// What was sent to a BSC and is neither answered nor lost with its link.
pub enum InFlight {
    Order(Order),
    /// A MESSAGE STATUS QUERY (TS 48.049, 8.1.3).
    Query {
        message_id: u16,
        serial: Serial,
        cells: Cells,
    },
}

/// Written out, so that no crate above proves anew how its parts are dropped.
impl Drop for InFlight {
    fn drop(self) {
        match self {
            InFlight::Order(_part) => {}
            InFlight::Query {
                message_id: _message_id,
                serial: _serial,
                cells: _cells,
            } => {}
        }
    }
}

impl InFlight {
    /// The same in memory of its own.
    pub fn copied(&self, alloc: Global) -> Result<InFlight, AllocError>
        ensures { IfOk result (λ copy. copy ≡ self.now) }
    {
        match self {
            InFlight::Order(order) => Ok(InFlight::Order(order.copied(alloc)?)),
            InFlight::Query {
                message_id,
                serial,
                cells,
            } => Ok(InFlight::Query {
                message_id: *message_id,
                serial: *serial,
                cells: cells.copied(alloc)?,
            }),
        }
    }

    pub fn same(&self, other: &InFlight) -> bool
        ensures { IsTrue result ↔ (self.now ≡ other.now) }
    {
        match (self, other) {
            (InFlight::Order(order), InFlight::Order(other_order)) => order.same(other_order),
            (
                InFlight::Query {
                    message_id,
                    serial,
                    cells,
                },
                InFlight::Query {
                    message_id: other_id,
                    serial: other_serial,
                    cells: other_cells,
                },
            ) => message_id == other_id && serial == other_serial && cells.same(other_cells),
            _ => false,
        }
    }
}
