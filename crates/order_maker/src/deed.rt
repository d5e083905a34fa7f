//! What is to be ordered for one message, in a cell that is known from elsewhere.

ghost use Rattle.std.specs.Prelude.{◌≡◌};
ghost use Rattle.order_maker.specs.Actions.{in_cell};

use crate::action::Action;
use crate::order_kind::OrderKind;
use common::Cell;
use serials::Serial;

/// What is to be ordered on one line, for one version of its warning.
#[derive(Clone, Copy, Debug, PartialEq, Eq)]
pub struct Deed {
    pub kind: OrderKind,
    /// The message identifier (TS 23.041, 9.4.1.2.2).
    pub message_id: u16,
    pub serial: Serial,
}

impl Deed {
    /// The same as an action in the cell.
    pub fn in_cell(self, c: Cell) -> Action
        ensures { result ≡ in_cell c self }
    {
        Action {
            kind: self.kind,
            message_id: self.message_id,
            serial: self.serial,
            cell: c,
        }
    }
}
