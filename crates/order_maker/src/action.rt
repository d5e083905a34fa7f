//! One thing to order in one cell.

use crate::order_kind::OrderKind;
use common::Cell;
use serials::Serial;

/// What is to be ordered in one cell, for one message.
#[derive(Clone, Copy, Debug, PartialEq, Eq)]
pub struct Action {
    pub kind: OrderKind,
    pub message_id: u16,
    pub serial: Serial,
    pub cell: Cell,
}
