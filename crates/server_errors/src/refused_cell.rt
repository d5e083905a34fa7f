//! A cell in which an order was refused.

use common::Cell;

/// A cell in which an order was refused, with the cause and its name (3GPP TS 48.049, 8.2.13).
#[derive(Clone, Copy, Debug)]
pub struct RefusedCell {
    pub cell: Cell,
    pub cause: u8,
    pub name: &'static str,
}
