//! What a reply to a query says of a cell.

use common::Cell;

/// How often a message was broadcast in a cell, where that is judged.
#[derive(Clone, Copy, Debug, PartialEq, Eq)]
pub struct Counted {
    pub cell: Cell,
    pub count: Option<u16>,
}
