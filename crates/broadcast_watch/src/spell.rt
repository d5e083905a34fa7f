//! For how long a number stands still.

use common::Cell;

/// A cell, and the number of broadcasts that each reply gave of it since then.
#[derive(Clone, Copy, Debug, PartialEq, Eq)]
pub struct Spell {
    pub cell: Cell,
    pub count: u16,
    /// The first of these replies, in milliseconds of the clock.
    pub since: u64,
    /// The last of them came so much later that the number should have risen.
    pub is_silent: bool,
}
