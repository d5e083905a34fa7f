//! A registered cell.

use crate::bsc_id::BscId;
use common::{Cell, Ordered};

/// A cell, and the BSC at which it is registered.
#[derive(Clone, Copy, Debug, PartialEq, Eq)]
pub struct Placed {
    pub cell: Cell,
    pub bsc: BscId,
}

impl Ordered for Placed {
    ghost use Rattle.cell_register.specs.Register.{placed_lt};

    ghost before = { placed_lt };

    fn is_before(&self, other: &Placed) -> bool {
        self.cell.is_before(&other.cell)
    }
}
