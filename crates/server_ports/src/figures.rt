//! What the reports of a port are charged by.

use link_rules::Cost;
use link_worker::Load;

/// How large the BSC of a port was when that was last looked at, by which its reports are charged.
#[derive(Clone, Copy, Debug, PartialEq, Eq)]
pub struct Figures {
    /// How many cells were registered at it.
    pub cells: u64,
    /// How many warnings there were in the book.
    pub warnings: u64,
}

impl Figures {
    /// Those of a BSC of which nothing is known yet.
    pub fn none() -> Figures {
        Figures {
            cells: 0,
            warnings: 0,
        }
    }

    /// What a report of that load may cost.
    pub(crate) fn cost_of(self, load: Load) -> Cost {
        let named = match load.cells {
            Some(named) => Some(named as u64),
            None => None,
        };
        Cost::of(load.octets as u64, named, self.cells, self.warnings)
    }
}
