//! What a simulated BSC is to answer of its own choice.

ghost use Rattle.std.specs.Prelude.{◌≡◌, []};
ghost use Rattle.std.specs.Map.{lookup};
ghost use Rattle.common.specs.Cell.{cell_eq};
ghost use Rattle.bsc_sim.specs.Choices.{cause_of, count_of};

use cbsp_ie::Cause;
use common::Cell;
use std::alloc::Global;
use std::marker::Model;

/// For some cells the cause with which they fail, and for some how often a message was broadcast there. Of two pairs of
/// one cell the first holds. Each look at one takes a walk through the pairs.
#[derive(Drop)]
pub struct Choices {
    causes: Vec<(Cell, Cause)>,
    counts: Vec<(Cell, u16)>,
}

impl Model for Choices {
    ghost use Rattle.bsc_sim.specs.Choices.{Chosen};

    ghost Value = { Chosen };

    ghost view = { λ s. record { causes = s.causes.items; counts = s.counts.items } };
}

impl Choices {
    pub fn new(causes: Vec<(Cell, Cause)>, counts: Vec<(Cell, u16)>) -> Choices
        ensures { result ≡ record { causes = causes.items; counts = counts.items } }
    {
        Choices { causes, counts }
    }

    /// No choice for any cell.
    pub fn none(alloc: Global) -> Choices
        ensures { result ≡ record { causes = []; counts = [] } }
    {
        Choices {
            causes: Vec::new(alloc),
            counts: Vec::new(alloc),
        }
    }

    /// The cause with which the cell fails, if there is one.
    pub(crate) fn cause(&self, cell: Cell) -> Option<Cause>
        ensures { result ≡ cause_of self.now cell }
    {
        first_of(&self.causes, cell)
    }

    /// How often a message was broadcast in the cell, if that is given.
    pub(crate) fn count(&self, cell: Cell) -> Option<u16>
        ensures { result ≡ count_of self.now cell }
    {
        first_of(&self.counts, cell)
    }
}

/// What the first pair of the cell says, if there is one.
fn first_of<T: Copy>(pairs: &[(Cell, T)], cell: Cell) -> Option<T>
    ensures { result ≡ lookup (cell_eq cell) pairs.now }
{
    for (named, value) in pairs {
        if cell == *named {
            return Some(*value);
        }
    }
    None
}
