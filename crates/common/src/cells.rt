//! A list of cells.

ghost use Rattle.std.specs.Prelude.{◌≡◌, ◌↔◌, true, IsTrue, IfOk};
ghost use Rattle.std.specs.Cmp.{decided, partial_equiv_from_equiv};
ghost use Rattle.std.specs.Cmp.Lexicographic.{pointwise};
ghost use Rattle.std.specs.List.{list_any};
ghost use Rattle.common.specs.Cell.{cell_eq, cell_lt};
ghost use Rattle.common.specs.Equality.{cells_decide};
ghost use Rattle.common.specs.Order.{is_ascending};
ghost use Rattle.common.specs.declared.cell.Cell.{Cell};

use crate::cell::Cell;
use std::alloc::{AllocError, Global};
use std::marker::Model;

/// Cells in the order in which they are named.
#[derive(Clone, Debug)]
pub struct Cells {
    cells: Vec<Cell>,
}

/// Written out, so that no crate above proves anew how its parts are dropped.
impl Drop for Cells {
    fn drop(self) {
        let Cells { cells: _cells } = self;
    }
}

impl Model for Cells {
    ghost use Rattle.std.specs.Prelude.{List};
    ghost use Rattle.common.specs.declared.cell.Cell.{Cell};

    ghost Value = { List Cell };

    ghost view = { λ s. s.cells.items };
}

impl Cells {
    /// The cells of the vector, which is moved.
    pub fn from_vec(cells: Vec<Cell>) -> Cells
        ensures { result ≡ cells.items }
    {
        Cells { cells }
    }

    /// The cells of the vector in ascending order, each once. Where they come from lists in order there is little to move.
    pub fn in_order(mut cells: Vec<Cell>) -> Result<Cells, AllocError>
        ensures cells { IfOk result (λ out. (c : Cell) → list_any (cell_eq c) out ≡ list_any (cell_eq c) cells.items) }
        ensures order { IfOk result (λ out. is_ascending cell_lt out ≡ true) }
    {
        cells.sort()?;
        cells.dedup();
        Ok(Cells::from_vec(cells))
    }

    pub fn as_slice(&self) -> &[Cell]
        ensures { result.now ≡ self.now }
    {
        &self.cells
    }

    /// The cells as a vector, which is moved and not copied.
    pub fn into_vec(self) -> Vec<Cell>
        ensures { result.items ≡ self }
    {
        let Cells { cells } = self;
        cells
    }

    /// The same cells in memory of their own.
    pub fn copied(&self, alloc: Global) -> Result<Cells, AllocError>
        ensures { IfOk result (λ copy. copy ≡ self.now) }
    {
        let cells = Vec::from_slice(alloc, self.as_slice())?;
        Ok(Cells::from_vec(cells))
    }

    pub fn same(&self, other: &Cells) -> bool
        ensures { IsTrue result ↔ (self.now ≡ other.now) }
    {
        *self == *other
    }
}

impl PartialEq for Cells {
    ghost eq = { λ a b. pointwise cell_eq a b };

    ghost laws = { partial_equiv_from_equiv (decided (pointwise cell_eq) cells_decide) };

    fn eq(&self, other: &Cells) -> bool
        ensures test { result ≡ pointwise cell_eq self.now other.now }
        ensures same { IsTrue result ↔ (self.now ≡ other.now) }
    {
        self.as_slice() == other.as_slice()
    }
}

impl Eq for Cells {
    ghost laws = { decided (pointwise cell_eq) cells_decide };
}
