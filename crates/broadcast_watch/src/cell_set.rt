//! Cells, each of which is found quickly.

ghost use Rattle.std.specs.Prelude.{◌≡◌, IfOk};
ghost use Rattle.std.specs.List.{list_any};
ghost use Rattle.common.specs.Cell.{cell_eq};
ghost use Rattle.common.specs.declared.cell.Cell.{Cell};

use common::Cell;
use std::alloc::{AllocError, Global};
use std::collections::BTreeSet;
use std::marker::Model;

/// Cells in ascending order, each once.
#[derive(Drop)]
pub(crate) struct CellSet {
    cells: BTreeSet<Cell>,
}

impl Model for CellSet {
    ghost use Rattle.std.specs.Prelude.{List};
    ghost use Rattle.common.specs.declared.cell.Cell.{Cell};

    ghost Value = { List Cell };

    ghost view = { λ s. s.cells.keys };
}

impl CellSet {
    /// The cells of the list, which may name one twice.
    pub(crate) fn of(alloc: Global, cells: &[Cell]) -> Result<CellSet, AllocError>
        ensures { IfOk result (λ set. (c : Cell) → list_any (cell_eq c) set ≡ list_any (cell_eq c) cells.now) }
    {
        let mut set = BTreeSet::new(alloc);
        for cell in cells {
            set.insert(*cell)?;
        }
        Ok(CellSet { cells: set })
    }

    pub(crate) fn has(&self, cell: Cell) -> bool
        ensures { result ≡ list_any (cell_eq cell) self.now }
    {
        self.cells.contains(&cell)
    }
}
