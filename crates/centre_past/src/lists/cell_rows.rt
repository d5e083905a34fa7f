//! A list of cells.

ghost use Rattle.std.specs.Prelude.{◌≡◌};

use crate::lists::cell_row::CellRow;
use std::marker::Model;

/// Cells by location area, then by identity.
#[derive(Debug)]
pub struct CellRows {
    rows: Vec<CellRow>,
}

/// Written out, so that no crate above proves anew how its parts are dropped.
impl Drop for CellRows {
    fn drop(self) {
        let CellRows { rows: _rows } = self;
    }
}

impl Model for CellRows {
    ghost use Rattle.std.specs.Prelude.{List};
    ghost use Rattle.centre_past.specs.declared.lists.cell_row.CellRow.{CellRow};

    ghost Value = { List CellRow };

    ghost view = { λ s. s.rows.items };
}

impl CellRows {
    /// The rows of the vector, which is moved.
    pub fn from_vec(rows: Vec<CellRow>) -> CellRows
        ensures { result ≡ rows.items }
    {
        CellRows { rows }
    }

    pub fn as_slice(&self) -> &[CellRow]
        ensures { result.now ≡ self.now }
    {
        &self.rows
    }
}
