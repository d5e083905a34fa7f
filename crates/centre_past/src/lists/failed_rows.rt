//! A list of cells that count as failed.

ghost use Rattle.std.specs.Prelude.{◌≡◌};

use crate::lists::failed_row::FailedRow;
use std::marker::Model;

/// Cells by location area, then by identity.
#[derive(Debug)]
pub struct FailedRows {
    rows: Vec<FailedRow>,
}

/// Written out, so that no crate above proves anew how its parts are dropped.
impl Drop for FailedRows {
    fn drop(self) {
        let FailedRows { rows: _rows } = self;
    }
}

impl Model for FailedRows {
    ghost use Rattle.std.specs.Prelude.{List};
    ghost use Rattle.centre_past.specs.declared.lists.failed_row.FailedRow.{FailedRow};

    ghost Value = { List FailedRow };

    ghost view = { λ s. s.rows.items };
}

impl FailedRows {
    /// The rows of the vector, which is moved.
    pub fn from_vec(rows: Vec<FailedRow>) -> FailedRows
        ensures { result ≡ rows.items }
    {
        FailedRows { rows }
    }

    pub fn as_slice(&self) -> &[FailedRow]
        ensures { result.now ≡ self.now }
    {
        &self.rows
    }
}
