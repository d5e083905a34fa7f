//! A list of warnings.

ghost use Rattle.std.specs.Prelude.{◌≡◌};

use crate::lists::warning_row::WarningRow;
use std::marker::Model;

/// Warnings by their numbers.
pub struct WarningRows {
    rows: Vec<WarningRow>,
}

/// Written out, so that no crate above proves anew how its parts are dropped.
impl Drop for WarningRows {
    fn drop(self) {
        let WarningRows { rows: _rows } = self;
    }
}

impl Model for WarningRows {
    ghost use Rattle.std.specs.Prelude.{List};
    ghost use Rattle.centre_past.specs.declared.lists.warning_row.WarningRow.{WarningRow};

    ghost Value = { List WarningRow };

    ghost view = { λ s. s.rows.items };
}

impl WarningRows {
    /// The rows of the vector, which is moved.
    pub fn from_vec(rows: Vec<WarningRow>) -> WarningRows
        ensures { result ≡ rows.items }
    {
        WarningRows { rows }
    }

    pub fn as_slice(&self) -> &[WarningRow]
        ensures { result.now ≡ self.now }
    {
        &self.rows
    }
}
