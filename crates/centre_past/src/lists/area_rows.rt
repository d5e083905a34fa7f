//! A list of areas.

ghost use Rattle.std.specs.Prelude.{◌≡◌};

use crate::lists::area_row::AreaRow;
use std::marker::Model;

/// Areas in the order of the octets of their names.
#[derive(Debug)]
pub struct AreaRows {
    rows: Vec<AreaRow>,
}

/// Written out, so that no crate above proves anew how its parts are dropped.
impl Drop for AreaRows {
    fn drop(self) {
        let AreaRows { rows: _rows } = self;
    }
}

impl Model for AreaRows {
    ghost use Rattle.std.specs.Prelude.{List};
    ghost use Rattle.centre_past.specs.declared.lists.area_row.AreaRow.{AreaRow};

    ghost Value = { List AreaRow };

    ghost view = { λ s. s.rows.items };
}

impl AreaRows {
    /// The rows of the vector, which is moved.
    pub fn from_vec(rows: Vec<AreaRow>) -> AreaRows
        ensures { result ≡ rows.items }
    {
        AreaRows { rows }
    }

    pub fn as_slice(&self) -> &[AreaRow]
        ensures { result.now ≡ self.now }
    {
        &self.rows
    }
}
