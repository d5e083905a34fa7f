//! A list of BSCs.

ghost use Rattle.std.specs.Prelude.{◌≡◌};

use crate::lists::bsc_row::BscRow;
use std::marker::Model;

/// BSCs by their numbers.
#[derive(Debug)]
pub struct BscRows {
    rows: Vec<BscRow>,
}

/// Written out, so that no crate above proves anew how its parts are dropped.
impl Drop for BscRows {
    fn drop(self) {
        let BscRows { rows: _rows } = self;
    }
}

impl Model for BscRows {
    ghost use Rattle.std.specs.Prelude.{List};
    ghost use Rattle.centre_past.specs.declared.lists.bsc_row.BscRow.{BscRow};

    ghost Value = { List BscRow };

    ghost view = { λ s. s.rows.items };
}

impl BscRows {
    /// The rows of the vector, which is moved.
    pub fn from_vec(rows: Vec<BscRow>) -> BscRows
        ensures { result ≡ rows.items }
    {
        BscRows { rows }
    }

    pub fn as_slice(&self) -> &[BscRow]
        ensures { result.now ≡ self.now }
    {
        &self.rows
    }
}
