//! A list of BSCs.

ghost use Rattle.std.specs.Prelude.{◌≡◌};

use crate::bsc_figures::BscFigures;
use std::marker::Model;

/// BSCs by their numbers.
#[derive(Debug, Drop)]
pub struct BscList {
    rows: Vec<BscFigures>,
}

impl Model for BscList {
    ghost use Rattle.std.specs.Prelude.{List};
    ghost use Rattle.status_figures.specs.declared.bsc_figures.BscFigures.{BscFigures};

    ghost Value = { List BscFigures };

    ghost view = { λ s. s.rows.items };
}

impl BscList {
    /// The rows of the vector, which is moved.
    pub fn from_vec(rows: Vec<BscFigures>) -> BscList
        ensures { result ≡ rows.items }
    {
        BscList { rows }
    }

    pub fn as_slice(&self) -> &[BscFigures]
        ensures { result.now ≡ self.now }
    {
        &self.rows
    }
}
