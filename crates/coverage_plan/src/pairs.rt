//! A list of pairs of a cell and a warning.

ghost use Rattle.std.specs.Prelude.{◌≡◌};

use common::Cell;
use std::marker::Model;
use warning_book::WarningId;

/// Pairs of a cell and a warning, by cell, and for a cell by warning.
#[derive(Debug, Drop)]
pub struct Pairs {
    pairs: Vec<(Cell, WarningId)>,
}

impl Model for Pairs {
    ghost use Rattle.std.specs.Prelude.{List, ℕ};
    ghost use Rattle.common.specs.declared.cell.Cell.{Cell};

    ghost Value = { List (Cell × ℕ) };

    ghost view = { λ s. s.pairs.items };
}

impl Pairs {
    /// The pairs of the vector, which is moved.
    pub fn from_vec(pairs: Vec<(Cell, WarningId)>) -> Pairs
        ensures { result ≡ pairs.items }
    {
        Pairs { pairs }
    }

    pub fn as_slice(&self) -> &[(Cell, WarningId)]
        ensures { result.now ≡ self.now }
    {
        &self.pairs
    }

    /// The pairs as a vector, which is moved and not copied.
    pub fn into_vec(self) -> Vec<(Cell, WarningId)>
        ensures { result.items ≡ self }
    {
        let Pairs { pairs } = self;
        pairs
    }
}
