//! A list of warnings.

ghost use Rattle.std.specs.Prelude.{◌≡◌};

use crate::warning_figures::WarningFigures;
use std::marker::Model;

/// Warnings by their numbers.
#[derive(Drop)]
pub struct WarningList {
    rows: Vec<WarningFigures>,
}

impl Model for WarningList {
    ghost use Rattle.std.specs.Prelude.{List};
    ghost use Rattle.status_figures.specs.declared.warning_figures.WarningFigures.{WarningFigures};

    ghost Value = { List WarningFigures };

    ghost view = { λ s. s.rows.items };
}

impl WarningList {
    /// The rows of the vector, which is moved.
    pub fn from_vec(rows: Vec<WarningFigures>) -> WarningList
        ensures { result ≡ rows.items }
    {
        WarningList { rows }
    }

    pub fn as_slice(&self) -> &[WarningFigures]
        ensures { result.now ≡ self.now }
    {
        &self.rows
    }
}
