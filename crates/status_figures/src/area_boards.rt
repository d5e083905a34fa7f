//! A list of areas of a warning.

ghost use Rattle.std.specs.Prelude.{◌≡◌};

use crate::area_board::AreaBoard;
use std::marker::Model;

/// Areas, in the order in which the warning names them.
#[derive(Debug, Drop)]
pub struct AreaBoards {
    rows: Vec<AreaBoard>,
}

impl Model for AreaBoards {
    ghost use Rattle.std.specs.Prelude.{List};
    ghost use Rattle.status_figures.specs.declared.area_board.AreaBoard.{AreaBoard};

    ghost Value = { List AreaBoard };

    ghost view = { λ s. s.rows.items };
}

impl AreaBoards {
    /// The rows of the vector, which is moved.
    pub fn from_vec(rows: Vec<AreaBoard>) -> AreaBoards
        ensures { result ≡ rows.items }
    {
        AreaBoards { rows }
    }

    pub fn as_slice(&self) -> &[AreaBoard]
        ensures { result.now ≡ self.now }
    {
        &self.rows
    }
}
