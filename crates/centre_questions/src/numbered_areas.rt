//! The areas of a warning in a survey.

ghost use Rattle.std.specs.Prelude.{◌≡◌};

use crate::area_numbers::AreaNumbers;
use std::marker::Model;

/// Areas, in the order in which the warning names them.
#[derive(Debug, Drop)]
pub struct NumberedAreas {
    rows: Vec<AreaNumbers>,
}

impl Model for NumberedAreas {
    ghost use Rattle.std.specs.Prelude.{List};
    ghost use Rattle.centre_questions.specs.declared.area_numbers.AreaNumbers.{AreaNumbers};

    ghost Value = { List AreaNumbers };

    ghost view = { λ s. s.rows.items };
}

impl NumberedAreas {
    /// The rows of the vector, which is moved.
    pub fn from_vec(rows: Vec<AreaNumbers>) -> NumberedAreas
        ensures { result ≡ rows.items }
    {
        NumberedAreas { rows }
    }

    pub fn as_slice(&self) -> &[AreaNumbers]
        ensures { result.now ≡ self.now }
    {
        &self.rows
    }

    /// The rows as a vector, which is moved and not copied.
    pub fn into_vec(self) -> Vec<AreaNumbers>
        ensures { result.items ≡ self }
    {
        let NumberedAreas { rows } = self;
        rows
    }
}
