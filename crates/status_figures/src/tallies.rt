//! A list of counts.

ghost use Rattle.std.specs.Prelude.{◌≡◌};

use crate::tally::Tally;
use std::marker::Model;

/// Counts, in an order of the maker's.
#[derive(Debug, Drop)]
pub struct Tallies {
    rows: Vec<Tally>,
}

impl Model for Tallies {
    ghost use Rattle.std.specs.Prelude.{List};
    ghost use Rattle.status_figures.specs.declared.tally.Tally.{Tally};

    ghost Value = { List Tally };

    ghost view = { λ s. s.rows.items };
}

impl Tallies {
    /// The rows of the vector, which is moved.
    pub fn from_vec(rows: Vec<Tally>) -> Tallies
        ensures { result ≡ rows.items }
    {
        Tallies { rows }
    }

    pub fn as_slice(&self) -> &[Tally]
        ensures { result.now ≡ self.now }
    {
        &self.rows
    }
}
