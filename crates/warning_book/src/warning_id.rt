//! The number of a warning.

ghost use Rattle.std.specs.Prelude.{◌≡◌};

use std::marker::Model;

/// The number of a warning, from 1 in the order of issue. It is not given again.
#[derive(Clone, Copy, Debug, PartialEq, Eq)]
pub struct WarningId {
    number: u32,
}

impl Model for WarningId {
    ghost use Rattle.std.specs.Prelude.{ℕ};

    ghost Value = { ℕ };

    ghost view = { λ id. id.number };

    ghost inverse = { λ n. record { number = n } };
}

impl WarningId {
    /// The number as an operator gives it; no warning has 0.
    pub fn new(number: u32) -> WarningId
        ensures { result ≡ number }
    {
        WarningId { number }
    }

    /// The number as an operator sees it.
    pub fn number(self) -> u32
        ensures { result ≡ self }
    {
        self.number
    }
}
