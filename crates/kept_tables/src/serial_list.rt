//! Serial numbers that are lent.

use serials::Serial;
use std::marker::Model;

/// Serial numbers of the versions of a warning, in their order, where another keeps them. Contracts see the list.
#[derive(Drop)]
pub struct Serials<'a> {
    numbers: &'a [Serial],
}

impl<'a> Model for Serials<'a> {
    ghost use Rattle.std.specs.Prelude.{List, ℕ};

    ghost Value = { List ℕ };

    ghost view = { λ s. s.numbers.now };
}

impl<'a> Serials<'a> {
    ghost use Rattle.std.specs.Prelude.{◌≡◌, []};

    /// No serial numbers.
    pub fn none() -> Serials<'a>
        ensures { result ≡ [] }
    {
        Serials { numbers: &[] }
    }

    pub fn of(numbers: &'a [Serial]) -> Serials<'a>
        ensures { result ≡ numbers.now }
    {
        Serials { numbers }
    }

    pub fn as_slice(&self) -> &'a [Serial]
        ensures { result.now ≡ self.now }
    {
        self.numbers
    }
}
