//! A word that is lent.

use std::marker::Model;

/// A word of a line, or a part of a word, where another keeps its octets. Contracts see the list of them.
#[derive(Drop)]
pub struct Word<'a> {
    octets: &'a [u8],
}

impl<'a> Model for Word<'a> {
    ghost use Rattle.std.specs.Prelude.{List, ℕ};

    ghost Value = { List ℕ };

    ghost view = { λ s. s.octets.now };
}

impl<'a> Word<'a> {
    ghost use Rattle.std.specs.Prelude.{◌≡◌};

    pub(crate) fn of(octets: &'a [u8]) -> Word<'a>
        ensures { result ≡ octets.now }
    {
        Word { octets }
    }

    pub fn as_slice(&self) -> &'a [u8]
        ensures { result.now ≡ self.now }
    {
        self.octets
    }
}
