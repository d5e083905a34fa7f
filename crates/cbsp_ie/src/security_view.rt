//! Warning security information, lent from the octets that it was read from.

ghost use Rattle.std.specs.Prelude.{◌≡◌, length};

use std::marker::Model;

/// The 50 octets of warning security information (3GPP TS 48.049, 8.2.19).
#[derive(Drop)]
pub struct SecurityView<'a> {
    octets: &'a [u8],
}

impl<'a> Model for SecurityView<'a> {
    ghost use Rattle.std.specs.Prelude.{◌≡◌, List, ℕ, length};

    ghost Value = { List ℕ };

    ghost view = { λ s. s.octets.now };

    ghost invariant = { λ s. length s.octets.now ≡ 50 };
}

impl<'a> SecurityView<'a> {
    /// The information in these octets, which are lent and not copied.
    pub fn new(octets: &'a [u8]) -> SecurityView<'a>
        requires { length octets.now ≡ 50 }
        ensures { result ≡ octets.entry.now }
    {
        SecurityView { octets }
    }

    /// The octets as they stand; nothing is made out in them.
    pub fn octets(&self) -> &'a [u8]
        ensures value { result.now ≡ self.now }
        ensures length { length self.now ≡ 50 }
    {
        self.octets
    }
}
