//! A page, lent from the octets that it was read from.

ghost use Rattle.std.specs.Prelude.{◌≡◌, length};

use std::marker::Model;

/// A page of 82 octets, of which the first `used` are text. `used` isn't looked at here; that of a page
/// that was read is at most 82.
#[derive(Drop)]
pub struct PageView<'a> {
    used: u8,
    octets: &'a [u8],
}

impl<'a> Model for PageView<'a> {
    ghost use Rattle.std.specs.Prelude.{◌≡◌, length};
    ghost use Rattle.cbsp_ie.specs.Page.{PageContent};

    ghost Value = { PageContent };

    ghost view = { λ s. record { used = s.used; octets = s.octets.now } };

    ghost invariant = { λ s. length s.octets.now ≡ 82 };
}

impl<'a> PageView<'a> {
    /// The page with these octets, which are lent and not copied.
    pub fn new(used: u8, octets: &'a [u8]) -> PageView<'a>
        requires { length octets.now ≡ 82 }
        ensures { result ≡ record { used = used; octets = octets.entry.now } }
    {
        PageView { used, octets }
    }

    /// How many of the octets are text, as the page says it.
    pub fn used(&self) -> u8
        ensures { result ≡ self.now.used }
    {
        self.used
    }

    /// All the octets, with those that stand after the text.
    pub fn octets(&self) -> &'a [u8]
        ensures value { result.now ≡ self.now.octets }
        ensures length { length self.now.octets ≡ 82 }
    {
        self.octets
    }
}
