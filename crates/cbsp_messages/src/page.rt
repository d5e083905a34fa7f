//! One page of a message.

ghost use Rattle.std.specs.Prelude.{◌≡◌, ◌≤◌, ◌↔◌, ◌-◌, ◌++◌, length, replicate, take, IsTrue};
ghost use Rattle.cbsp_messages.specs.PageText.{page_with, page_eq, page_decides};
ghost use Rattle.std.specs.Cmp.{decided, partial_equiv_from_equiv};

use cbsp_ie::PageView;
use std::marker::Model;

/// A page: how many of its octets are used, and its 82 octets. A page that was read keeps what
/// stood after the used octets.
#[derive(Clone, Copy)]
pub struct Page {
    used: u8,
    octets: [u8; 82],
}

impl Model for Page {
    ghost use Rattle.std.specs.Prelude.{◌≡◌, length};
    ghost use Rattle.cbsp_ie.specs.Page.{PageContent};

    ghost Value = { PageContent };

    ghost view = { λ p. record { used = p.used; octets = p.octets } };

    ghost invariant = { λ p. length p.octets ≡ 82 };

    ghost inverse = { λ t. record { used = t.used; octets = t.octets } };
}

/// The first of the octets, at most so many.
fn first_octets(octets: &[u8], most: usize) -> &[u8]
    ensures value { result.now ≡ take most octets.now }
    ensures few { length result.now ≤ most }
{
    if octets.len() <= most {
        return octets;
    }
    let (first, _) = octets.split_at(most);
    first
}

/// The octets with zeros after them.
fn filled_up(content: &[u8]) -> [u8; 82]
    requires { length content.now ≤ 82 }
    ensures { result ≡ content.now ++ replicate (82 - length content.now) 0 }
{
    let mut octets = [0; 82];
    octets[..content.len()].copy_from_slice(content);
    octets
}

impl Page {
    /// The page with these numbers.
    pub fn new(used: u8, octets: [u8; 82]) -> Page
        ensures { result ≡ record { used = used; octets = octets } }
    {
        Page { used, octets }
    }

    /// The page whose content is the first 82 of these octets, with zeros after them up to 82.
    pub fn of_octets(content: &[u8]) -> Page
        ensures { result ≡ page_with content.now }
    {
        let content = first_octets(content, 82);
        Page {
            used: content.len() as u8,
            octets: filled_up(content),
        }
    }

    /// The page that was read.
    pub fn of_view(view: &PageView<'_>) -> Page
        ensures { result ≡ view.now }
    {
        let mut octets = [0; 82];
        octets.copy_from_slice(view.octets());
        Page {
            used: view.used(),
            octets,
        }
    }

    /// How many of its octets are used.
    pub fn used(&self) -> u8
        ensures { result ≡ self.now.used }
    {
        self.used
    }

    /// Its 82 octets, used or not.
    pub fn octets(&self) -> &[u8]
        ensures value { result.now ≡ self.now.octets }
        ensures len { length self.now.octets ≡ 82 }
    {
        &self.octets
    }

    /// Whether the two have the same octets, used ones and others.
    pub fn same(&self, other: &Page) -> bool
        ensures { IsTrue result ↔ (self.now ≡ other.now) }
    {
        *self == *other
    }
}

impl PartialEq for Page {
    ghost eq = { page_eq };

    ghost laws = { partial_equiv_from_equiv (decided page_eq page_decides) };

    fn eq(&self, other: &Page) -> bool {
        self.used == other.used && self.octets() == other.octets()
    }
}

impl Eq for Page {
    ghost laws = { decided page_eq page_decides };
}
