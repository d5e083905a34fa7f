//! Names of areas, and their order.

ghost use Rattle.std.specs.Prelude.{◌≡◌, not, length};
ghost use Rattle.std.specs.List.{list_any};
ghost use Rattle.areas.specs.Name.{is_name_octet, is_name, octets_lt};

use common::Name;

/// An ASCII letter, a digit or a hyphen.
fn is_name_octet(octet: u8) -> bool
    ensures { result ≡ is_name_octet octet }
{
    matches!(octet, b'0'..=b'9' | b'A'..=b'Z' | b'a'..=b'z' | b'-')
}

fn has_other_octet(octets: &[u8]) -> bool
    ensures { result ≡ list_any (λ x. not (is_name_octet x)) octets.now }
{
    octets.iter().any(|octet| !is_name_octet(*octet))
}

/// Whether an area may have the name.
pub(crate) fn is_name(a: &Name) -> bool
    ensures { result ≡ is_name a.now }
{
    let octets = a.as_slice();
    1 <= octets.len() && octets.len() <= 32 && !has_other_octet(octets)
}

/// Whether the first name comes before the second.
pub(crate) fn is_before(a: &Name, b: &Name) -> bool
    ensures { result ≡ octets_lt a.now b.now }
{
    let first = a.as_slice();
    let second = b.as_slice();
    for (place, octet) in first.iter().enumerate() {
        if place >= second.len() {
            return false;
        }
        let other = second[place];
        if *octet != other {
            return *octet < other;
        }
    }
    first.len() < second.len()
}
