//! What is asked of names and pages.

ghost use Rattle.std.specs.Prelude.{◌≡◌, bytes_eq, codes, not};
ghost use Rattle.std.specs.List.{list_any};
ghost use Rattle.areas.specs.Name.{is_name_octet, is_name};
ghost use Rattle.journal_text.specs.Sayable.{are_named, is_only_hyphen};
ghost use Rattle.warning_book.specs.Content.{are_pages, is_page};

use common::{Name, Octets};

/// An ASCII letter, a digit or a hyphen.
fn is_name_octet(octet: u8) -> bool
    ensures { result ≡ is_name_octet octet }
{
    matches!(octet, b'0'..=b'9' | b'A'..=b'Z' | b'a'..=b'z' | b'-')
}

fn has_other_octet(octets: &[u8]) -> bool
    ensures { result ≡ list_any (λ x. not (is_name_octet x)) octets.now }
{
    octets.iter().any(|octet| !is_name_octet(*octet))
}

/// Whether an area may have the name.
pub fn is_name(name: &Name) -> bool
    ensures { result ≡ is_name name.now }
{
    let octets = name.as_slice();
    1 <= octets.len() && octets.len() <= 32 && !has_other_octet(octets)
}

fn has_other_name(names: &[Name]) -> bool
    ensures { result ≡ list_any (λ a. not (is_name a)) names.now }
{
    names.iter().any(|name| !is_name(name))
}

fn is_hyphen(octets: &[u8]) -> bool
    ensures { result ≡ bytes_eq octets.now (codes "-") }
{
    octets == b"-".as_slice()
}

/// Whether the names are a hyphen alone, which stands for no area in a line.
fn is_only_hyphen(names: &[Name]) -> bool
    ensures { result ≡ is_only_hyphen names.now }
{
    match names {
        [name] => is_hyphen(name.as_slice()),
        _ => false,
    }
}

/// Whether a line can name the areas: 1 to 16 of them, but not a hyphen alone.
pub fn are_named(names: &[Name]) -> bool
    ensures { result ≡ are_named names.now }
{
    1 <= names.len() && names.len() <= 16 && !has_other_name(names) && !is_only_hyphen(names)
}

fn is_page(page: &Octets) -> bool
    ensures { result ≡ is_page page.now }
{
    let octets = page.as_slice();
    1 <= octets.len() && octets.len() <= 82
}

fn has_bad_page(pages: &[Octets]) -> bool
    ensures { result ≡ list_any (λ page. not (is_page page)) pages.now }
{
    pages.iter().any(|page| !is_page(page))
}

/// Whether there are 1 to 15 pages, each of 1 to 82 octets.
pub fn are_pages(pages: &[Octets]) -> bool
    ensures { result ≡ are_pages pages.now }
{
    1 <= pages.len() && pages.len() <= 15 && !has_bad_page(pages)
}
