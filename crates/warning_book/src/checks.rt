//! What a warning must have.

ghost use Rattle.std.specs.Prelude.{◌≡◌, not, bytes_eq};
ghost use Rattle.std.specs.List.{list_any};
ghost use Rattle.common.specs.Order.{each_once};
ghost use Rattle.warning_book.specs.Content.{is_page, are_pages, is_period};

use common::{Name, Octets};

fn is_among(a: &Name, names: &[Name]) -> bool
    ensures { result ≡ list_any (bytes_eq a.now) names.now }
{
    names.iter().any(|name| *a == *name)
}

/// Whether no name stands in the list a second time.
pub(crate) fn each_once(names: &[Name]) -> bool
    ensures { result ≡ each_once bytes_eq names.now }
{
    for (i, name) in names.iter().enumerate() {
        if is_among(name, &names[i + 1..]) {
            return false;
        }
    }
    true
}

fn is_page(page: &Octets) -> bool
    ensures { result ≡ is_page page.now }
{
    let octets = page.as_slice();
    1 <= octets.len() && octets.len() <= 82
}

fn has_bad_page(pages: &[Octets]) -> bool
    ensures { result ≡ list_any (λ page. not (is_page page)) pages.now }
{
    pages.iter().any(|page| !is_page(page))
}

/// Whether there are 1 to 15 pages, each of 1 to 82 octets.
pub(crate) fn are_pages(pages: &[Octets]) -> bool
    ensures { result ≡ are_pages pages.now }
{
    1 <= pages.len() && pages.len() <= 15 && !has_bad_page(pages)
}

/// Whether a repetition period is 1 to 1,024.
pub(crate) fn is_period(period: u16) -> bool
    ensures { result ≡ is_period period }
{
    1 <= period && period <= 1024
}
