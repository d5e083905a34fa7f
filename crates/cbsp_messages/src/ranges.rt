//! The ranges of a message's numbers. What a type says of a number is known where it is read.

ghost use Rattle.std.specs.Prelude.{◌≡◌, ◌<◌, length, IfSome, option_map};
ghost use Rattle.std.specs.List.{AllByRecursion};
ghost use Rattle.cbsp_ie.specs.Counts.{AreCountsOf};
ghost use Rattle.cbsp_ie.specs.Failures.{IsFailEntry};
ghost use Rattle.cbsp_ie.specs.Identifications.{HasForm};
ghost use Rattle.cbsp_messages.specs.Lent.{pages_lent, parts_lent};
ghost use Rattle.cbsp_messages.specs.Ranged.{AreInRange};

use crate::message_parts::MessageParts;
use crate::page::Page;
use crate::pages::Pages;
use cbsp_ie::{CellIds, Counts, Failures};

impl<'m> MessageParts<'m> {
    /// Does nothing but read the numbers, so that what their types say of them is known.
    pub fn ranges(&self)
        ensures { AreInRange (parts_lent self.now) }
    {
        number_range(self.message_id);
        number_range(self.new_serial);
        number_range(self.old_serial);
        number_range(self.period);
        number_range(self.requested);
        cells_range(self.cells);
        counts_range(self.counts);
        failures_range(self.failures);
        number_range(self.warning_type);
        security_range(self.security);
        pages_range(self.pages);
    }
}

fn number_range(number: Option<u16>)
    ensures { IfSome number (λ n. n < 65536) }
{
    if let Some(number) = number {
        let _number = number;
    }
}

fn cells_range(cells: Option<&CellIds>)
    ensures { IfSome (option_map (λ lent. lent.now) cells.entry) (λ cells. HasForm cells.form cells.ids) }
{
    if let Some(cells) = cells {
        let _ids = cells.ids();
    }
}

fn counts_range(counts: Option<&Counts>)
    ensures { IfSome (option_map (λ lent. lent.now) counts.entry) (λ counts. AreCountsOf counts.form counts.entries) }
{
    if let Some(counts) = counts {
        let _entries = counts.entries();
    }
}

fn failures_range(failures: Option<&Failures>)
    ensures { IfSome (option_map (λ lent. lent.now) failures.entry) (λ failures. AllByRecursion IsFailEntry failures) }
{
    if let Some(failures) = failures {
        let _entries = failures.as_slice();
    }
}

fn security_range(security: Option<&[u8; 50]>)
    ensures { IfSome (option_map (λ lent. lent.now) security.entry) (λ octets. length octets ≡ 50) }
{
    if let Some(octets) = security {
        let _octets: &[u8] = octets;
    }
}

fn pages_range(pages: Option<&Pages>)
    ensures { AllByRecursion (λ page. length page.octets ≡ 82) (pages_lent pages.entry) }
{
    if let Some(pages) = pages {
        each_page_range(pages.as_slice());
    }
}

fn each_page_range(pages: &[Page])
    ensures { AllByRecursion (λ page. length page.octets ≡ 82) pages.now }
{
    for page in pages {
        let _octets = page.octets();
    }
}
