//! What stands in front of the pages of a version.

use warning_book::{Category, CbsContent, Content, ContentPages};

/// The numbers of a version of a warning.
#[derive(Clone, Copy, Debug)]
pub struct ContentHeading {
    /// The data coding scheme, as coded by TS 23.038.
    pub dcs: u8,
    pub category: Category,
    /// The repetition period, in units of 1.883 s.
    pub period: u16,
}

impl ContentHeading {
    ghost use Rattle.std.specs.Prelude.{◌≡◌};
    ghost use Rattle.console_text.specs.Headings.{content_of};

    /// The content that has these numbers and pages.
    pub fn content(self, pages: ContentPages) -> Content
        ensures { result ≡ content_of self pages }
    {
        Content::Cbs(CbsContent {
            dcs: self.dcs,
            category: self.category,
            period: self.period,
            pages,
        })
    }
}
