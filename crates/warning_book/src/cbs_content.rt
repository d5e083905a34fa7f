//! The content of a warning with pages.

ghost use Rattle.std.specs.Prelude.{◌≡◌, ◌↔◌, IsTrue, IfOk};

use crate::category::Category;
use crate::content_pages::ContentPages;
use std::alloc::{AllocError, Global};

/// What a version of a warning with pages broadcasts (TS 48.049, 8.2.14, 8.2.7, 8.2.8 and 8.2.3).
#[derive(Debug, PartialEq, Eq, Drop)]
pub struct CbsContent {
    /// The data coding scheme, as coded by TS 23.038.
    pub dcs: u8,
    pub category: Category,
    /// The repetition period, in units of 1.883 s: 1 to 1,024.
    pub period: u16,
    /// 1 to 15 pages of 1 to 82 octets.
    pub pages: ContentPages,
}

impl Clone for CbsContent {
    ghost use Rattle.std.specs.Prelude.{◌≡◌};

    ghost is_clone = { λ s t. t ≡ s };

    fn clone(&self) -> Result<CbsContent, AllocError> {
        Ok(CbsContent {
            dcs: self.dcs,
            category: self.category,
            period: self.period,
            pages: self.pages.clone()?,
        })
    }
}

impl CbsContent {
    /// The same content in memory of its own.
    pub fn copied(&self, alloc: Global) -> Result<CbsContent, AllocError>
        ensures { IfOk result (λ copy. copy ≡ self.now) }
    {
        Ok(CbsContent {
            dcs: self.dcs,
            category: self.category,
            period: self.period,
            pages: self.pages.copied(alloc)?,
        })
    }

    pub fn same(&self, other: &CbsContent) -> bool
        ensures { IsTrue result ↔ (self.now ≡ other.now) }
    {
        self.dcs == other.dcs
            && self.category == other.category
            && self.period == other.period
            && self.pages.same(&other.pages)
    }
}
