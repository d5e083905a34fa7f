//! What a version of a warning broadcasts.

ghost use Rattle.std.specs.Prelude.{◌≡◌, ◌↔◌, IsTrue, IfOk};
ghost use Rattle.warning_book.specs.Content.{content_kind, have_pages, has_period};

use crate::cbs_content::CbsContent;
use crate::checks::{are_pages, is_period};
use crate::emergency_content::EmergencyContent;
use crate::kind::Kind;
use std::alloc::{AllocError, Global};

/// What a version of a warning broadcasts.
#[derive(Debug, PartialEq, Eq)]
pub enum Content {
    Cbs(CbsContent),
    Emergency(EmergencyContent),
}

/// Written out, so that no crate above proves anew how its parts are dropped.
impl Drop for Content {
    fn drop(self) {
        match self {
            Content::Cbs(_part) => {}
            Content::Emergency(_part) => {}
        }
    }
}

impl Clone for Content {
    ghost use Rattle.std.specs.Prelude.{◌≡◌};

    ghost is_clone = { λ s t. t ≡ s };

    fn clone(&self) -> Result<Content, AllocError> {
        Ok(match self {
            Content::Cbs(content) => Content::Cbs(content.clone()?),
            Content::Emergency(content) => Content::Emergency(*content),
        })
    }
}

impl Content {
    /// The kind of warning that it is for.
    pub fn kind(&self) -> Kind
        ensures { result ≡ content_kind self.now }
    {
        match self {
            Content::Cbs(_) => Kind::Cbs,
            Content::Emergency(_) => Kind::Emergency,
        }
    }

    /// Whether there are 1 to 15 pages of 1 to 82 octets, where it has pages.
    pub(crate) fn have_pages(&self) -> bool
        ensures { result ≡ have_pages self.now }
    {
        match self {
            Content::Cbs(content) => are_pages(content.pages.as_slice()),
            Content::Emergency(_) => true,
        }
    }

    /// Whether the repetition period is 1 to 1,024, where it has one.
    pub(crate) fn has_period(&self) -> bool
        ensures { result ≡ has_period self.now }
    {
        match self {
            Content::Cbs(content) => is_period(content.period),
            Content::Emergency(_) => true,
        }
    }

    /// The same content in memory of its own.
    pub fn copied(&self, alloc: Global) -> Result<Content, AllocError>
        ensures { IfOk result (λ copy. copy ≡ self.now) }
    {
        Ok(match self {
            Content::Cbs(content) => Content::Cbs(content.copied(alloc)?),
            Content::Emergency(content) => Content::Emergency(*content),
        })
    }

    pub fn same(&self, other: &Content) -> bool
        ensures { IsTrue result ↔ (self.now ≡ other.now) }
    {
        match (self, other) {
            (Content::Cbs(a), Content::Cbs(b)) => a.same(b),
            (Content::Emergency(a), Content::Emergency(b)) => a.same(b),
            _ => false,
        }
    }
}
