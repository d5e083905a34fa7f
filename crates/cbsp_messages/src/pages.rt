//! The pages of a message.

ghost use Rattle.std.specs.Prelude.{◌≡◌, ◌↔◌, ◌++◌, ◌∷◌, [], length, IsTrue, IfOk, OnOk, OnErr};
ghost use Rattle.std.specs.Cmp.{decided, partial_equiv_from_equiv};
ghost use Rattle.std.specs.Cmp.Lexicographic.{pointwise};
ghost use Rattle.cbsp_messages.specs.PageText.{page_eq, pages_decide};

use crate::page::Page;
use std::alloc::{AllocError, Global};
use std::marker::Model;

/// Pages in their order.
#[derive(Drop)]
pub struct Pages {
    pages: Vec<Page>,
}

impl Model for Pages {
    ghost use Rattle.std.specs.Prelude.{List};
    ghost use Rattle.cbsp_ie.specs.Page.{PageContent};

    ghost Value = { List PageContent };

    ghost view = { λ s. s.pages.items };
}

impl Pages {
    /// No pages.
    pub fn new(alloc: Global) -> Pages
        ensures { result ≡ [] }
    {
        Pages {
            pages: Vec::new(alloc),
        }
    }

    /// The pages of the vector, which is moved. Any number of them is taken.
    pub fn from_vec(pages: Vec<Page>) -> Pages
        ensures { result ≡ pages.items }
    {
        Pages { pages }
    }

    /// The pages as a vector, which is moved and not copied.
    pub fn into_vec(self) -> Vec<Page>
        ensures { result.items ≡ self }
    {
        let Pages { pages } = self;
        pages
    }

    /// The pages in the order in which they are read and written.
    pub fn as_slice(&self) -> &[Page]
        ensures { result.now ≡ self.now }
    {
        &self.pages
    }

    /// Adds a page after the others. At an `Err` the pages are as they were.
    pub fn push(&mut self, page: Page) -> Result<(), AllocError>
        ensures ok { OnOk result (self.new ≡ self.old ++ page ∷ []) }
        ensures err { OnErr result (self.new ≡ self.old) }
    {
        self.pages.push(page)?;
        Ok(())
    }

    /// How many there are. A message with none, or with more than 15, isn't written.
    pub fn len(&self) -> usize
        ensures { result ≡ length self.now }
    {
        self.pages.len()
    }

    /// Whether the two are the same pages in the same order.
    pub fn same(&self, other: &Pages) -> bool
        ensures { IsTrue result ↔ (self.now ≡ other.now) }
    {
        *self == *other
    }

    /// The same pages again.
    pub fn copied(&self, alloc: Global) -> Result<Pages, AllocError>
        ensures { IfOk result (λ p. p ≡ self.now) }
    {
        Ok(Pages {
            pages: Vec::from_slice(alloc, &self.pages)?,
        })
    }
}

impl PartialEq for Pages {
    ghost eq = { pointwise page_eq };

    ghost laws = { partial_equiv_from_equiv (decided (pointwise page_eq) pages_decide) };

    fn eq(&self, other: &Pages) -> bool {
        self.as_slice() == other.as_slice()
    }
}

impl Eq for Pages {
    ghost laws = { decided (pointwise page_eq) pages_decide };
}
