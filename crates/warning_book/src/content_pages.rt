//! The pages of a warning's content.

ghost use Rattle.std.specs.Prelude.{◌≡◌, ◌↔◌, IsTrue, IfOk, nat_eq};
ghost use Rattle.std.proofs.Common.{rules};
ghost use Rattle.std.specs.Cmp.Lexicographic.{pointwise};
ghost use Rattle.std.specs.Cmp.Rules.{comparing};

use common::Octets;
use std::alloc::{AllocError, Global};
use std::marker::Model;

/// The pages of a content, each as the octets that are broadcast.
#[derive(Debug, Drop)]
pub struct ContentPages {
    pages: Vec<Octets>,
}

impl Model for ContentPages {
    ghost use Rattle.std.specs.Prelude.{List, ℕ};

    ghost Value = { List (List ℕ) };

    ghost view = { λ s. s.pages.items };
}

impl Clone for ContentPages {
    ghost use Rattle.std.specs.Prelude.{◌≡◌};

    ghost is_clone = { λ s t. t ≡ s };

    fn clone(&self) -> Result<ContentPages, AllocError> {
        Ok(ContentPages {
            pages: self.pages.clone()?,
        })
    }
}

impl ContentPages {
    /// The pages of the vector, which is moved.
    pub fn from_vec(pages: Vec<Octets>) -> ContentPages
        ensures { result ≡ pages.items }
    {
        ContentPages { pages }
    }

    pub fn as_slice(&self) -> &[Octets]
        ensures { result.now ≡ self.now }
    {
        &self.pages
    }

    /// The pages as a vector, which is moved and not copied.
    pub fn into_vec(self) -> Vec<Octets>
        ensures { result.items ≡ self }
    {
        let ContentPages { pages } = self;
        pages
    }

    /// The same pages in memory of their own.
    pub fn copied(&self, alloc: Global) -> Result<ContentPages, AllocError>
        ensures { IfOk result (λ copy. copy ≡ self.now) }
    {
        let mut pages = Vec::new(alloc);
        let all = self.as_slice();
        for page in all {
            pages.push(page.copied(alloc)?)?;
        }
        Ok(ContentPages::from_vec(pages))
    }

    pub fn same(&self, other: &ContentPages) -> bool
        ensures { IsTrue result ↔ (self.now ≡ other.now) }
    {
        *self == *other
    }
}

impl PartialEq for ContentPages {
    ghost eq = { λ a b. pointwise (pointwise nat_eq) a b };

    ghost laws = { Prim.search (comparing, rules) };

    fn eq(&self, other: &ContentPages) -> bool {
        self.as_slice() == other.as_slice()
    }
}

impl Eq for ContentPages {
    ghost laws = { Prim.search (comparing, rules) };
}
