//! A list of selectors.

ghost use Rattle.std.specs.Prelude.{◌≡◌, ◌↔◌, IsTrue, IfSome, OnOk, OnErr};
ghost use Rattle.std.specs.Cmp.{decided, partial_equiv_from_equiv};
ghost use Rattle.std.specs.Cmp.Lexicographic.{pointwise};
ghost use Rattle.std.specs.Option.{option_copied};
ghost use Rattle.areas.specs.Areas.{with_one, without};
ghost use Rattle.areas.specs.Equality.{selectors_decide};
ghost use Rattle.areas.specs.Selector.{selector_eq};
ghost use Rattle.areas.specs.Shares.{Tells};

use crate::selector::Selector;
use crate::shares::Shares;
use common::insert_in_order;
use std::alloc::{AllocError, Global};
use std::marker::Model;

/// Selectors. An area's are kept in their order, by location area, each once.
#[derive(Clone, Debug)]
pub struct Selectors {
    selectors: Vec<Selector>,
    /// What is told by them. It is not there before the first is put in, nor where there was no memory for it.
    shares: Option<Box<Shares>>,
}

/// Written out, so that no crate above proves anew how its parts are dropped.
impl Drop for Selectors {
    fn drop(self) {
        let Selectors {
            selectors: _selectors,
            shares: _shares,
        } = self;
    }
}

impl Model for Selectors {
    ghost use Rattle.std.specs.Prelude.{List, IfSome};
    ghost use Rattle.areas.specs.Shares.{Tells};
    ghost use Rattle.areas.specs.declared.selector.Selector.{Selector};

    ghost Value = { List Selector };

    ghost view = { λ s. s.selectors.items };

    ghost invariant = { λ s. IfSome s.shares (λ kept. Tells s.selectors.items kept.value) };
}

/// Puts what those selectors tell in place of what is kept, if anything is kept.
fn tell(selectors: &[Selector], shares: &mut Option<Box<Shares>>)
    ensures { IfSome shares.new (λ kept. Tells selectors.now kept.value) }
{
    if let Some(kept) = shares {
        **kept = Shares::of(selectors);
    }
}

/// What those selectors tell, in memory of its own, if there is any.
fn kept_if_possible(alloc: Global, selectors: &[Selector]) -> Option<Box<Shares>>
    ensures { IfSome result (λ kept. Tells selectors.now kept.value) }
{
    match Box::new(alloc, Shares::of(selectors)) {
        Ok(kept) => Some(kept),
        Err(_) => None,
    }
}

impl Selectors {
    /// The selectors of the vector, which is moved.
    pub fn from_vec(selectors: Vec<Selector>) -> Selectors
        ensures { result ≡ selectors.items }
    {
        Selectors {
            selectors,
            shares: None,
        }
    }

    pub fn as_slice(&self) -> &[Selector]
        ensures { result.now ≡ self.now }
    {
        &self.selectors
    }

    /// The selectors as a vector, which is moved and not copied.
    pub fn into_vec(self) -> Vec<Selector>
        ensures { result.items ≡ self }
    {
        let Selectors {
            selectors,
            shares: _,
        } = self;
        selectors
    }

    /// What is told by the selectors, if it is kept.
    pub(crate) fn shares(&self) -> Option<&Shares>
        ensures { IfSome (option_copied result) (Tells self.now) }
    {
        match &self.shares {
            Some(kept) => Some(&**kept),
            None => None,
        }
    }

    /// Puts the selector in its place.
    pub(crate) fn insert(&mut self, alloc: Global, s: Selector) -> Result<(), AllocError>
        ensures put { OnOk result (self.new ≡ with_one s self.old) }
        ensures unchanged { OnErr result (self.new ≡ self.old) }
    {
        insert_in_order(s, &mut self.selectors)?;
        match &self.shares {
            Some(_) => tell(self.selectors.as_slice(), &mut self.shares),
            None => self.shares = kept_if_possible(alloc, self.selectors.as_slice()),
        }
        Ok(())
    }

    /// Takes the selector out.
    pub(crate) fn cut(&mut self, s: Selector)
        ensures { self.new ≡ without s self.old }
    {
        self.selectors.retain(|t| *t != s);
        tell(self.selectors.as_slice(), &mut self.shares);
    }
}

impl PartialEq for Selectors {
    ghost eq = { λ a b. pointwise selector_eq a b };

    ghost laws = { partial_equiv_from_equiv (decided (pointwise selector_eq) selectors_decide) };

    fn eq(&self, other: &Selectors) -> bool
        ensures test { result ≡ pointwise selector_eq self.now other.now }
        ensures same { IsTrue result ↔ (self.now ≡ other.now) }
    {
        self.as_slice() == other.as_slice()
    }
}

impl Eq for Selectors {
    ghost laws = { decided (pointwise selector_eq) selectors_decide };
}
