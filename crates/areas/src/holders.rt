//! Which areas have a selector.

ghost use Rattle.std.specs.Prelude.{◌≡◌, ◌||◌, [], ℕ, List, true, IsTrue, IfOk, OnOk, OnErr};
ghost use Rattle.common.specs.Order.{is_ascending};
ghost use Rattle.areas.specs.Areas.{is_among};
ghost use Rattle.areas.specs.Holders.{has_name, names_at, holds, IsWithHolder, IsWithoutHolder, IsWithoutAll};
ghost use Rattle.areas.specs.Name.{octets_lt};
ghost use Rattle.areas.specs.declared.selector.Selector.TheVariants as selector;

use crate::ascending_names::AscendingNames;
use crate::selector::Selector;
use crate::selector_key::SelectorKey;
use common::{Cell, Name};
use std::alloc::{AllocError, Global};
use std::collections::BTreeMap;
use std::marker::Model;

/// The names of the areas that have a selector, by the selector. A selector that no area has is not kept.
#[derive(Drop)]
pub(crate) struct Holders {
    names: BTreeMap<SelectorKey, AscendingNames>,
}

impl Model for Holders {
    ghost use Rattle.std.specs.Prelude.{List, ℕ};
    ghost use Rattle.areas.specs.declared.selector_key.SelectorKey.{SelectorKey};

    ghost Value = { List (SelectorKey × List (List ℕ)) };

    ghost view = { λ h. h.names.entries };
}

/// Puts each of the names in its place, unless it is among them.
fn add_all(alloc: Global, names: &[Name], found: &mut AscendingNames) -> Result<(), AllocError>
    ensures { OnOk result ((b : List ℕ) → has_name b found.new ≡ (has_name b names.now || has_name b found.old)) }
{
    for name in names {
        found.insert(alloc, name)?;
    }
    Ok(())
}

impl Holders {
    /// The same, in memory of its own.
    pub(crate) fn copied(&self) -> Result<Holders, AllocError>
        ensures { IfOk result (λ copy. copy ≡ self.now) }
    {
        Ok(Holders {
            names: self.names.clone()?,
        })
    }

    pub(crate) fn new(alloc: Global) -> Holders
        ensures { result ≡ [] }
    {
        Holders {
            names: BTreeMap::new(alloc),
        }
    }

    /// The areas that have the selector, in order.
    pub(crate) fn names_at(&self, s: Selector) -> &[Name]
        ensures { result.now ≡ names_at self.now s }
    {
        match self.names.get(&SelectorKey::of(s)) {
            Some(names) => names.as_slice(),
            None => &[],
        }
    }

    /// The areas that have the cell or its location area, in order.
    pub(crate) fn names_for(&self, alloc: Global, c: Cell) -> Result<Vec<Name>, AllocError>
        ensures found { IfOk result (λ names. (a : List ℕ) → has_name a names.items ≡ (holds self.now (selector.Cell c) a || holds self.now (selector.Lac c.lac) a)) }
        ensures order { IfOk result (λ names. is_ascending octets_lt names.items ≡ true) }
    {
        let mut found = AscendingNames::new(alloc);
        add_all(alloc, self.names_at(Selector::Lac(c.lac)), &mut found)?;
        add_all(alloc, self.names_at(Selector::Cell(c)), &mut found)?;
        Ok(found.into_vec())
    }

    /// The area has the selector.
    pub(crate) fn insert(&mut self, alloc: Global, s: Selector, a: &Name) -> Result<(), AllocError>
        ensures inserted { OnOk result (IsWithHolder self.old self.new s a.now) }
        ensures unchanged { OnErr result (self.new ≡ self.old) }
    {
        let key = SelectorKey::of(s);
        if let Some(names) = self.names.get_mut(&key) {
            return names.insert(alloc, a);
        }
        let mut names = AscendingNames::new(alloc);
        names.insert(alloc, a)?;
        self.names.insert(key, names)?;
        Ok(())
    }

    /// Takes the area out of those that have the selector, and returns whether none of them is left.
    fn take_out(&mut self, s: Selector, a: &Name) -> bool
        ensures without { IsWithoutHolder self.old self.new s a.now }
        ensures none { IsTrue result → names_at self.new s ≡ [] }
    {
        let Some(names) = self.names.get_mut(&SelectorKey::of(s)) else {
            return false;
        };
        names.remove(a);
        names.is_empty()
    }

    /// The area does not have the selector.
    pub(crate) fn remove(&mut self, s: Selector, a: &Name)
        ensures { IsWithoutHolder self.old self.new s a.now }
    {
        if self.take_out(s, a) {
            self.names.remove(&SelectorKey::of(s));
        }
    }

    /// The area has none of the selectors.
    pub(crate) fn remove_all(&mut self, selectors: &[Selector], a: &Name)
        ensures { IsWithoutAll self.old self.new selectors.now a.now }
    {
        for s in selectors {
            self.remove(*s, a);
        }
    }
}
