//! The areas of a centre.

use crate::area::Area;
use crate::coverage::Coverage;
use crate::holders::Holders;
use crate::naming::is_name;
use crate::refusal::{Limit, Refusal};
use crate::selector::Selector;
use crate::{edits, lookups};
use common::{Cell, Name, Names};
use std::alloc::{AllocError, Global};
use std::marker::Model;

/// Named areas. Contracts see them as a list, in the order of the octets of their names. An edit that is refused
/// leaves them as they were.
pub struct Areas {
    alloc: Global,
    list: Vec<Area>,
    /// The areas by their selectors.
    holders: Holders,
}

/// Written out, so that no crate above proves anew how its parts are dropped.
impl Drop for Areas {
    fn drop(self) {
        let Areas {
            alloc: _alloc,
            list: _list,
            holders: _holders,
        } = self;
    }
}

impl Model for Areas {
    ghost use Rattle.std.specs.Prelude.{List};
    ghost use Rattle.areas.specs.declared.area.Area.{Area};
    ghost use Rattle.areas.specs.Holders.{IsIndexed};

    ghost Value = { List Area };

    ghost view = { λ s. s.list.items };

    ghost invariant = { λ s. IsIndexed s.list.items s.holders };
}

impl Areas {
    ghost use Rattle.std.specs.Prelude.{◌≡◌, ◌≤◌, ◌⊎◌, ℕ, List, [], None, Some, true, length, IfOk, IfErr, OnOk, OnErr};
    ghost use Rattle.common.specs.Order.{is_ascending, each_once};
    ghost use Rattle.areas.specs.Areas.{has_area, selectors_of, has_selector, covers, areas_of, named_lt, with_area, without_area, with_selector, without_selector};
    ghost use Rattle.common.specs.Checks.{first_refusal};
    ghost use Rattle.areas.specs.Selector.{selector_eq, selector_lt};
    ghost use Rattle.areas.specs.Checks.{add_area_checks, drop_area_checks, put_checks, cut_checks};
    ghost use Rattle.areas.specs.declared.refusal.Refusal.TheVariants as refusal;

    /// The same, in memory of its own.
    pub fn copied(&self) -> Result<Areas, AllocError>
        ensures { IfOk result (λ copy. copy ≡ self.now) }
    {
        Ok(Areas {
            alloc: self.alloc,
            list: self.list.clone()?,
            holders: self.holders.copied()?,
        })
    }

    /// No areas. What they will need is taken from the allocator.
    pub fn new(alloc: Global) -> Areas
        ensures { result ≡ [] }
    {
        Areas {
            alloc,
            list: Vec::new(alloc),
            holders: Holders::new(alloc),
        }
    }

    /// Whether an area of that name can be made now, and what refuses it: `BadName`, `AreaExists` or `Limit`, the first
    /// that holds. It changes nothing and takes no memory.
    pub fn check_add_area(&self, a: &Name) -> Result<(), Refusal>
        ensures accepted { OnOk result (first_refusal (add_area_checks self.now a.now) ≡ None) }
        ensures refused { IfErr result (λ e. first_refusal (add_area_checks self.now a.now) ≡ Some e) }
    {
        if !is_name(a) {
            return Err(Refusal::BadName);
        }
        if lookups::has_area(self.list.as_slice(), a) {
            return Err(Refusal::AreaExists);
        }
        if self.list.len() >= 4096 {
            return Err(Refusal::Limit {
                which: Limit::Areas,
            });
        }
        Ok(())
    }

    /// Whether the area can be taken away now, and what refuses it: `NoSuchArea`. It changes nothing and takes no memory.
    pub fn check_drop_area(&self, a: &Name) -> Result<(), Refusal>
        ensures accepted { OnOk result (first_refusal (drop_area_checks self.now a.now) ≡ None) }
        ensures refused { IfErr result (λ e. first_refusal (drop_area_checks self.now a.now) ≡ Some e) }
    {
        if !lookups::has_area(self.list.as_slice(), a) {
            return Err(Refusal::NoSuchArea);
        }
        Ok(())
    }

    /// Whether the selector can be put into the area now, and what refuses it: `NoSuchArea`, `SelectorThere` or `Limit`,
    /// the first that holds. It changes nothing and takes no memory.
    pub fn check_put(&self, a: &Name, s: Selector) -> Result<(), Refusal>
        ensures accepted { OnOk result (first_refusal (put_checks self.now a.now s) ≡ None) }
        ensures refused { IfErr result (λ e. first_refusal (put_checks self.now a.now s) ≡ Some e) }
    {
        if !lookups::has_area(self.list.as_slice(), a) {
            return Err(Refusal::NoSuchArea);
        }
        if lookups::has_selector(self.list.as_slice(), a, s) {
            return Err(Refusal::SelectorThere);
        }
        if lookups::selector_count(self.list.as_slice(), a) >= 4096 {
            return Err(Refusal::Limit {
                which: Limit::Selectors,
            });
        }
        Ok(())
    }

    /// Whether the selector can be taken out of the area now, and what refuses it: `NoSuchArea` or `SelectorNotThere`, the
    /// first that holds. It changes nothing and takes no memory.
    pub fn check_cut(&self, a: &Name, s: Selector) -> Result<(), Refusal>
        ensures accepted { OnOk result (first_refusal (cut_checks self.now a.now s) ≡ None) }
        ensures refused { IfErr result (λ e. first_refusal (cut_checks self.now a.now s) ≡ Some e) }
    {
        if !lookups::has_area(self.list.as_slice(), a) {
            return Err(Refusal::NoSuchArea);
        }
        if !lookups::has_selector(self.list.as_slice(), a, s) {
            return Err(Refusal::SelectorNotThere);
        }
        Ok(())
    }

    /// Makes an area without selectors. Refused as `BadName`, `AreaExists` or `Limit`, the first that holds, else as
    /// `Memory` where memory runs out; an `Err` leaves the areas as they were.
    pub fn add_area(&mut self, a: &Name) -> Result<(), Refusal>
        ensures accepted { OnOk result (first_refusal (add_area_checks self.old a.now) ≡ None) }
        ensures changed { OnOk result (self.new ≡ with_area a.now self.old) }
        ensures refused { IfErr result (λ e. (first_refusal (add_area_checks self.old a.now) ≡ Some e) ⊎ ((e ≡ refusal.Memory) × (first_refusal (add_area_checks self.old a.now) ≡ None))) }
        ensures unchanged { OnErr result (self.new ≡ self.old) }
    {
        self.check_add_area(a)?;
        edits::add_area(self.alloc, &mut self.list, a)?;
        Ok(())
    }

    /// Takes an area away with its selectors, and takes no memory. Refused as `NoSuchArea`, which leaves the areas as
    /// they were.
    pub fn drop_area(&mut self, a: &Name) -> Result<(), Refusal>
        ensures accepted { OnOk result (first_refusal (drop_area_checks self.old a.now) ≡ None) }
        ensures changed { OnOk result (self.new ≡ without_area a.now self.old) }
        ensures refused { IfErr result (λ e. first_refusal (drop_area_checks self.old a.now) ≡ Some e) }
        ensures unchanged { OnErr result (self.new ≡ self.old) }
    {
        self.check_drop_area(a)?;
        let selectors = lookups::selectors_of(self.list.as_slice(), a);
        self.holders.remove_all(selectors, a);
        edits::drop_area(&mut self.list, a);
        Ok(())
    }

    /// Puts a selector into an area, in its place by location area. Refused as `NoSuchArea`, `SelectorThere` or `Limit`,
    /// the first that holds, else as `Memory` where memory runs out; an `Err` leaves the areas as they were.
    pub fn put(&mut self, a: &Name, s: Selector) -> Result<(), Refusal>
        ensures accepted { OnOk result (first_refusal (put_checks self.old a.now s) ≡ None) }
        ensures changed { OnOk result (self.new ≡ with_selector a.now s self.old) }
        ensures refused { IfErr result (λ e. (first_refusal (put_checks self.old a.now s) ≡ Some e) ⊎ ((e ≡ refusal.Memory) × (first_refusal (put_checks self.old a.now s) ≡ None))) }
        ensures unchanged { OnErr result (self.new ≡ self.old) }
    {
        self.check_put(a, s)?;
        self.holders.insert(self.alloc, s, a)?;
        match edits::put(self.alloc, &mut self.list, a, s) {
            Ok(()) => Ok(()),
            Err(_) => {
                self.holders.remove(s, a);
                Err(Refusal::Memory)
            }
        }
    }

    /// Takes a selector out of an area, and takes no memory. Refused as `NoSuchArea` or `SelectorNotThere`, the first
    /// that holds, which leaves the areas as they were.
    pub fn cut(&mut self, a: &Name, s: Selector) -> Result<(), Refusal>
        ensures accepted { OnOk result (first_refusal (cut_checks self.old a.now s) ≡ None) }
        ensures changed { OnOk result (self.new ≡ without_selector a.now s self.old) }
        ensures refused { IfErr result (λ e. first_refusal (cut_checks self.old a.now s) ≡ Some e) }
        ensures unchanged { OnErr result (self.new ≡ self.old) }
    {
        self.check_cut(a, s)?;
        self.holders.remove(s, a);
        edits::cut(&mut self.list, a, s);
        Ok(())
    }

    /// The areas, in the order of the octets of their names.
    pub fn as_slice(&self) -> &[Area]
        ensures { result.now ≡ self.now }
    {
        self.list.as_slice()
    }

    /// Whether the area is there, with selectors or without.
    pub fn has_area(&self, a: &Name) -> bool
        ensures { result ≡ has_area self.now a.now }
    {
        lookups::has_area(self.list.as_slice(), a)
    }

    /// The selectors of the area, in their order; none where there is no such area, which `has_area` tells apart.
    pub fn selectors_of(&self, a: &Name) -> &[Selector]
        ensures selectors { result.now ≡ selectors_of self.now a.now }
        ensures order { is_ascending selector_lt result.now ≡ true }
    {
        lookups::selectors_of(self.list.as_slice(), a)
    }

    /// Whether the area has the selector; `false` where there is no such area.
    pub fn has_selector(&self, a: &Name, s: Selector) -> bool
        ensures { result ≡ has_selector self.now a.now s }
    {
        lookups::has_selector(self.list.as_slice(), a, s)
    }

    /// Whether the area covers the cell; `false` where there is no such area.
    pub fn covers(&self, a: &Name, c: Cell) -> bool
        ensures { result ≡ covers self.now a.now c }
    {
        lookups::covers(self.list.as_slice(), a, c)
    }

    /// What the area covers, to ask of many cells; nothing where there is no such area.
    pub fn coverage(&self, a: &Name) -> Coverage<'_>
        ensures { result ≡ selectors_of self.now a.now }
    {
        Coverage::of(self.list.as_slice(), a)
    }

    /// The names of the areas that cover the cell, in the order of their octets.
    pub fn areas_of(&self, c: Cell) -> Result<Names, AllocError>
        ensures { IfOk result (λ names. names ≡ areas_of self.now c) }
    {
        let names = self.holders.names_for(self.alloc, c)?;
        Ok(Names::from_vec(names))
    }

    /// A lemma, not a test: it returns nothing, and its clauses say what holds of all areas.
    #[tactic(auto, using(crate::specs::SelectorLaws::ordered_once))]
    pub fn tell_soundness(&self)
        ensures ascending { is_ascending named_lt self.now ≡ true }
        ensures few { length self.now ≤ 4096 }
        ensures ordered { (a : List ℕ) → is_ascending selector_lt (selectors_of self.now a) ≡ true }
        ensures once { (a : List ℕ) → each_once selector_eq (selectors_of self.now a) ≡ true }
        ensures short { (a : List ℕ) → length (selectors_of self.now a) ≤ 4096 }
    {
        let _ = &self.alloc;
    }
}
