//! The plan, with what is read once of the warnings on whose lines an event bears.

ghost use Rattle.std.specs.Prelude.{◌≡◌, ◌<◌, Some, nat_eq, true, length, IfOk, IfSome};
ghost use Rattle.std.specs.List.{slice_index_or};
ghost use Rattle.centre_lines.specs.Found.{AreFound, Found, IsOf};
ghost use Rattle.warning_book.specs.Book.{warning_of};

use crate::facts_before::FactsBefore;
use crate::found_warning::FoundWarning;
use crate::line_in_cell::LineInCell;
use areas::Areas;
use common::Cell;
use coverage_board::AreaSet;
use coverage_plan::Plan;
use kept_tables::Spot;
use std::alloc::{AllocError, Global};
use std::marker::Model;
use warning_book::{Book, Warning, WarningId};

/// Whether the warning of that number stands at that place.
fn is_at(found: &[FoundWarning<'_>], place: usize, n: WarningId) -> bool
    ensures bound { result ≡ true → place < length found.now }
    ensures found { result ≡ true → (d : Found) → nat_eq n (slice_index_or found.now place d).warning ≡ true }
{
    match found.get(place) {
        Some(it) => it.is_of(n),
        None => false,
    }
}

/// Where the warning of that number stands, if it is there. It mostly stands where the last one did, or next to it.
fn place_of(found: &[FoundWarning<'_>], last: usize, n: WarningId) -> Option<usize>
    ensures bound { IfSome result (λ i. i < length found.now) }
    ensures found { IfSome result (λ i. (d : Found) → nat_eq n (slice_index_or found.now i d).warning ≡ true) }
{
    let next = last.wrapping_add(1);
    if is_at(found, last, n) {
        return Some(last);
    }
    if is_at(found, next, n) {
        return Some(next);
    }
    for (i, it) in found.iter().enumerate() {
        if it.is_of(n) {
            return Some(i);
        }
    }
    None
}

/// The plan, with what was read once of some warnings, where the last one and the last cell were found, and whether many areas
/// cover one of the cells. Contracts see the plan.
#[derive(Drop)]
pub(crate) struct FoundPlan<'a> {
    alloc: Global,
    plan: &'a Plan,
    found: Vec<FoundWarning<'a>>,
    last: usize,
    near: usize,
    asks_each: bool,
}

impl<'a> Model for FoundPlan<'a> {
    ghost use Rattle.coverage_plan.specs.Plan.{State};
    ghost use Rattle.centre_lines.specs.Found.{AreFound};

    ghost Value = { State };

    ghost view = { λ p. p.plan.now };

    ghost invariant = { λ p. AreFound p.plan.now.areas p.plan.now.book p.found.items };
}

/// Where what was read once of the warning stands, which has that number. It is read and put last where it isn't there.
#[inline(always)]
fn place_in<'a>(
    found: &mut Vec<FoundWarning<'a>>,
    alloc: Global,
    plan: &'a Plan,
    last: usize,
    n: WarningId,
    w: &Warning,
) -> Result<usize, AllocError>
    requires there { Some w.now ≡ warning_of plan.now.book n }
    requires found { AreFound plan.now.areas plan.now.book found.old.items }
    ensures found { AreFound plan.now.areas plan.now.book found.new.items }
    ensures bound { IfOk result (λ i. i < length found.new.items) }
    ensures number { IfOk result (λ i. (d : Found) → nat_eq n (slice_index_or found.new.items i d).warning ≡ true) }
    ensures place { IfOk result (λ i. (d : Found) → IsOf plan.now.areas (Some w.now) (slice_index_or found.new.items i d)) }
{
    if let Some(place) = place_of(found, last, n) {
        return Ok(place);
    }
    plan.book().tell_soundness();
    let place = found.len();
    found.push(FoundWarning::of(alloc, plan.areas(), n, w)?)?;
    Ok(place)
}

impl<'a> FoundPlan<'a> {
    ghost use Rattle.std.specs.Prelude.{◌≡◌, Some, filter, IfOk};
    ghost use Rattle.areas.specs.Areas.{covers};
    ghost use Rattle.cell_register.specs.Register.{place_in, is_place};
    ghost use Rattle.centre_past.specs.State.{facts_from};
    ghost use Rattle.warning_book.specs.Book.{warning_of};

    /// The plan, where nothing was read of any warning.
    pub(crate) fn new(alloc: Global, plan: &'a Plan) -> FoundPlan<'a>
        ensures { result ≡ plan.now }
    {
        FoundPlan {
            alloc,
            plan,
            found: Vec::new(alloc),
            last: 0,
            near: 0,
            asks_each: false,
        }
    }

    /// The allocator of what is read.
    pub(crate) fn alloc(&self) -> Global {
        self.alloc
    }

    pub(crate) fn areas(&self) -> &'a Areas
        ensures { result.now ≡ self.now.areas }
    {
        self.plan.areas()
    }

    pub(crate) fn book(&self) -> &'a Book
        ensures { result.now ≡ self.now.book }
    {
        self.plan.book()
    }

    /// Whether each warning is asked which of its areas cover a cell.
    pub(crate) fn asks_each(&self) -> bool {
        self.asks_each
    }

    /// From now on each warning is asked.
    pub(crate) fn ask_each(&mut self)
        ensures { self.new ≡ self.old }
    {
        self.asks_each = true;
    }

    /// Those of the areas of the warning, which has that number, that cover the cell. What the areas cover is kept for its
    /// other lines.
    #[inline(always)]
    pub(crate) fn covering<'b>(
        &mut self,
        n: WarningId,
        w: &'b Warning,
        c: Cell,
    ) -> Result<AreaSet<'b>, AllocError>
        requires { Some w.now ≡ warning_of self.old.book n }
        ensures covering { IfOk result (λ names. names ≡ filter (λ a. covers self.old.areas a c) w.now.areas) }
        ensures same { self.new ≡ self.old }
    {
        self.plan.book().tell_soundness();
        let place = place_in(&mut self.found, self.alloc, self.plan, self.last, n, w)?;
        self.last = place;
        let digits = self.found[place].digits(c);
        Ok(AreaSet::of(w.areas(), digits))
    }

    /// What is read of a line of the warning, which has that number, before an edit that may change it.
    #[inline(always)]
    pub(crate) fn facts_before(
        &mut self,
        there: &LineInCell,
        n: WarningId,
        w: &Warning,
    ) -> Result<FactsBefore, AllocError>
        requires { Some w.now ≡ warning_of self.old.book n }
        ensures facts { IfOk result (λ f. f ≡ facts_from self.old.register self.old.areas there.now.down there.now.spot.bsc there.now.spot.cell there.now.line (Some w.now)) }
        ensures same { self.new ≡ self.old }
    {
        let here = self.is_here(&there.spot);
        self.plan.book().tell_soundness();
        let place = place_in(&mut self.found, self.alloc, self.plan, self.last, n, w)?;
        self.last = place;
        let found = &mut self.found[place];
        let digits = found.digits(there.spot.cell);
        let before = found.before(self.alloc, w)?;
        Ok(FactsBefore::of(there, here, digits, before))
    }

    /// Whether the cell is registered at the BSC.
    #[inline(always)]
    pub(crate) fn is_here(&mut self, spot: &Spot) -> bool
        ensures here { result ≡ is_place (place_in self.old.register spot.now.cell) spot.now.bsc }
        ensures same { self.new ≡ self.old }
    {
        match self.plan.register().bsc_near(spot.cell, &mut self.near) {
            Some(other) => other == spot.bsc,
            None => false,
        }
    }
}
