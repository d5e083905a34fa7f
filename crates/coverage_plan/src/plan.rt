//! The plan.

use crate::checks::{check_drop_area, check_issue, check_narrow, check_widen};
use crate::covering::is_covered;
use crate::edit::Edit;
use crate::edits::{drop_area, issue, narrow, widen};
use crate::made::Made;
use crate::pairs::Pairs;
use crate::plan_item::PlanItem;
use crate::plan_items::PlanItems;
use crate::reached_pairs::{pairs_of_areas, pairs_of_cell, pairs_of_selector};
use crate::refusal::Refusal;
use areas::{Areas, Selector};
use cell_register::{BscId, Register};
use common::{Cell, Name};
use serials::Serial;
use std::alloc::{AllocError, Global};
use std::marker::Model;
use std::slice;
use warning_book::{Book, Warning, WarningId};

/// The register, the areas and the book of warnings. They change by edits alone, and an edit that is refused leaves
/// them as they were.
pub struct Plan {
    alloc: Global,
    register: Register,
    areas: Areas,
    book: Book,
}

/// Written out, so that no crate above proves anew how its parts are dropped.
impl Drop for Plan {
    fn drop(self) {
        let Plan {
            alloc: _alloc,
            register: _register,
            areas: _areas,
            book: _book,
        } = self;
    }
}

impl Model for Plan {
    ghost use Rattle.coverage_plan.specs.Plan.{State};

    ghost Value = { State };

    ghost view = { λ p. record { register = p.register; areas = p.areas; book = p.book } };
}

impl Plan {
    ghost use Rattle.std.specs.Prelude.{◌≡◌, ◌++◌, None, Some, true, IsOk, IfOk, IfErr, OnOk, OnErr};
    ghost use Rattle.common.specs.Checks.{first_refusal};
    ghost use Rattle.coverage_plan.specs.Plan.{empty, wanted_of, wanted, items_of, items_at, plan_of};
    ghost use Rattle.coverage_plan.specs.Changes.{ArePairs, Changes};
    ghost use Rattle.coverage_plan.specs.Checks.{IsRefusal, edit_checks, grows_nothing, grows_no_list};
    ghost use Rattle.coverage_plan.specs.Reach.{is_of_cell, is_of_selector, is_of_areas};
    ghost use Rattle.coverage_plan.specs.Edited.{edited, made_of};
    ghost use Rattle.coverage_plan.specs.Sound.{IsSound};

    /// A plan without BSCs, areas and warnings. What it will need is taken from the allocator.
    pub fn new(alloc: Global) -> Plan
        ensures { result ≡ empty }
    {
        Plan {
            alloc,
            register: Register::new(alloc),
            areas: Areas::new(alloc),
            book: Book::new(alloc),
        }
    }

    /// The same in memory of its own.
    pub fn copied(&self) -> Result<Plan, AllocError>
        ensures { IfOk result (λ copy. copy ≡ self.now) }
    {
        Ok(Plan {
            alloc: self.alloc,
            register: self.register.copied()?,
            areas: self.areas.copied()?,
            book: self.book.copied()?,
        })
    }

    /// Lemma: what holds of every plan, for the proofs of callers. It does nothing.
    pub fn tell_soundness(&self)
        ensures { IsSound self.now }
    {
        self.register.tell_soundness();
        self.areas.tell_soundness();
        self.book.tell_soundness();
    }

    pub fn register(&self) -> &Register
        ensures { result.now ≡ self.now.register }
    {
        &self.register
    }

    pub fn areas(&self) -> &Areas
        ensures { result.now ≡ self.now.areas }
    {
        &self.areas
    }

    pub fn book(&self) -> &Book
        ensures { result.now ≡ self.now.book }
    {
        &self.book
    }

    /// Whether the edit can be made now, memory aside, and what refuses it. It changes nothing and takes no memory.
    #[tactic(auto, using(crate::proofs::CheckLemmas::translated_none, crate::proofs::CheckLemmas::translated_first))]
    pub fn check(&self, edit: &Edit) -> Result<(), Refusal>
        ensures accepted { OnOk result (first_refusal (edit_checks self.now edit.now) ≡ None) }
        ensures refused { IfErr result (λ e. first_refusal (edit_checks self.now edit.now) ≡ Some e) }
    {
        match edit {
            Edit::AddBsc(b) => self.register.check_add_bsc(*b)?,
            Edit::RemoveBsc(b) => self.register.check_remove_bsc(*b)?,
            Edit::AddCell(c, b) => self.register.check_add_cell(*c, *b)?,
            Edit::MoveCell(c, b) => self.register.check_move_cell(*c, *b)?,
            Edit::RemoveCell(c) => self.register.check_remove_cell(*c)?,
            Edit::AddArea(a) => self.areas.check_add_area(a)?,
            Edit::DropArea(a) => check_drop_area(&self.areas, &self.book, a)?,
            Edit::Put(a, s) => self.areas.check_put(a, *s)?,
            Edit::Cut(a, s) => self.areas.check_cut(a, *s)?,
            Edit::Issue(notice, names) => {
                check_issue(&self.areas, &self.book, notice, names.as_slice())?;
            }
            Edit::Update(number, content) => self.book.check_update(*number, content)?,
            Edit::Widen(number, a) => check_widen(&self.areas, &self.book, *number, a)?,
            Edit::Narrow(number, a) => check_narrow(&self.areas, &self.book, *number, a)?,
            Edit::Stop(number) => self.book.check_stop(*number)?,
            Edit::Forget(number) => self.book.check_forget(*number)?,
        }
        Ok(())
    }

    /// Makes the edit, and answers what it gives.
    ///
    /// Refused as `check` says, else as `Memory` where it is out of memory; an `Err` leaves the plan as it was. An edit that
    /// only moves, takes out or stops what is there takes no memory, and is refused only as `check` says.
    #[tactic(auto, using(crate::proofs::CheckLemmas::translated_none, crate::proofs::CheckLemmas::translated_first))]
    pub fn make(&mut self, edit: &Edit) -> Result<Made, Refusal>
        ensures accepted { OnOk result (first_refusal (edit_checks self.old edit.now) ≡ None) }
        ensures changed { OnOk result (self.new ≡ edited edit.now self.old) }
        ensures made { IfOk result (λ made. made ≡ made_of edit.now self.old) }
        ensures refused { IfErr result (IsRefusal (edit_checks self.old edit.now)) }
        ensures without_memory { grows_nothing edit.now ≡ true → IfErr result (λ e. first_refusal (edit_checks self.old edit.now) ≡ Some e) }
        ensures unchanged { OnErr result (self.new ≡ self.old) }
    {
        match edit {
            Edit::AddBsc(b) => self.register.add_bsc(*b)?,
            Edit::RemoveBsc(b) => self.register.remove_bsc(*b)?,
            Edit::AddCell(c, b) => self.register.add_cell(*c, *b)?,
            Edit::MoveCell(c, b) => self.register.move_cell(*c, *b)?,
            Edit::RemoveCell(c) => self.register.remove_cell(*c)?,
            Edit::AddArea(a) => self.areas.add_area(a)?,
            Edit::DropArea(a) => drop_area(&mut self.areas, &self.book, a)?,
            Edit::Put(a, s) => self.areas.put(a, *s)?,
            Edit::Cut(a, s) => self.areas.cut(a, *s)?,
            Edit::Issue(notice, names) => {
                let made = issue(&self.areas, &mut self.book, notice, names.as_slice())?;
                return Ok(made);
            }
            Edit::Update(number, content) => {
                let serial = self.book.update(*number, content)?;
                return Ok(Made::Updated(serial));
            }
            Edit::Widen(number, a) => widen(&self.areas, &mut self.book, *number, a)?,
            Edit::Narrow(number, a) => narrow(&self.areas, &mut self.book, *number, a)?,
            Edit::Stop(number) => self.book.stop(*number)?,
            Edit::Forget(number) => self.book.forget(*number)?,
        }
        Ok(Made::Done)
    }

    /// The cell with each warning in the book.
    fn pairs_of_cell(&self, c: Cell) -> Result<Pairs, AllocError>
        ensures { IfOk result (ArePairs (is_of_cell c self.now.book)) }
    {
        let pairs = pairs_of_cell(self.alloc, &self.book, c)?;
        Ok(pairs)
    }

    /// The cells that this selector alone puts into the area, with each warning that names the area.
    fn pairs_of_selector(&self, a: &Name, s: Selector) -> Result<Pairs, AllocError>
        ensures { IfOk result (ArePairs (is_of_selector self.now.register self.now.areas self.now.book a.now s)) }
    {
        let pairs = pairs_of_selector(self.alloc, &self.register, &self.areas, &self.book, a, s)?;
        Ok(pairs)
    }

    /// The registered cells in one of the areas, with the warning.
    fn pairs_of_areas(&self, names: &[Name], number: WarningId) -> Result<Pairs, AllocError>
        ensures { IfOk result (ArePairs (is_of_areas self.now.register self.now.areas names.now number)) }
    {
        let pairs = pairs_of_areas(self.alloc, &self.register, &self.areas, names, number)?;
        Ok(pairs)
    }

    /// The pairs that the edit will change.
    fn pairs_of(&self, edit: &Edit) -> Result<Pairs, AllocError>
        requires { first_refusal (edit_checks self.now edit.now) ≡ None }
        ensures pairs { IfOk result (Changes self.now (edited edit.now self.now)) }
        ensures without_memory { grows_no_list edit.now ≡ true → IsOk result }
    {
        self.book.tell_soundness();
        match edit {
            Edit::AddBsc(_) => Ok(Pairs::from_vec(Vec::new(self.alloc))),
            Edit::RemoveBsc(_) => Ok(Pairs::from_vec(Vec::new(self.alloc))),
            Edit::AddCell(c, _) => self.pairs_of_cell(*c),
            Edit::MoveCell(c, _) => self.pairs_of_cell(*c),
            Edit::RemoveCell(c) => self.pairs_of_cell(*c),
            Edit::AddArea(_) => Ok(Pairs::from_vec(Vec::new(self.alloc))),
            Edit::DropArea(_) => Ok(Pairs::from_vec(Vec::new(self.alloc))),
            Edit::Put(a, s) => self.pairs_of_selector(a, *s),
            Edit::Cut(a, s) => self.pairs_of_selector(a, *s),
            Edit::Issue(_, names) => {
                let number = WarningId::new(self.book.issued() + 1);
                self.pairs_of_areas(names.as_slice(), number)
            }
            Edit::Update(n, _) => self.pairs_of_areas(self.book.areas_of(*n), *n),
            Edit::Widen(n, a) => self.pairs_of_areas(slice::from_ref(a), *n),
            Edit::Narrow(n, a) => self.pairs_of_areas(slice::from_ref(a), *n),
            Edit::Stop(n) => self.pairs_of_areas(self.book.areas_of(*n), *n),
            Edit::Forget(n) => self.pairs_of_areas(self.book.areas_of(*n), *n),
        }
    }

    /// Makes the edit, and answers which pairs of a cell and a warning it changes: those whose cell is registered and
    /// whose warning is in the book, before or after, and of which the cell's BSC, the wanted serial number or the areas
    /// of the warning that cover the cell are not the same before and after.
    ///
    /// Refused as `check` says, else as `Memory` where it is out of memory; an `Err` leaves the plan as it was. A RemoveBsc
    /// and a DropArea take no memory, and are refused only as `check` says.
    pub fn edit(&mut self, edit: &Edit) -> Result<Pairs, Refusal>
        ensures accepted { OnOk result (first_refusal (edit_checks self.old edit.now) ≡ None) }
        ensures changed { OnOk result (self.new ≡ edited edit.now self.old) }
        ensures pairs { IfOk result (Changes self.old self.new) }
        ensures refused { IfErr result (IsRefusal (edit_checks self.old edit.now)) }
        ensures without_memory { grows_no_list edit.now ≡ true → IfErr result (λ e. first_refusal (edit_checks self.old edit.now) ≡ Some e) }
        ensures unchanged { OnErr result (self.new ≡ self.old) }
    {
        self.check(edit)?;
        let pairs = self.pairs_of(edit)?;
        self.make(edit)?;
        Ok(pairs)
    }

    /// The serial number that is wanted of the warning in the cell.
    fn wanted_of(&self, c: Cell, warning: &Warning) -> Option<Serial>
        ensures { result ≡ wanted_of self.now c warning.now }
    {
        let is_wanted = warning.is_active()
            && self.register.bsc_of(c).is_some()
            && is_covered(&self.areas, warning.areas(), c);
        if is_wanted { warning.serial() } else { None }
    }

    /// The serial number of the warning's current version, if it is active, the cell is registered, and one of the
    /// warning's areas covers it; else `None`.
    pub fn wanted(&self, c: Cell, number: WarningId) -> Option<Serial>
        ensures { result ≡ wanted self.now c number }
    {
        match self.book.find(number) {
            Some(warning) => self.wanted_of(c, warning),
            None => None,
        }
    }

    /// Puts what is planned of the warning in the cell last.
    fn put_item(
        &self,
        c: Cell,
        warning: &Warning,
        out: &mut Vec<PlanItem>,
    ) -> Result<(), AllocError>
        ensures { OnOk result (out.new.items ≡ out.old.items ++ items_of self.now c warning.now) }
    {
        if let Some(serial) = self.wanted_of(c, warning) {
            out.push(PlanItem {
                cell: c,
                message_id: warning.message_id(),
                serial,
            })?;
        }
        Ok(())
    }

    /// Puts what is planned in the cell last.
    fn put_items(&self, c: Cell, out: &mut Vec<PlanItem>) -> Result<(), AllocError>
        ensures { OnOk result (out.new.items ≡ out.old.items ++ items_at self.now c) }
    {
        let warnings = self.book.as_slice();
        for warning in warnings {
            self.put_item(c, warning, out)?;
        }
        Ok(())
    }

    /// What is planned at the BSC: in each of its cells each active warning one of whose areas covers the cell, with
    /// its message identifier and the serial number of its current version; by cell, and in a cell by warning.
    pub fn plan_of(&self, b: BscId) -> Result<PlanItems, AllocError>
        ensures { IfOk result (λ items. items ≡ plan_of self.now b) }
    {
        let all = self.register.cells_of(b)?;
        let cells = all.as_slice();
        let mut items = Vec::new(self.alloc);
        for cell in cells {
            self.put_items(*cell, &mut items)?;
        }
        Ok(PlanItems::from_vec(items))
    }
}
