//! The book of warnings.

use crate::checks::each_once;
use crate::content::Content;
use crate::notice::Notice;
use crate::refusal::{Limit, Refusal};
use crate::version::Version;
use crate::warning::Warning;
use crate::warning_id::WarningId;
use crate::{edits, lookups, questions, warning_checks};
use common::Name;
use serials::{Serial, least_free_code};
use std::alloc::{AllocError, Global};
use std::marker::Model;

/// The warnings that were issued and not forgotten, in the order of issue, and how many were ever issued.
pub struct Book {
    alloc: Global,
    issued: u32,
    warnings: Vec<Warning>,
}

/// Written out, so that no crate above proves anew how its parts are dropped.
impl Drop for Book {
    fn drop(self) {
        let Book {
            alloc: _alloc,
            issued: _issued,
            warnings: _warnings,
        } = self;
    }
}

impl Model for Book {
    ghost use Rattle.warning_book.specs.Book.{State};
    ghost use Rattle.warning_book.specs.Sound.{IsSound};

    ghost Value = { State };

    ghost view = { λ b. record { issued = b.issued; warnings = b.warnings.items } };

    ghost invariant = { λ b. IsSound (record { issued = b.issued; warnings = b.warnings.items }) };
}

impl Book {
    ghost use Rattle.std.specs.Prelude.{◌≡◌, ◌≤◌, ◌⊎◌, ◌+◌, ℕ, None, Some, true, length, nat_eq, ltb, IfOk, IfErr, OnOk, OnErr};
    ghost use Rattle.std.specs.List.{list_any, list_all};
    ghost use Rattle.std.specs.Option.{option_copied};
    ghost use Rattle.warning_book.specs.Book.{empty, number_lt, names, is_active, warning_of, current, message_id, versions_of, numbers, names_one_of, naming, naming_one_of, is_so, areas_of, content_of, new_serial, next_serial, after_issue, after_update, after_widen, after_narrow, after_stop, after_forget};
    ghost use Rattle.common.specs.Checks.{first_refusal};
    ghost use Rattle.common.specs.Order.{is_ascending};
    ghost use Rattle.warning_book.specs.Checks.{issue_checks, there_checks, content_checks, update_checks, widen_checks, narrow_checks, stop_checks, forget_checks};
    ghost use Rattle.warning_book.specs.Sound.{was_issued, has_areas, has_contents, has_versions, has_serials, has_one_code, has_one_kind, have_own_codes};
    ghost use Rattle.warning_book.specs.declared.refusal.Refusal.TheVariants as refusal;

    /// A book without warnings. What it will need is taken from the allocator.
    pub fn new(alloc: Global) -> Book
        ensures { result ≡ empty }
    {
        Book {
            alloc,
            issued: 0,
            warnings: Vec::new(alloc),
        }
    }

    /// The same book, in memory of its own.
    pub fn copied(&self) -> Result<Book, AllocError>
        ensures { IfOk result (λ copy. copy ≡ self.now) }
    {
        Ok(Book {
            alloc: self.alloc,
            issued: self.issued,
            warnings: self.warnings.clone()?,
        })
    }

    /// The serial number of a new warning; `None` where no code is free.
    fn new_serial(&self, notice: &Notice) -> Result<Option<Serial>, AllocError>
        ensures { IfOk result (λ serial. serial ≡ new_serial self.now notice.now) }
    {
        let used = questions::codes_of(self.alloc, self.warnings.as_slice(), notice.message_id)?;
        match least_free_code(used.as_slice()) {
            Some(code) => Ok(Serial::new(notice.scope, code, 0)),
            None => Ok(None),
        }
    }

    /// Whether `issue` takes the warning, memory aside.
    pub fn check_issue(&self, notice: &Notice, areas: &[Name]) -> Result<(), Refusal>
        ensures accepted { OnOk result (first_refusal (issue_checks self.now notice.now areas.now) ≡ None) }
        ensures refused { IfErr result (λ e. first_refusal (issue_checks self.now notice.now areas.now) ≡ Some e) }
    {
        if areas.is_empty() {
            return Err(Refusal::NoAreas);
        }
        if !each_once(areas) {
            return Err(Refusal::AreaThere);
        }
        if !notice.content.have_pages() {
            return Err(Refusal::BadPages);
        }
        if !notice.content.has_period() {
            return Err(Refusal::BadPeriod);
        }
        if self.warnings.len() >= 256 {
            return Err(Refusal::Limit {
                which: Limit::Warnings,
            });
        }
        if areas.len() > 16 {
            return Err(Refusal::Limit {
                which: Limit::WarningAreas,
            });
        }
        if self.issued >= 4294967295 {
            return Err(Refusal::Limit { which: Limit::Ids });
        }
        Ok(())
    }

    /// Puts a new warning into the book, and answers its number and its serial number.
    ///
    /// Refused as `NoAreas`, `AreaThere` where an area is named twice, `BadPages`, `BadPeriod`, or `Limit` of warnings,
    /// areas or numbers, the first that holds, else as `Memory` where it is out of memory; an `Err` leaves the book as
    /// it was.
    pub fn issue(&mut self, notice: &Notice, areas: &[Name]) -> Result<(WarningId, Serial), Refusal>
        ensures accepted { OnOk result (first_refusal (issue_checks self.old notice.now areas.now) ≡ None) }
        ensures number { IfOk result (λ issued. issued.0 ≡ self.old.issued + 1) }
        ensures serial { IfOk result (λ issued. new_serial self.old notice.now ≡ Some issued.1) }
        ensures changed { IfOk result (λ issued. self.new ≡ after_issue notice.now areas.now issued.1 self.old) }
        ensures refused { IfErr result (λ e. (first_refusal (issue_checks self.old notice.now areas.now) ≡ Some e) ⊎ ((e ≡ refusal.Memory) × (first_refusal (issue_checks self.old notice.now areas.now) ≡ None))) }
        ensures unchanged { OnErr result (self.new ≡ self.old) }
    {
        self.check_issue(notice, areas)?;
        let Some(serial) = self.new_serial(notice)? else {
            return Err(Refusal::Limit {
                which: Limit::Warnings,
            });
        };
        let number = WarningId::new(self.issued + 1);
        edits::issue(
            self.alloc,
            &mut self.warnings,
            number,
            notice,
            areas,
            serial,
        )?;
        self.issued += 1;
        Ok((number, serial))
    }

    /// Whether the warning is there and was not stopped: `NoSuchWarning`, then `NotActive`.
    pub fn check_active(&self, number: WarningId) -> Result<(), Refusal>
        ensures accepted { OnOk result (first_refusal (there_checks self.now number) ≡ None) }
        ensures refused { IfErr result (λ e. first_refusal (there_checks self.now number) ≡ Some e) }
    {
        match lookups::find(self.warnings.as_slice(), number) {
            Some(warning) => warning_checks::check_active(warning),
            None => Err(Refusal::NoSuchWarning),
        }
    }

    /// Whether the content can be broadcast and is of the warning's kind: `BadPages`, `BadPeriod`, then `WrongKind`. It
    /// says nothing of a warning that is not there.
    pub fn check_content(&self, number: WarningId, content: &Content) -> Result<(), Refusal>
        ensures accepted { OnOk result (first_refusal (content_checks self.now number content.now) ≡ None) }
        ensures refused { IfErr result (λ e. first_refusal (content_checks self.now number content.now) ≡ Some e) }
    {
        if !content.have_pages() {
            return Err(Refusal::BadPages);
        }
        if !content.has_period() {
            return Err(Refusal::BadPeriod);
        }
        if lookups::is_of_other_kind(self.warnings.as_slice(), number, content) {
            return Err(Refusal::WrongKind);
        }
        Ok(())
    }

    /// Whether `update` takes the content, memory aside: what `check_active` says, then what `check_content` says.
    pub fn check_update(&self, number: WarningId, content: &Content) -> Result<(), Refusal>
        ensures accepted { OnOk result (first_refusal (update_checks self.now number content.now) ≡ None) }
        ensures refused { IfErr result (λ e. first_refusal (update_checks self.now number content.now) ≡ Some e) }
    {
        self.check_active(number)?;
        self.check_content(number, content)?;
        Ok(())
    }

    /// Gives a warning a new version, which stands last, and answers its serial number. Update number 0 follows 15: a
    /// version that has the new serial number already leaves the book.
    ///
    /// Refused as `NoSuchWarning`, `NotActive`, `BadPages`, `BadPeriod`, or `WrongKind` where the warning is of the other
    /// kind, the first that holds, else as `Memory` where it is out of memory; an `Err` leaves the book as it was.
    pub fn update(&mut self, number: WarningId, content: &Content) -> Result<Serial, Refusal>
        ensures accepted { OnOk result (first_refusal (update_checks self.old number content.now) ≡ None) }
        ensures serial { IfOk result (λ s. next_serial self.old number ≡ Some s) }
        ensures changed { OnOk result (self.new ≡ after_update number content.now self.old) }
        ensures refused { IfErr result (λ e. (first_refusal (update_checks self.old number content.now) ≡ Some e) ⊎ ((e ≡ refusal.Memory) × (first_refusal (update_checks self.old number content.now) ≡ None))) }
        ensures unchanged { OnErr result (self.new ≡ self.old) }
    {
        self.check_update(number, content)?;
        let serial = edits::update(self.alloc, &mut self.warnings, number, content)?;
        Ok(serial)
    }

    /// Whether `widen` takes the area, memory aside.
    pub fn check_widen(&self, number: WarningId, a: &Name) -> Result<(), Refusal>
        ensures accepted { OnOk result (first_refusal (widen_checks self.now number a.now) ≡ None) }
        ensures refused { IfErr result (λ e. first_refusal (widen_checks self.now number a.now) ≡ Some e) }
    {
        match lookups::find(self.warnings.as_slice(), number) {
            Some(warning) => warning_checks::check_widen(warning, a),
            None => Err(Refusal::NoSuchWarning),
        }
    }

    /// Puts an area last among those of a warning.
    ///
    /// Refused as `NoSuchWarning`, `NotActive`, `AreaThere` or `Limit`, the first that holds, else as `Memory` where it
    /// is out of memory; an `Err` leaves the book as it was.
    pub fn widen(&mut self, number: WarningId, a: &Name) -> Result<(), Refusal>
        ensures accepted { OnOk result (first_refusal (widen_checks self.old number a.now) ≡ None) }
        ensures changed { OnOk result (self.new ≡ after_widen number a.now self.old) }
        ensures refused { IfErr result (λ e. (first_refusal (widen_checks self.old number a.now) ≡ Some e) ⊎ ((e ≡ refusal.Memory) × (first_refusal (widen_checks self.old number a.now) ≡ None))) }
        ensures unchanged { OnErr result (self.new ≡ self.old) }
    {
        self.check_widen(number, a)?;
        edits::widen(self.alloc, &mut self.warnings, number, a)?;
        Ok(())
    }

    /// Whether `narrow` takes the area.
    pub fn check_narrow(&self, number: WarningId, a: &Name) -> Result<(), Refusal>
        ensures accepted { OnOk result (first_refusal (narrow_checks self.now number a.now) ≡ None) }
        ensures refused { IfErr result (λ e. first_refusal (narrow_checks self.now number a.now) ≡ Some e) }
    {
        match lookups::find(self.warnings.as_slice(), number) {
            Some(warning) => warning_checks::check_narrow(warning, a),
            None => Err(Refusal::NoSuchWarning),
        }
    }

    /// Takes an area out of those of a warning, whose others keep their order.
    ///
    /// Refused as `NoSuchWarning`, `NotActive`, `AreaNotThere` or `LastArea`, the first that holds, which leaves the
    /// book as it was.
    pub fn narrow(&mut self, number: WarningId, a: &Name) -> Result<(), Refusal>
        ensures accepted { OnOk result (first_refusal (narrow_checks self.old number a.now) ≡ None) }
        ensures changed { OnOk result (self.new ≡ after_narrow number a.now self.old) }
        ensures refused { IfErr result (λ e. first_refusal (narrow_checks self.old number a.now) ≡ Some e) }
        ensures unchanged { OnErr result (self.new ≡ self.old) }
    {
        self.check_narrow(number, a)?;
        edits::narrow(&mut self.warnings, number, a);
        Ok(())
    }

    /// Whether `stop` takes the warning.
    pub fn check_stop(&self, number: WarningId) -> Result<(), Refusal>
        ensures accepted { OnOk result (first_refusal (stop_checks self.now number) ≡ None) }
        ensures refused { IfErr result (λ e. first_refusal (stop_checks self.now number) ≡ Some e) }
    {
        self.check_active(number)?;
        Ok(())
    }

    /// Stops a warning, which stays in the book, and takes no memory.
    ///
    /// Refused as `NoSuchWarning` or `NotActive`, the first that holds, which leaves the book as it was.
    pub fn stop(&mut self, number: WarningId) -> Result<(), Refusal>
        ensures accepted { OnOk result (first_refusal (stop_checks self.old number) ≡ None) }
        ensures changed { OnOk result (self.new ≡ after_stop number self.old) }
        ensures refused { IfErr result (λ e. first_refusal (stop_checks self.old number) ≡ Some e) }
        ensures unchanged { OnErr result (self.new ≡ self.old) }
    {
        self.check_stop(number)?;
        edits::stop(&mut self.warnings, number);
        Ok(())
    }

    /// Whether `forget` takes the warning.
    pub fn check_forget(&self, number: WarningId) -> Result<(), Refusal>
        ensures accepted { OnOk result (first_refusal (forget_checks self.now number) ≡ None) }
        ensures refused { IfErr result (λ e. first_refusal (forget_checks self.now number) ≡ Some e) }
    {
        match lookups::find(self.warnings.as_slice(), number) {
            Some(warning) => warning_checks::check_forget(warning),
            None => Err(Refusal::NoSuchWarning),
        }
    }

    /// Takes a stopped warning out of the book, with its versions and its areas, and takes no memory.
    ///
    /// Refused as `NoSuchWarning` or `StillActive`, the first that holds, which leaves the book as it was.
    pub fn forget(&mut self, number: WarningId) -> Result<(), Refusal>
        ensures accepted { OnOk result (first_refusal (forget_checks self.old number) ≡ None) }
        ensures changed { OnOk result (self.new ≡ after_forget number self.old) }
        ensures refused { IfErr result (λ e. first_refusal (forget_checks self.old number) ≡ Some e) }
        ensures unchanged { OnErr result (self.new ≡ self.old) }
    {
        self.check_forget(number)?;
        edits::forget(&mut self.warnings, number);
        Ok(())
    }

    /// The warnings in the book, in the order of issue.
    pub fn as_slice(&self) -> &[Warning]
        ensures { result.now ≡ self.now.warnings }
    {
        self.warnings.as_slice()
    }

    /// The warning of that number; `None` where there is no such warning.
    #[inline(always)]
    pub fn find(&self, number: WarningId) -> Option<&Warning>
        ensures { option_copied result ≡ warning_of self.now number }
    {
        lookups::find(self.warnings.as_slice(), number)
    }

    /// The serial number of the warning's current version; `None` where there is no such warning.
    pub fn current(&self, number: WarningId) -> Option<Serial>
        ensures { result ≡ current self.now number }
    {
        lookups::current(self.warnings.as_slice(), number)
    }

    /// The warning's message identifier; `None` where there is no such warning.
    pub fn message_id(&self, number: WarningId) -> Option<u16>
        ensures { result ≡ message_id self.now number }
    {
        lookups::message_id(self.warnings.as_slice(), number)
    }

    /// Whether the warning was issued and neither stopped nor forgotten.
    pub fn is_active(&self, number: WarningId) -> bool
        ensures { result ≡ is_active self.now number }
    {
        lookups::is_active(self.warnings.as_slice(), number)
    }

    /// The versions of the warning in the order of issue, the current one last; none where there is no such warning.
    pub fn versions(&self, number: WarningId) -> &[Version]
        ensures { result.now ≡ versions_of number self.now.warnings }
    {
        lookups::versions_of(self.warnings.as_slice(), number)
    }

    /// The areas of the warning, in the order in which they were named; none where there is no such warning.
    pub fn areas_of(&self, number: WarningId) -> &[Name]
        ensures { result.now ≡ areas_of number self.now.warnings }
    {
        lookups::areas_of(self.warnings.as_slice(), number)
    }

    /// The numbers of the warnings in the book, in order.
    pub fn warnings(&self) -> Result<Vec<WarningId>, AllocError>
        ensures { IfOk result (λ all. all.items ≡ numbers self.now.warnings) }
    {
        questions::numbers(self.alloc, self.warnings.as_slice())
    }

    /// The numbers of the warnings that name the area, stopped ones among them, in order.
    pub fn naming(&self, a: &Name) -> Result<Vec<WarningId>, AllocError>
        ensures { IfOk result (λ all. all.items ≡ naming a.now self.now.warnings) }
    {
        questions::naming(self.alloc, self.warnings.as_slice(), a)
    }

    /// The numbers of the warnings that name one of the areas, stopped ones among them, in order and each once.
    #[tactic(auto, using(crate::proofs::QuestionLemmas::numbers_passing, crate::proofs::QuestionLemmas::numbers_ascend))]
    pub fn naming_one_of(&self, areas: &[Name]) -> Result<Vec<WarningId>, AllocError>
        ensures all { IfOk result (λ all. all.items ≡ naming_one_of areas.now self.now.warnings) }
        ensures which { IfOk result (λ all. (n : ℕ) → list_any (nat_eq n) all.items ≡ is_so n (names_one_of areas.now) self.now.warnings) }
        ensures order { IfOk result (λ all. is_ascending ltb all.items ≡ true) }
    {
        let all = questions::naming_one_of(self.alloc, self.warnings.as_slice(), areas)?;
        Ok(all)
    }

    /// Whether a warning in the book names the area, stopped or not.
    pub fn names_area(&self, a: &Name) -> bool
        ensures { result ≡ list_any (names a.now) self.now.warnings }
    {
        questions::names_area(self.warnings.as_slice(), a)
    }

    /// The content that a message identifier and a serial number stand for, be it current or not.
    pub fn content_of(&self, message_id: u16, serial: Serial) -> Option<&Content>
        ensures { option_copied result ≡ content_of message_id serial self.now.warnings }
    {
        questions::content_of(self.warnings.as_slice(), message_id, serial)
    }

    /// How many warnings were ever issued.
    pub fn issued(&self) -> u32
        ensures { result ≡ self.now.issued }
    {
        self.issued
    }

    /// How many warnings are in the book.
    pub fn len(&self) -> usize
        ensures { result ≡ length self.now.warnings }
    {
        self.warnings.len()
    }

    /// Lemma: what holds of every book, for the proofs of callers. It does nothing.
    pub fn tell_soundness(&self)
        ensures ordered { is_ascending number_lt self.now.warnings ≡ true }
        ensures given { list_all (was_issued self.now.issued) self.now.warnings ≡ true }
        ensures few { length self.now.warnings ≤ 256 }
        ensures areas { list_all has_areas self.now.warnings ≡ true }
        ensures contents { list_all has_contents self.now.warnings ≡ true }
        ensures versions { list_all has_versions self.now.warnings ≡ true }
        ensures serials { list_all has_serials self.now.warnings ≡ true }
        ensures codes { list_all has_one_code self.now.warnings ≡ true }
        ensures kinds { list_all has_one_kind self.now.warnings ≡ true }
        ensures own_codes { have_own_codes self.now.warnings ≡ true }
    {
        let _ = &self.alloc;
    }
}
