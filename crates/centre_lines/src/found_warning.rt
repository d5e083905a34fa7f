//! What is read once of a warning, for all its lines on which an event bears.

ghost use Rattle.std.specs.Prelude.{◌≡◌, IfOk};

use crate::coverages::Coverages;
use crate::warning_before::WarningBefore;
use areas::Areas;
use common::Cell;
use coverage_board::AreaBits;
use std::alloc::{AllocError, Global};
use std::marker::Model;
use warning_book::{Warning, WarningId};

/// What each of a warning's areas covers, and what is read of the warning before an edit, once that is asked for.
#[derive(Drop)]
pub(crate) struct FoundWarning<'a> {
    warning: WarningId,
    coverages: Coverages<'a>,
    before: Option<WarningBefore>,
}

impl<'a> Model for FoundWarning<'a> {
    ghost use Rattle.centre_lines.specs.Found.{Found};

    ghost Value = { Found };

    ghost view = { λ t. record { warning = t.warning; selectors = t.coverages; before = t.before } };
}

impl FoundWarning<'_> {
    ghost use Rattle.std.specs.Prelude.{◌≡◌, Some, true, nat_eq, IfOk, IfSome};
    ghost use Rattle.areas.specs.Areas.{selects};
    ghost use Rattle.coverage_board.specs.AreaSets.{mask};
    ghost use Rattle.warning_book.specs.Sound.{has_areas};
    ghost use Rattle.centre_lines.specs.Found.{IsOf, head_of};

    /// What the warning of that number has.
    pub(crate) fn of<'a>(
        alloc: Global,
        areas: &'a Areas,
        number: WarningId,
        warning: &Warning,
    ) -> Result<FoundWarning<'a>, AllocError>
        requires { has_areas warning.now ≡ true }
        ensures number { IfOk result (λ x. x.warning ≡ number) }
        ensures found { IfOk result (IsOf areas.now (Some warning.now)) }
    {
        Ok(FoundWarning {
            warning: number,
            coverages: Coverages::of(alloc, areas, warning.areas())?,
            before: None,
        })
    }

    /// Whether it is of the warning of that number.
    pub(crate) fn is_of(&self, number: WarningId) -> bool
        ensures { result ≡ nat_eq number self.now.warning }
    {
        number == self.warning
    }

    /// The digits of those of the areas that cover the cell.
    #[inline(always)]
    pub(crate) fn digits(&mut self, c: Cell) -> AreaBits
        ensures digits { result.bits ≡ mask (λ s. selects s c) self.old.selectors }
        ensures same { self.new ≡ self.old }
    {
        self.coverages.digits(c)
    }

    /// What is read of the warning, which it is of. It is kept for its other lines.
    #[inline(always)]
    pub(crate) fn before(
        &mut self,
        alloc: Global,
        warning: &Warning,
    ) -> Result<WarningBefore, AllocError>
        requires { IfSome self.old.before (λ h. h ≡ head_of warning.now) }
        ensures before { IfOk result (λ h. h ≡ head_of warning.now) }
        ensures kept { IfSome self.new.before (λ h. h ≡ head_of warning.now) }
        ensures warning { self.new.warning ≡ self.old.warning }
        ensures selectors { self.new.selectors ≡ self.old.selectors }
    {
        if let Some(before) = &self.before {
            return before.shared();
        }
        let before = WarningBefore::of(alloc, warning)?;
        let shared = before.shared()?;
        self.before = Some(before);
        Ok(shared)
    }
}
