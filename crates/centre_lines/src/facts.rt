//! What is read of one line, from what a centre keeps.

ghost use Rattle.std.specs.Prelude.{◌≡◌, ◌&&◌, Some, None, IfOk, if◌then◌else◌};
ghost use Rattle.std.specs.Option.{option_copied};
ghost use Rattle.warning_book.specs.Book.{warning_of};
ghost use Rattle.centre_past.specs.State.{covered_facts, facts_from};
ghost use Rattle.centre_events.specs.Warnings.{kind_in};

use crate::facts_before::FactsBefore;
use crate::found_plan::FoundPlan;
use crate::line_in_cell::LineInCell;
use coverage_board::AreaSet;
use kept_tables::{LineFacts, Serials};
use serials::Serial;
use std::alloc::AllocError;
use warning_book::{Kind, Warning, WarningId};

/// The kind of a warning; CBS where the book doesn't have it.
pub(crate) fn kind_in(warning: Option<&Warning>) -> Kind
    ensures { result ≡ kind_in (option_copied warning.entry) }
{
    match warning {
        Some(w) => w.kind(),
        None => Kind::Cbs,
    }
}

/// The serial number that is wanted of a warning in a cell that is registered at the BSC or isn't, and covered or isn't. The
/// last is that of its current version.
#[inline(always)]
pub(crate) fn wanted(
    active: bool,
    here: bool,
    covered: bool,
    current: Option<Serial>,
) -> Option<Serial>
    ensures { result ≡ (if active && (here && covered) then current else None) }
{
    if active && here && covered {
        current
    } else {
        None
    }
}

/// What is read of the line of a warning in its cell, where these are those of its areas that cover the cell.
#[inline(always)]
pub(crate) fn covered_facts<'b>(
    plan: &mut FoundPlan<'_>,
    there: &LineInCell,
    w: &'b Warning,
    covering: AreaSet<'b>,
) -> LineFacts<'b>
    ensures facts { result ≡ covered_facts plan.old.register there.now.down there.now.spot.bsc there.now.spot.cell there.now.line covering.entry (Some w.now) }
    ensures same { plan.new ≡ plan.old }
{
    let here = plan.is_here(&there.spot);
    let wanted = wanted(w.is_active(), here, covering.is_some(), w.serial());
    LineFacts {
        line: there.line,
        message_id: w.message_id(),
        versions: Serials::of(w.serials()),
        wanted,
        down: there.down,
        areas: covering,
        here,
        active: w.is_active(),
    }
}

/// What is read of the line of a warning, which has that number, in its cell.
#[inline(always)]
fn facts_of<'b>(
    plan: &mut FoundPlan<'_>,
    there: &LineInCell,
    n: WarningId,
    w: &'b Warning,
) -> Result<LineFacts<'b>, AllocError>
    requires { Some w.now ≡ warning_of plan.old.book n }
    ensures facts { IfOk result (λ f. f ≡ facts_from plan.old.register plan.old.areas there.now.down there.now.spot.bsc there.now.spot.cell there.now.line (Some w.now)) }
    ensures same { plan.new ≡ plan.old }
{
    let covering = plan.covering(n, w, there.spot.cell)?;
    Ok(covered_facts(plan, there, w, covering))
}

/// What is read of the line of a warning of that number, if the book has it, in its cell.
#[inline(always)]
pub(crate) fn facts_from<'b>(
    plan: &mut FoundPlan<'_>,
    there: &LineInCell,
    n: WarningId,
    warning: Option<&'b Warning>,
) -> Result<LineFacts<'b>, AllocError>
    requires { option_copied warning ≡ warning_of plan.old.book n }
    ensures facts { IfOk result (λ f. f ≡ facts_from plan.old.register plan.old.areas there.now.down there.now.spot.bsc there.now.spot.cell there.now.line (option_copied warning.entry)) }
    ensures same { plan.new ≡ plan.old }
{
    match warning {
        Some(w) => facts_of(plan, there, n, w),
        None => Ok(LineFacts::none(there.down, plan.is_here(&there.spot))),
    }
}

/// The same before an edit, which may change the warning.
#[inline(always)]
pub(crate) fn facts_before(
    plan: &mut FoundPlan<'_>,
    there: &LineInCell,
    n: WarningId,
    warning: Option<&Warning>,
) -> Result<FactsBefore, AllocError>
    requires { option_copied warning ≡ warning_of plan.old.book n }
    ensures facts { IfOk result (λ f. f ≡ facts_from plan.old.register plan.old.areas there.now.down there.now.spot.bsc there.now.spot.cell there.now.line (option_copied warning.entry)) }
    ensures same { plan.new ≡ plan.old }
{
    match warning {
        Some(w) => plan.facts_before(there, n, w),
        None => Ok(FactsBefore::none(there.down, plan.is_here(&there.spot))),
    }
}
