//! The warnings of which an area covers a cell.

ghost use Rattle.std.specs.Prelude.{◌≡◌, ◌++◌, ◌∷◌, [], ℕ, Some, true, ltb, nat_eq, IfOk, IfSome, OnOk, if◌then◌else◌};
ghost use Rattle.std.specs.List.{list_any};
ghost use Rattle.areas.specs.Areas.{areas_of, covers};
ghost use Rattle.common.specs.Order.{is_ascending};
ghost use Rattle.warning_book.specs.Book.{is_so, names_one_of, naming_one_of, warning_of};

use crate::found_plan::FoundPlan;
use common::Cell;
use std::alloc::AllocError;
use warning_book::{Warning, WarningId};

/// How many areas of a cell are looked for among those of each warning.
const FEW_AREAS: usize = 16;

/// Whether one of the areas of the warning, which has that number, covers the cell.
pub(crate) fn has_covering(
    plan: &mut FoundPlan<'_>,
    n: WarningId,
    w: &Warning,
    c: Cell,
) -> Result<bool, AllocError>
    requires { Some w.now ≡ warning_of plan.old.book n }
    ensures covering { IfOk result (λ found. found ≡ list_any (λ a. covers plan.old.areas a c) w.now.areas) }
    ensures same { plan.new ≡ plan.old }
{
    let covering = plan.covering(n, w, c)?;
    Ok(covering.is_some())
}

/// Puts the number of the warning, which the book has, last if one of its areas covers the cell.
fn put_covering(
    found: &mut Vec<WarningId>,
    plan: &mut FoundPlan<'_>,
    warning: &Warning,
    c: Cell,
) -> Result<(), AllocError>
    requires { Some warning.now ≡ warning_of plan.old.book warning.now.number }
    ensures put { OnOk result (found.new.items ≡ found.old.items ++ (if names_one_of (areas_of plan.old.areas c) warning.now then warning.now.number ∷ [] else [])) }
    ensures same { plan.new ≡ plan.old }
{
    let n = warning.number();
    if has_covering(plan, n, warning, c)? {
        found.push(n)?;
    }
    Ok(())
}

/// The numbers of the warnings of which an area covers the cell. They are those in the book, and each of them is asked.
fn asked(
    plan: &mut FoundPlan<'_>,
    warnings: &[Warning],
    c: Cell,
) -> Result<Vec<WarningId>, AllocError>
    requires { warnings.now ≡ plan.old.book.warnings }
    ensures all { IfOk result (λ v. v.items ≡ naming_one_of (areas_of plan.old.areas c) warnings.now) }
    ensures same { plan.new ≡ plan.old }
{
    plan.book().tell_soundness();
    let mut found = Vec::with_capacity(plan.alloc(), warnings.len())?;
    for warning in warnings {
        put_covering(&mut found, plan, warning, c)?;
    }
    Ok(found)
}

/// The same, found by the names of the areas that cover the cell. `None` where these are many, or were for a cell before it.
fn named_by_few(plan: &FoundPlan<'_>, c: Cell) -> Result<Option<Vec<WarningId>>, AllocError>
    ensures { IfOk result (λ found. IfSome found (λ v. v.items ≡ naming_one_of (areas_of plan.now.areas c) plan.now.book.warnings)) }
{
    if plan.asks_each() {
        return Ok(None);
    }
    let covering = plan.areas().areas_of(c)?;
    let covering = covering.as_slice();
    if covering.len() > FEW_AREAS {
        return Ok(None);
    }
    let named = plan.book().naming_one_of(covering)?;
    Ok(Some(named))
}

/// The same, in either way. Once many areas cover one of the cells, each warning is asked for its own: what these cover is
/// kept for all cells of a location area.
fn named(plan: &mut FoundPlan<'_>, c: Cell) -> Result<Vec<WarningId>, AllocError>
    ensures all { IfOk result (λ v. v.items ≡ naming_one_of (areas_of plan.old.areas c) plan.old.book.warnings) }
    ensures same { plan.new ≡ plan.old }
{
    if let Some(named) = named_by_few(plan, c)? {
        return Ok(named);
    }
    plan.ask_each();
    let warnings = plan.book().as_slice();
    let named = asked(plan, warnings, c)?;
    Ok(named)
}

/// The numbers of the warnings of which an area covers the cell, in ascending order.
pub(crate) fn named_at(plan: &mut FoundPlan<'_>, c: Cell) -> Result<Vec<WarningId>, AllocError>
    ensures which { IfOk result (λ all. (n : ℕ) → list_any (nat_eq n) all.items ≡ is_so n (names_one_of (areas_of plan.old.areas c)) plan.old.book.warnings) }
    ensures order { IfOk result (λ all. is_ascending ltb all.items ≡ true) }
    ensures same { plan.new ≡ plan.old }
{
    plan.book().tell_soundness();
    let named = named(plan, c)?;
    Ok(named)
}
