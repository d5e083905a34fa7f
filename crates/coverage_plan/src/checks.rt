//! Whether an edit can be made that bears on both the areas and the book. None of the calls changes anything, or takes
//! memory.

ghost use Rattle.std.specs.Prelude.{◌≡◌, None, Some, OnOk, IfErr};
ghost use Rattle.common.specs.Checks.{first_refusal};
ghost use Rattle.coverage_plan.specs.Checks.{names_no_area, drop_area_checks, issue_checks, widen_checks, narrow_checks};

use crate::refusal::Refusal;
use areas::Areas;
use common::Name;
use warning_book::{Book, Notice, WarningId};

/// Whether one of the names is no area's.
fn names_no_area(areas: &Areas, names: &[Name]) -> bool
    ensures { result ≡ names_no_area areas.now names.now }
{
    names.iter().any(|name| !areas.has_area(name))
}

/// Whether the area can be dropped: `NoSuchArea`, then `AreaInUse`.
pub(crate) fn check_drop_area(areas: &Areas, book: &Book, a: &Name) -> Result<(), Refusal>
    ensures accepted { OnOk result (first_refusal (drop_area_checks areas.now book.now a.now) ≡ None) }
    ensures refused { IfErr result (λ e. first_refusal (drop_area_checks areas.now book.now a.now) ≡ Some e) }
{
    if !areas.has_area(a) {
        return Err(Refusal::NoSuchArea);
    }
    if book.names_area(a) {
        return Err(Refusal::AreaInUse);
    }
    Ok(())
}

/// Whether the warning can be issued: `NoSuchArea`, then what the book says.
#[tactic(auto, using(crate::proofs::CheckLemmas::translated_none, crate::proofs::CheckLemmas::translated_first))]
pub(crate) fn check_issue(
    areas: &Areas,
    book: &Book,
    notice: &Notice,
    names: &[Name],
) -> Result<(), Refusal>
    ensures accepted { OnOk result (first_refusal (issue_checks areas.now book.now notice.now names.now) ≡ None) }
    ensures refused { IfErr result (λ e. first_refusal (issue_checks areas.now book.now notice.now names.now) ≡ Some e) }
{
    if names_no_area(areas, names) {
        return Err(Refusal::NoSuchArea);
    }
    book.check_issue(notice, names)?;
    Ok(())
}

/// Whether the warning can be widened: `NoSuchArea`, then what the book says.
#[tactic(auto, using(crate::proofs::CheckLemmas::translated_none, crate::proofs::CheckLemmas::translated_first))]
pub(crate) fn check_widen(
    areas: &Areas,
    book: &Book,
    number: WarningId,
    a: &Name,
) -> Result<(), Refusal>
    ensures accepted { OnOk result (first_refusal (widen_checks areas.now book.now number a.now) ≡ None) }
    ensures refused { IfErr result (λ e. first_refusal (widen_checks areas.now book.now number a.now) ≡ Some e) }
{
    if !areas.has_area(a) {
        return Err(Refusal::NoSuchArea);
    }
    book.check_widen(number, a)?;
    Ok(())
}

/// Whether the warning can be narrowed: `NoSuchArea`, then what the book says.
#[tactic(auto, using(crate::proofs::CheckLemmas::translated_none, crate::proofs::CheckLemmas::translated_first))]
pub(crate) fn check_narrow(
    areas: &Areas,
    book: &Book,
    number: WarningId,
    a: &Name,
) -> Result<(), Refusal>
    ensures accepted { OnOk result (first_refusal (narrow_checks areas.now book.now number a.now) ≡ None) }
    ensures refused { IfErr result (λ e. first_refusal (narrow_checks areas.now book.now number a.now) ≡ Some e) }
{
    if !areas.has_area(a) {
        return Err(Refusal::NoSuchArea);
    }
    book.check_narrow(number, a)?;
    Ok(())
}
