//! The edits that bear on both the areas and the book. An edit that is refused leaves both as they were.

ghost use Rattle.std.specs.Prelude.{◌≡◌, ◌+◌, None, Some, IfOk, OnOk, OnErr, IfErr};
ghost use Rattle.areas.specs.Areas.{without_area};
ghost use Rattle.common.specs.Checks.{first_refusal};
ghost use Rattle.warning_book.specs.Book.{new_serial, after_widen, after_narrow};
ghost use Rattle.coverage_plan.specs.Checks.{IsRefusal, drop_area_checks, issue_checks, widen_checks, narrow_checks};
ghost use Rattle.coverage_plan.specs.Edited.{issued_as, with_issue};

use crate::checks::{check_drop_area, check_issue, check_narrow, check_widen};
use crate::made::Made;
use crate::refusal::Refusal;
use areas::Areas;
use common::Name;
use warning_book::{Book, Notice, WarningId};

/// Drops an area that no warning names. It takes no memory.
pub(crate) fn drop_area(areas: &mut Areas, book: &Book, a: &Name) -> Result<(), Refusal>
    ensures accepted { OnOk result (first_refusal (drop_area_checks areas.old book.now a.now) ≡ None) }
    ensures changed { OnOk result (areas.new ≡ without_area a.now areas.old) }
    ensures refused { IfErr result (λ e. first_refusal (drop_area_checks areas.old book.now a.now) ≡ Some e) }
    ensures unchanged { OnErr result (areas.new ≡ areas.old) }
{
    check_drop_area(areas, book, a)?;
    areas.drop_area(a)?;
    Ok(())
}

/// Puts a new warning into the book, and answers its number and its serial number.
#[tactic(auto, using(crate::proofs::CheckLemmas::translated_none, crate::proofs::CheckLemmas::translated_first))]
pub(crate) fn issue(
    areas: &Areas,
    book: &mut Book,
    notice: &Notice,
    names: &[Name],
) -> Result<Made, Refusal>
    ensures accepted { OnOk result (first_refusal (issue_checks areas.now book.old notice.now names.now) ≡ None) }
    ensures changed { OnOk result (book.new ≡ with_issue notice.now names.now (new_serial book.old notice.now) book.old) }
    ensures made { IfOk result (λ made. made ≡ issued_as (book.old.issued + 1) (new_serial book.old notice.now)) }
    ensures refused { IfErr result (IsRefusal (issue_checks areas.now book.old notice.now names.now)) }
    ensures unchanged { OnErr result (book.new ≡ book.old) }
{
    check_issue(areas, book, notice, names)?;
    let (number, serial) = book.issue(notice, names)?;
    Ok(Made::Issued(number, serial))
}

/// Puts an area last among those of a warning.
#[tactic(auto, using(crate::proofs::CheckLemmas::translated_none, crate::proofs::CheckLemmas::translated_first))]
pub(crate) fn widen(
    areas: &Areas,
    book: &mut Book,
    number: WarningId,
    a: &Name,
) -> Result<(), Refusal>
    ensures accepted { OnOk result (first_refusal (widen_checks areas.now book.old number a.now) ≡ None) }
    ensures changed { OnOk result (book.new ≡ after_widen number a.now book.old) }
    ensures refused { IfErr result (IsRefusal (widen_checks areas.now book.old number a.now)) }
    ensures unchanged { OnErr result (book.new ≡ book.old) }
{
    check_widen(areas, book, number, a)?;
    book.widen(number, a)?;
    Ok(())
}

/// Takes an area out of those of a warning. It takes no memory.
#[tactic(auto, using(crate::proofs::CheckLemmas::translated_none, crate::proofs::CheckLemmas::translated_first))]
pub(crate) fn narrow(
    areas: &Areas,
    book: &mut Book,
    number: WarningId,
    a: &Name,
) -> Result<(), Refusal>
    ensures accepted { OnOk result (first_refusal (narrow_checks areas.now book.old number a.now) ≡ None) }
    ensures changed { OnOk result (book.new ≡ after_narrow number a.now book.old) }
    ensures refused { IfErr result (λ e. first_refusal (narrow_checks areas.now book.old number a.now) ≡ Some e) }
    ensures unchanged { OnErr result (book.new ≡ book.old) }
{
    check_narrow(areas, book, number, a)?;
    book.narrow(number, a)?;
    Ok(())
}
