//! A survey of a centre.

ghost use Rattle.std.specs.Prelude.{◌≡◌, ◌++◌, false, IfOk, OnOk};
ghost use Rattle.centre_past.specs.Legal.{past};
ghost use Rattle.centre_past.specs.Lists.{bsc_rows, warning_rows};
ghost use Rattle.centre_questions.specs.Surveys.{area_of, areas_in, survey, warning_of, warnings_in};

use crate::area_numbers::AreaNumbers;
use crate::numbered_areas::NumberedAreas;
use crate::survey::Survey;
use crate::surveyed_warning::SurveyedWarning;
use crate::surveyed_warnings::SurveyedWarnings;
use centre_core::centre::Centre;
use centre_events::refusal::Refusal;
use centre_past::lists::BscRows;
use common::Name;
use std::alloc::{AllocError, Global};
use warning_book::WarningId;

/// Appends the area with its numbers.
fn push_area(
    alloc: Global,
    centre: &Centre,
    warning: WarningId,
    name: &Name,
    areas: &mut Vec<AreaNumbers>,
) -> Result<(), AllocError>
    requires whole { centre.now.known.stale ≡ false }
    ensures { OnOk result (areas.new.items ≡ areas.old.items ++ area_of (past centre.now.known) warning name.now) }
{
    match centre.board_area(warning, name) {
        Ok(numbers) => {
            let name = name.copied(alloc)?;
            areas.push(AreaNumbers { name, numbers })?;
            Ok(())
        }
        Err(_) => Ok(()),
    }
}

/// The areas of a warning with their numbers.
fn areas_in(
    alloc: Global,
    centre: &Centre,
    warning: WarningId,
    names: &[Name],
) -> Result<NumberedAreas, AllocError>
    requires whole { centre.now.known.stale ≡ false }
    ensures { IfOk result (λ areas. areas ≡ areas_in (past centre.now.known) warning names.now) }
{
    let mut areas = Vec::new(alloc);
    for name in names {
        push_area(alloc, centre, warning, name, &mut areas)?;
    }
    Ok(NumberedAreas::from_vec(areas))
}

/// Appends the warning of that number.
fn push_warning(
    alloc: Global,
    centre: &Centre,
    number: WarningId,
    warnings: &mut Vec<SurveyedWarning>,
) -> Result<(), AllocError>
    requires whole { centre.now.known.stale ≡ false }
    ensures { OnOk result (warnings.new.items ≡ warnings.old.items ++ warning_of (past centre.now.known) number) }
{
    match centre.warning_of(number) {
        Ok(sheet) => {
            let areas = areas_in(alloc, centre, number, sheet.row.areas.as_slice())?;
            warnings.push(SurveyedWarning { sheet, areas })?;
            Ok(())
        }
        Err(Refusal::Memory) => Err(AllocError),
        Err(_) => Ok(()),
    }
}

/// The warnings in the book.
fn warnings_in(alloc: Global, centre: &Centre) -> Result<SurveyedWarnings, AllocError>
    requires whole { centre.now.known.stale ≡ false }
    ensures { IfOk result (λ warnings. warnings ≡ warnings_in (past centre.now.known) (warning_rows (past centre.now.known))) }
{
    let Ok(rows) = centre.warnings() else {
        return Err(AllocError);
    };
    let mut warnings = Vec::new(alloc);
    for row in rows.as_slice() {
        push_warning(alloc, centre, row.number, &mut warnings)?;
    }
    Ok(SurveyedWarnings::from_vec(warnings))
}

/// The registered BSCs.
fn bscs_in(centre: &Centre) -> Result<BscRows, AllocError>
    requires whole { centre.now.known.stale ≡ false }
    ensures { IfOk result (λ rows. rows ≡ bsc_rows (past centre.now.known)) }
{
    match centre.bscs() {
        Ok(rows) => Ok(rows),
        Err(_) => Err(AllocError),
    }
}

/// What is seen of the whole centre now. At an `Err` there was no memory for it.
pub fn survey(alloc: Global, centre: &Centre) -> Result<Survey, AllocError>
    ensures { IfOk result (λ s. s ≡ survey centre.now.known) }
{
    let status = centre.status();
    if centre.is_stale() {
        return Ok(Survey {
            status,
            bscs: BscRows::from_vec(Vec::new(alloc)),
            warnings: SurveyedWarnings::from_vec(Vec::new(alloc)),
        });
    }
    let bscs = bscs_in(centre)?;
    let warnings = warnings_in(alloc, centre)?;
    Ok(Survey {
        status,
        bscs,
        warnings,
    })
}
