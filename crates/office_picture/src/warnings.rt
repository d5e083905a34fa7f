//! The warnings of a survey, as a picture has them.

ghost use Rattle.std.specs.Prelude.{◌≡◌, map, IfOk};
ghost use Rattle.std.specs.Option.{option_copied};
ghost use Rattle.office_picture.specs.Pictures.{air_of, board_of, is_of, over_in, silent_in, warning_of, warning_with};

use crate::moments::WarningAir;
use centre_questions::{AreaNumbers, SurveyedWarning};
use status_figures::{AreaBoard, AreaBoards, WarningFigures, WarningList};
use std::alloc::{AllocError, Global};
use warning_book::WarningId;

fn board_of(area: AreaNumbers) -> AreaBoard
    ensures { result ≡ board_of area }
{
    let AreaNumbers { name, numbers } = area;
    AreaBoard { name, numbers }
}

fn boards(alloc: Global, areas: Vec<AreaNumbers>) -> Result<AreaBoards, AllocError>
    ensures { IfOk result (λ boards. boards ≡ map board_of areas.items) }
{
    let mut boards = Vec::new(alloc);
    for area in areas {
        boards.push(board_of(area))?;
    }
    Ok(AreaBoards::from_vec(boards))
}

fn is_of(number: WarningId, air: &WarningAir) -> bool
    ensures { result ≡ is_of number air.now }
{
    air.warning.number() == number.number()
}

/// What is known of the warning of that number.
fn air_of(airs: &[WarningAir], number: WarningId) -> Option<&WarningAir>
    ensures { option_copied result ≡ air_of airs.now number }
{
    airs.iter().find(|air| is_of(number, air))
}

/// What is known of that warning.
fn air_for(airs: &[WarningAir], warning: &SurveyedWarning) -> Option<WarningAir>
    ensures { result ≡ air_of airs.now warning.now.sheet.row.number }
{
    air_of(airs, warning.sheet.row.number).copied()
}

/// In how many cells a warning is silent of which that is known.
fn silent_in(air: &Option<WarningAir>) -> u64
    ensures { result ≡ silent_in air.now }
{
    match air {
        None => 0,
        Some(air) => air.silent,
    }
}

/// Since when it is over.
fn over_in(air: &Option<WarningAir>) -> Option<u64>
    ensures { result ≡ over_in air.now }
{
    match air {
        None => None,
        Some(air) => air.over,
    }
}

/// A warning that is silent in so many cells and over since then.
fn warning_with(
    alloc: Global,
    warning: SurveyedWarning,
    silent: u64,
    over: Option<u64>,
) -> Result<WarningFigures, AllocError>
    ensures { IfOk result (λ figures. figures ≡ warning_with silent over warning) }
{
    let SurveyedWarning { sheet, areas } = warning;
    let areas = boards(alloc, areas.into_vec())?;
    Ok(WarningFigures {
        sheet,
        areas,
        silent,
        over,
    })
}

fn warning_of(
    alloc: Global,
    airs: &[WarningAir],
    warning: SurveyedWarning,
) -> Result<WarningFigures, AllocError>
    ensures { IfOk result (λ figures. figures ≡ warning_of airs.now warning) }
{
    let air = air_for(airs, &warning);
    warning_with(alloc, warning, silent_in(&air), over_in(&air))
}

/// Those warnings.
pub(crate) fn warnings(
    alloc: Global,
    airs: &[WarningAir],
    rows: Vec<SurveyedWarning>,
) -> Result<WarningList, AllocError>
    ensures { IfOk result (λ warnings. warnings ≡ map (warning_of airs.now) rows.items) }
{
    let mut warnings = Vec::new(alloc);
    for row in rows {
        warnings.push(warning_of(alloc, airs, row)?)?;
    }
    Ok(WarningList::from_vec(warnings))
}
