//! Why somebody has to look, in a line for each warning and each BSC at which somebody has to.

ghost use Rattle.std.specs.Prelude.{◌≡◌, ◌++◌, OnOk};
ghost use Rattle.std.specs.List.{flat_map};
ghost use Rattle.status_pages.specs.Causes.{area_if, area_word, bsc_cause, bsc_link, bsc_why, cause_figure, causes_html, faults_why, rest_why, seconds_late, unreached_word, warning_cause, warning_causes, warning_link, warning_why};

use crate::boards::push_figure_if;
use crate::cause::Cause;
use crate::escapes::push_escaped;
use crate::piece::{Piece, push_piece};
use crate::ranked_warning::RankedWarning;
use crate::standing::Standing;
use crate::standings::{down_cells, is_long_out, is_unreached, needs_look, warning_stands};
use centre_past::lists::WarningRow;
use coverage_board::Numbers;
use status_figures::{AreaBoard, BscFigures, Picture, WarningFigures, link_word};
use std::alloc::{AllocError, Global};

/// Appends a number with its word, where it isn't 0.
#[tactic(auto, unfolding(crate::specs::Causes::cause_figure))]
fn push_cause(alloc: Global, out: &mut Vec<u8>, cause: Cause, number: u64) -> Result<(), AllocError>
    ensures { OnOk result (out.new.items ≡ out.old.items ++ cause_figure cause number) }
{
    push_figure_if(alloc, out, cause.class(), cause.word(), number)
}

/// Appends the number of a warning, which leads to where it stands.
#[tactic(auto, unfolding(crate::specs::Causes::warning_link))]
fn push_warning_link(alloc: Global, out: &mut Vec<u8>, number: u32) -> Result<(), AllocError>
    ensures { OnOk result (out.new.items ≡ out.old.items ++ warning_link number) }
{
    let text = format!(in alloc; "<li><a href=\"#w{number}\">Warning {number}</a> ")?;
    out.extend_from_slice(text.as_bytes())
}

#[tactic(auto, unfolding(crate::specs::Causes::unreached_word))]
fn push_unreached_word(out: &mut Vec<u8>, row: &WarningRow) -> Result<(), AllocError>
    ensures { OnOk result (out.new.items ≡ out.old.items ++ unreached_word row.now) }
{
    if is_unreached(row) {
        out.extend_from_slice(b"<b>REACHES NO CELL</b> ")
    } else {
        Ok(())
    }
}

#[tactic(auto, unfolding(crate::specs::Causes::area_word))]
fn push_area_word(out: &mut Vec<u8>, area: &AreaBoard) -> Result<(), AllocError>
    ensures { OnOk result (out.new.items ≡ out.old.items ++ area_word area.now) }
{
    push_piece(out, Piece::InFront)?;
    push_escaped(out, area.name.as_slice())?;
    push_piece(out, Piece::InEnd)
}

/// Appends the area, if the warning failed somewhere in it.
fn push_area_if(out: &mut Vec<u8>, area: &AreaBoard) -> Result<(), AllocError>
    ensures { OnOk result (out.new.items ≡ out.old.items ++ area_if area.now) }
{
    if area.numbers.failed == 0 {
        Ok(())
    } else {
        push_area_word(out, area)
    }
}

fn push_failed_areas(out: &mut Vec<u8>, areas: &[AreaBoard]) -> Result<(), AllocError>
    ensures { OnOk result (out.new.items ≡ out.old.items ++ flat_map area_if areas.now) }
{
    for area in areas {
        push_area_if(out, area)?;
    }
    Ok(())
}

/// Appends in how many cells the warning is silent, in how many it failed, and in which areas these are.
#[tactic(auto, unfolding(crate::specs::Causes::faults_why))]
fn push_faults(alloc: Global, out: &mut Vec<u8>, warning: &WarningFigures) -> Result<(), AllocError>
    ensures { OnOk result (out.new.items ≡ out.old.items ++ faults_why warning.now) }
{
    let failed = warning.sheet.row.numbers.failed;
    push_cause(alloc, out, Cause::SilentCells, warning.silent)?;
    push_cause(alloc, out, Cause::FailedCells, failed)?;
    push_failed_areas(out, warning.areas.as_slice())
}

/// Appends where the warning is still to go on air, or off it.
#[tactic(auto, unfolding(crate::specs::Causes::rest_why))]
fn push_rest(alloc: Global, out: &mut Vec<u8>, numbers: Numbers) -> Result<(), AllocError>
    ensures { OnOk result (out.new.items ≡ out.old.items ++ rest_why numbers) }
{
    push_cause(alloc, out, Cause::AwaitedCells, numbers.awaited)?;
    push_cause(alloc, out, Cause::LeftPlaces, numbers.left)
}

/// Appends the line of a warning.
#[tactic(auto, unfolding(crate::specs::Causes::warning_why))]
fn push_warning_why(
    alloc: Global,
    out: &mut Vec<u8>,
    warning: &WarningFigures,
) -> Result<(), AllocError>
    ensures { OnOk result (out.new.items ≡ out.old.items ++ warning_why warning.now) }
{
    push_warning_link(alloc, out, warning.sheet.row.number.number())?;
    push_unreached_word(out, &warning.sheet.row)?;
    push_faults(alloc, out, warning)?;
    push_rest(alloc, out, warning.sheet.row.numbers)?;
    push_piece(out, Piece::ItemEnd)
}

/// Appends the line of a warning, if it stands so.
fn push_warning_cause(
    alloc: Global,
    out: &mut Vec<u8>,
    picture: &Picture,
    standing: Standing,
    warning: &WarningFigures,
) -> Result<(), AllocError>
    ensures { OnOk result (out.new.items ≡ out.old.items ++ warning_cause picture.now standing warning.now) }
{
    if warning_stands(picture, standing, warning) {
        push_warning_why(alloc, out, warning)
    } else {
        Ok(())
    }
}

/// Appends the lines of the warnings that stand so.
fn push_standing(
    alloc: Global,
    out: &mut Vec<u8>,
    picture: &Picture,
    warnings: &[RankedWarning],
    standing: Standing,
) -> Result<(), AllocError>
    ensures { OnOk result (out.new.items ≡ out.old.items ++ flat_map (warning_cause picture.now standing) warnings.now) }
{
    for warning in warnings {
        push_warning_cause(alloc, out, picture, standing, warning.get())?;
    }
    Ok(())
}

/// Appends the lines of all warnings at which somebody has to look.
#[tactic(auto, unfolding(crate::specs::Causes::warning_causes))]
fn push_warning_causes(
    alloc: Global,
    out: &mut Vec<u8>,
    picture: &Picture,
    warnings: &[RankedWarning],
) -> Result<(), AllocError>
    ensures { OnOk result (out.new.items ≡ out.old.items ++ warning_causes picture.now warnings.now) }
{
    push_standing(alloc, out, picture, warnings, Standing::Pressing)?;
    push_standing(alloc, out, picture, warnings, Standing::Unreached)?;
    push_standing(alloc, out, picture, warnings, Standing::Silent)?;
    push_standing(alloc, out, picture, warnings, Standing::Wrong)
}

/// Appends the number of a BSC, which leads to where it stands, and its link.
#[tactic(auto, unfolding(crate::specs::Causes::bsc_link))]
fn push_bsc_link(
    alloc: Global,
    out: &mut Vec<u8>,
    number: u16,
    link: &str,
) -> Result<(), AllocError>
    ensures { OnOk result (out.new.items ≡ out.old.items ++ bsc_link number link.now) }
{
    let text = format!(in alloc; "<li><a href=\"#b{number}\">BSC {number}</a> link {link} ")?;
    out.extend_from_slice(text.as_bytes())
}

/// For how many seconds something is out that has been so for too long.
fn seconds_late(taken: u64, since: Option<u64>) -> u64
    ensures { result ≡ seconds_late taken since }
{
    match since {
        None => 0,
        Some(since) => {
            if is_long_out(taken, Some(since)) {
                taken.saturating_sub(since)
            } else {
                0
            }
        }
    }
}

/// Appends the line of a BSC.
#[tactic(auto, unfolding(crate::specs::Causes::bsc_why))]
fn push_bsc_why(
    alloc: Global,
    out: &mut Vec<u8>,
    taken: u64,
    bsc: &BscFigures,
) -> Result<(), AllocError>
    ensures { OnOk result (out.new.items ≡ out.old.items ++ bsc_why taken bsc.now) }
{
    let down = down_cells(bsc);
    let order = seconds_late(taken, bsc.since);
    let reset = seconds_late(taken, bsc.reset);
    push_bsc_link(alloc, out, bsc.row.bsc.number(), link_word(bsc))?;
    push_cause(alloc, out, Cause::DownCells, down)?;
    push_cause(alloc, out, Cause::NoReply, order)?;
    push_cause(alloc, out, Cause::NoAnswer, reset)?;
    push_piece(out, Piece::ItemEnd)
}

/// Appends the line of a BSC, if somebody has to look at it.
fn push_bsc_cause(
    alloc: Global,
    out: &mut Vec<u8>,
    taken: u64,
    bsc: &BscFigures,
) -> Result<(), AllocError>
    ensures { OnOk result (out.new.items ≡ out.old.items ++ bsc_cause taken bsc.now) }
{
    if needs_look(taken, bsc) {
        push_bsc_why(alloc, out, taken, bsc)
    } else {
        Ok(())
    }
}

/// Appends the lines of all BSCs at which somebody has to look.
fn push_bsc_causes(
    alloc: Global,
    out: &mut Vec<u8>,
    taken: u64,
    bscs: &[BscFigures],
) -> Result<(), AllocError>
    ensures { OnOk result (out.new.items ≡ out.old.items ++ flat_map (bsc_cause taken) bscs.now) }
{
    for bsc in bscs {
        push_bsc_cause(alloc, out, taken, bsc)?;
    }
    Ok(())
}

/// Appends all lines: those of the warnings, which come in their order, and those of the BSCs.
#[tactic(auto, unfolding(crate::specs::Causes::causes_html))]
pub(crate) fn push_causes(
    alloc: Global,
    out: &mut Vec<u8>,
    picture: &Picture,
    warnings: &[RankedWarning],
) -> Result<(), AllocError>
    ensures { OnOk result (out.new.items ≡ out.old.items ++ causes_html picture.now warnings.now) }
{
    push_piece(out, Piece::CausesFront)?;
    push_warning_causes(alloc, out, picture, warnings)?;
    push_bsc_causes(alloc, out, picture.taken, picture.bscs.as_slice())?;
    push_piece(out, Piece::ListEnd)
}
