//! Warnings on the page.

ghost use Rattle.std.specs.Prelude.{◌≡◌, ◌++◌, IfOk, OnOk, string_bytes};
ghost use Rattle.std.specs.List.{flat_map};
ghost use Rattle.status_pages.specs.WarningParts.{are_few, fold_front, front_with, message_html, name_html, notes_html, number_html, other_sections, over_html, over_if, serial_html, shown_content, silent_html, silent_if, some_warnings, stuck_html, unreached_html, urgent_sections, version_html, version_with, warning_boards, warning_front, warning_head, warning_html, warning_if, warnings_html, warnings_section, warnings_title};

use crate::boards::{push_areas, push_board};
use crate::contents::push_content;
use crate::piece::{Piece, push_piece};
use crate::ranked_warning::RankedWarning;
use crate::sections::{push_section_front, standing_class};
use crate::standing::Standing;
use crate::standings::{count_warnings, is_stuck, is_unreached, warning_standing, warning_stands};
use crate::times::push_time;
use centre_past::lists::WarningRow;
use serials::Serial;
use status_figures::{Picture, WarningFigures, four_digits, kind_name, state_name};
use std::alloc::{AllocError, Global};
use warning_book::Content;

fn title(standing: Standing) -> &'static str
    ensures { result.now ≡ warnings_title standing }
{
    match standing {
        Standing::Pressing => "Emergency warnings to look at",
        Standing::Unreached => "Warnings that reach no cell",
        Standing::Silent => "Silent warnings",
        Standing::Wrong => "Warnings to look at",
        Standing::UnderWay => "Warnings under way",
        Standing::InOrder => "Warnings on air",
        Standing::Stopped => "Stopped warnings",
    }
}

fn serial_text(alloc: Global, serial: Option<Serial>) -> Result<String, AllocError>
    ensures { IfOk result (λ text. string_bytes text ≡ serial_html serial) }
{
    match serial {
        None => String::from_str(alloc, "-"),
        Some(serial) => four_digits(alloc, serial.to_u16()),
    }
}

#[tactic(auto, unfolding(crate::specs::WarningParts::number_html))]
fn push_number(alloc: Global, out: &mut Vec<u8>, number: u32) -> Result<(), AllocError>
    ensures { OnOk result (out.new.items ≡ out.old.items ++ number_html number) }
{
    let text = format!(in alloc; "<h3><b>Warning {number}</b>")?;
    out.extend_from_slice(text.as_bytes())
}

#[tactic(auto, unfolding(crate::specs::WarningParts::message_html))]
fn push_message(alloc: Global, out: &mut Vec<u8>, id: u16, digits: &str) -> Result<(), AllocError>
    ensures { OnOk result (out.new.items ≡ out.old.items ++ message_html id digits.now) }
{
    let text = format!(in alloc; " <span>message {id} (hex {digits})</span>")?;
    out.extend_from_slice(text.as_bytes())
}

#[tactic(auto, unfolding(crate::specs::WarningParts::name_html))]
fn push_name(alloc: Global, out: &mut Vec<u8>, row: &WarningRow) -> Result<(), AllocError>
    ensures { OnOk result (out.new.items ≡ out.old.items ++ name_html row.now) }
{
    let digits = four_digits(alloc, row.message_id)?;
    push_number(alloc, out, row.number.number())?;
    push_message(alloc, out, row.message_id, digits.as_str())
}

#[tactic(auto, unfolding(crate::specs::WarningParts::version_with))]
fn push_version_with(
    alloc: Global,
    out: &mut Vec<u8>,
    serial: &str,
    kind: &str,
    state: &str,
) -> Result<(), AllocError>
    ensures { OnOk result (out.new.items ≡ out.old.items ++ version_with serial.now kind.now state.now) }
{
    let text = format!(in alloc;
        " <span>serial {serial}</span> <span>{kind}</span> <span>{state}</span></h3>"
    )?;
    out.extend_from_slice(text.as_bytes())
}

#[tactic(auto, unfolding(crate::specs::WarningParts::version_html))]
fn push_version(alloc: Global, out: &mut Vec<u8>, row: &WarningRow) -> Result<(), AllocError>
    ensures { OnOk result (out.new.items ≡ out.old.items ++ version_html row.now) }
{
    let serial = serial_text(alloc, row.serial)?;
    push_version_with(
        alloc,
        out,
        serial.as_str(),
        kind_name(row.kind),
        state_name(row.is_active),
    )
}

#[tactic(auto, unfolding(crate::specs::WarningParts::front_with))]
fn push_front_with(
    alloc: Global,
    out: &mut Vec<u8>,
    number: u32,
    class: &str,
) -> Result<(), AllocError>
    ensures { OnOk result (out.new.items ≡ out.old.items ++ front_with number class.now) }
{
    let text = format!(in alloc; "<article id=\"w{number}\" class=\"w {class}\">")?;
    out.extend_from_slice(text.as_bytes())
}

#[tactic(auto, unfolding(crate::specs::WarningParts::warning_front))]
fn push_front(
    alloc: Global,
    out: &mut Vec<u8>,
    picture: &Picture,
    warning: &WarningFigures,
) -> Result<(), AllocError>
    ensures { OnOk result (out.new.items ≡ out.old.items ++ warning_front picture.now warning.now) }
{
    let class = standing_class(warning_standing(picture, warning));
    push_front_with(alloc, out, warning.sheet.row.number.number(), class)
}

/// Says of an active warning that reaches nobody that it does, and what there is to do.
#[tactic(auto, unfolding(crate::specs::WarningParts::unreached_html))]
fn push_unreached(out: &mut Vec<u8>, row: &WarningRow) -> Result<(), AllocError>
    ensures { OnOk result (out.new.items ≡ out.old.items ++ unreached_html row.now) }
{
    if is_unreached(row) {
        push_piece(out, Piece::Unreached)
    } else {
        Ok(())
    }
}

/// Says of a stuck warning that it is, and what there is to do.
#[tactic(auto, unfolding(crate::specs::WarningParts::stuck_html))]
fn push_stuck(out: &mut Vec<u8>, picture: &Picture, row: &WarningRow) -> Result<(), AllocError>
    ensures { OnOk result (out.new.items ≡ out.old.items ++ stuck_html picture.now row.now) }
{
    if is_stuck(picture, row) {
        push_piece(out, Piece::Stuck)
    } else {
        Ok(())
    }
}

/// Says in how many cells a warning is silent.
#[tactic(auto, unfolding(crate::specs::WarningParts::silent_html))]
fn push_silent(alloc: Global, out: &mut Vec<u8>, count: u64) -> Result<(), AllocError>
    ensures { OnOk result (out.new.items ≡ out.old.items ++ silent_html count) }
{
    let digits = format!(in alloc; "{count}")?;
    push_piece(out, Piece::SilentFront)?;
    out.extend_from_slice(digits.as_bytes())?;
    push_piece(out, Piece::SilentEnd)
}

fn push_silent_if(alloc: Global, out: &mut Vec<u8>, count: u64) -> Result<(), AllocError>
    ensures { OnOk result (out.new.items ≡ out.old.items ++ silent_if count) }
{
    if count == 0 {
        Ok(())
    } else {
        push_silent(alloc, out, count)
    }
}

/// Says since when a warning is over.
#[tactic(auto, unfolding(crate::specs::WarningParts::over_html))]
fn push_over(out: &mut Vec<u8>, since: u64) -> Result<(), AllocError>
    ensures { OnOk result (out.new.items ≡ out.old.items ++ over_html since) }
{
    push_piece(out, Piece::OverFront)?;
    push_time(out, since)?;
    push_piece(out, Piece::OverEnd)
}

fn push_over_if(out: &mut Vec<u8>, since: Option<u64>) -> Result<(), AllocError>
    ensures { OnOk result (out.new.items ≡ out.old.items ++ over_if since) }
{
    match since {
        None => Ok(()),
        Some(since) => push_over(out, since),
    }
}

#[tactic(auto, unfolding(crate::specs::WarningParts::notes_html))]
fn push_notes(
    alloc: Global,
    out: &mut Vec<u8>,
    picture: &Picture,
    warning: &WarningFigures,
) -> Result<(), AllocError>
    ensures { OnOk result (out.new.items ≡ out.old.items ++ notes_html picture.now warning.now) }
{
    push_silent_if(alloc, out, warning.silent)?;
    push_over_if(out, warning.over)?;
    push_unreached(out, &warning.sheet.row)?;
    push_stuck(out, picture, &warning.sheet.row)
}

/// The most warnings that are shown as a whole.
const FEW: usize = 16;

/// Whether there are so few warnings that each is shown as a whole.
fn are_few(picture: &Picture) -> bool
    ensures { result ≡ are_few picture.now }
{
    picture.warnings.as_slice().len() <= FEW
}

/// Appends where a part begins of which a line is left where it is folded.
#[tactic(auto, unfolding(crate::specs::WarningParts::fold_front))]
fn push_fold_front(out: &mut Vec<u8>, picture: &Picture) -> Result<(), AllocError>
    ensures { OnOk result (out.new.items ≡ out.old.items ++ fold_front picture.now) }
{
    if are_few(picture) {
        push_piece(out, Piece::OpenFront)
    } else {
        push_piece(out, Piece::FoldedFront)
    }
}

/// Appends what stands above a warning's content.
#[tactic(auto, unfolding(crate::specs::WarningParts::warning_head))]
fn push_head(
    alloc: Global,
    out: &mut Vec<u8>,
    picture: &Picture,
    warning: &WarningFigures,
) -> Result<(), AllocError>
    ensures { OnOk result (out.new.items ≡ out.old.items ++ warning_head picture.now warning.now) }
{
    push_front(alloc, out, picture, warning)?;
    push_fold_front(out, picture)?;
    push_name(alloc, out, &warning.sheet.row)?;
    push_version(alloc, out, &warning.sheet.row)
}

/// Appends a warning's board and those of its areas.
#[tactic(auto, unfolding(crate::specs::WarningParts::warning_boards))]
fn push_boards(alloc: Global, out: &mut Vec<u8>, warning: &WarningFigures) -> Result<(), AllocError>
    ensures { OnOk result (out.new.items ≡ out.old.items ++ warning_boards warning.now) }
{
    push_board(alloc, out, warning.sheet.row.numbers)?;
    push_areas(alloc, out, warning.areas.as_slice())?;
    push_piece(out, Piece::FoldEnd)?;
    push_piece(out, Piece::ArticleEnd)
}

/// Appends what a warning broadcasts, up to where its fold begins.
#[tactic(auto, unfolding(crate::specs::WarningParts::shown_content))]
fn push_shown_content(
    alloc: Global,
    out: &mut Vec<u8>,
    content: &Option<Content>,
) -> Result<(), AllocError>
    ensures { OnOk result (out.new.items ≡ out.old.items ++ shown_content content.now) }
{
    push_content(alloc, out, content)?;
    push_piece(out, Piece::FoldMiddle)
}

/// Appends a warning.
#[tactic(auto, unfolding(crate::specs::WarningParts::warning_html))]
fn push_warning(
    alloc: Global,
    out: &mut Vec<u8>,
    picture: &Picture,
    warning: &WarningFigures,
) -> Result<(), AllocError>
    ensures { OnOk result (out.new.items ≡ out.old.items ++ warning_html picture.now warning.now) }
{
    push_head(alloc, out, picture, warning)?;
    push_shown_content(alloc, out, &warning.sheet.content)?;
    push_notes(alloc, out, picture, warning)?;
    push_boards(alloc, out, warning)
}

/// Appends a warning, if it stands so.
fn push_if(
    alloc: Global,
    out: &mut Vec<u8>,
    picture: &Picture,
    standing: Standing,
    warning: &WarningFigures,
) -> Result<(), AllocError>
    ensures { OnOk result (out.new.items ≡ out.old.items ++ warning_if picture.now standing warning.now) }
{
    if warning_stands(picture, standing, warning) {
        push_warning(alloc, out, picture, warning)
    } else {
        Ok(())
    }
}

/// Appends the warnings that stand so.
fn push_standing(
    alloc: Global,
    out: &mut Vec<u8>,
    picture: &Picture,
    warnings: &[RankedWarning],
    standing: Standing,
) -> Result<(), AllocError>
    ensures { OnOk result (out.new.items ≡ out.old.items ++ flat_map (warning_if picture.now standing) warnings.now) }
{
    for warning in warnings {
        push_if(alloc, out, picture, standing, warning.get())?;
    }
    Ok(())
}

/// Appends the warnings that stand so, where there are so many of them.
#[tactic(auto, unfolding(crate::specs::WarningParts::some_warnings))]
fn push_some(
    alloc: Global,
    out: &mut Vec<u8>,
    picture: &Picture,
    warnings: &[RankedWarning],
    standing: Standing,
    count: u64,
) -> Result<(), AllocError>
    ensures { OnOk result (out.new.items ≡ out.old.items ++ some_warnings picture.now warnings.now standing count) }
{
    push_section_front(alloc, out, standing, title(standing), count)?;
    push_standing(alloc, out, picture, warnings, standing)?;
    push_piece(out, Piece::SectionEnd)
}

#[tactic(auto, unfolding(crate::specs::WarningParts::warnings_section))]
fn push_section(
    alloc: Global,
    out: &mut Vec<u8>,
    picture: &Picture,
    warnings: &[RankedWarning],
    standing: Standing,
) -> Result<(), AllocError>
    ensures { OnOk result (out.new.items ≡ out.old.items ++ warnings_section picture.now warnings.now standing) }
{
    match count_warnings(picture, standing) {
        0 => Ok(()),
        count => push_some(alloc, out, picture, warnings, standing, count as u64),
    }
}

/// Appends those at which somebody has to look: first the emergencies, then what reaches nobody, then the silent ones.
#[tactic(auto, unfolding(crate::specs::WarningParts::urgent_sections))]
fn push_urgent(
    alloc: Global,
    out: &mut Vec<u8>,
    picture: &Picture,
    warnings: &[RankedWarning],
) -> Result<(), AllocError>
    ensures { OnOk result (out.new.items ≡ out.old.items ++ urgent_sections picture.now warnings.now) }
{
    push_section(alloc, out, picture, warnings, Standing::Pressing)?;
    push_section(alloc, out, picture, warnings, Standing::Unreached)?;
    push_section(alloc, out, picture, warnings, Standing::Silent)?;
    push_section(alloc, out, picture, warnings, Standing::Wrong)
}

/// Appends the others, the most urgent first.
#[tactic(auto, unfolding(crate::specs::WarningParts::other_sections))]
fn push_others(
    alloc: Global,
    out: &mut Vec<u8>,
    picture: &Picture,
    warnings: &[RankedWarning],
) -> Result<(), AllocError>
    ensures { OnOk result (out.new.items ≡ out.old.items ++ other_sections picture.now warnings.now) }
{
    push_section(alloc, out, picture, warnings, Standing::UnderWay)?;
    push_section(alloc, out, picture, warnings, Standing::InOrder)?;
    push_section(alloc, out, picture, warnings, Standing::Stopped)
}

/// Appends all warnings of the picture, which come in their order.
#[tactic(auto, unfolding(crate::specs::WarningParts::warnings_html))]
pub(crate) fn push_warnings(
    alloc: Global,
    out: &mut Vec<u8>,
    picture: &Picture,
    warnings: &[RankedWarning],
) -> Result<(), AllocError>
    ensures { OnOk result (out.new.items ≡ out.old.items ++ warnings_html picture.now warnings.now) }
{
    push_piece(out, Piece::WarningsFront)?;
    push_urgent(alloc, out, picture, warnings)?;
    push_others(alloc, out, picture, warnings)?;
    push_piece(out, Piece::BlockEnd)
}
