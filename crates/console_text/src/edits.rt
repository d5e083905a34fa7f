//! The edits that lines of the console ask for.

ghost use Rattle.std.specs.Prelude.{◌≡◌, IfOk};
ghost use Rattle.console_text.specs.declared.line.Line.TheVariants as request;
ghost use Rattle.console_text.specs.Events.{line_edit};

use crate::alert_heading::AlertHeading;
use crate::content_heading::ContentHeading;
use crate::emergency_heading::EmergencyHeading;
use crate::heading::Heading;
use crate::hex_text::{read_pages, read_security};
use crate::line::Line;
use crate::line_edit::LineEdit;
use common::Names;
use coverage_plan::Edit;
use std::alloc::{AllocError, Global};
use warning_book::{Notice, WarningId};

/// The edit of an `issue`.
fn issue(
    alloc: Global,
    heading: Heading,
    pages: &[u8],
    areas: Names,
) -> Result<LineEdit, AllocError>
    ensures { IfOk result (λ edit. edit ≡ line_edit (request.Issue heading pages.now areas)) }
{
    let Some(pages) = read_pages(alloc, pages)? else {
        return Ok(LineEdit::BadHex);
    };
    let notice = Notice {
        message_id: heading.message_id,
        scope: heading.scope,
        content: heading.content.content(pages),
    };
    Ok(LineEdit::Edit(Edit::Issue(notice, areas)))
}

/// The edit of an `update`.
fn update(
    alloc: Global,
    warning: WarningId,
    heading: ContentHeading,
    pages: &[u8],
) -> Result<LineEdit, AllocError>
    ensures { IfOk result (λ edit. edit ≡ line_edit (request.Update warning heading pages.now)) }
{
    let Some(pages) = read_pages(alloc, pages)? else {
        return Ok(LineEdit::BadHex);
    };
    Ok(LineEdit::Edit(Edit::Update(warning, heading.content(pages))))
}

/// The edit of an `alert`.
fn alert(
    alloc: Global,
    heading: AlertHeading,
    security: &[u8],
    areas: Names,
) -> Result<LineEdit, AllocError>
    ensures { IfOk result (λ edit. edit ≡ line_edit (request.Alert heading security.now areas)) }
{
    let Some(security) = read_security(alloc, security)? else {
        return Ok(LineEdit::BadHex);
    };
    let notice = Notice {
        message_id: heading.message_id,
        scope: heading.scope,
        content: heading.content.content(security),
    };
    Ok(LineEdit::Edit(Edit::Issue(notice, areas)))
}

/// The edit of a `realert`.
fn realert(
    alloc: Global,
    warning: WarningId,
    heading: EmergencyHeading,
    security: &[u8],
) -> Result<LineEdit, AllocError>
    ensures { IfOk result (λ edit. edit ≡ line_edit (request.Realert warning heading security.now)) }
{
    let Some(security) = read_security(alloc, security)? else {
        return Ok(LineEdit::BadHex);
    };
    Ok(LineEdit::Edit(Edit::Update(warning, heading.content(security))))
}

/// The edit that the line asks for.
pub fn edit_of(alloc: Global, line: Line) -> Result<LineEdit, AllocError>
    ensures { IfOk result (λ edit. edit ≡ line_edit line) }
{
    match line {
        Line::AddBsc(b) => Ok(LineEdit::Edit(Edit::AddBsc(b))),
        Line::RemoveBsc(b) => Ok(LineEdit::Edit(Edit::RemoveBsc(b))),
        Line::AddCell(cell, b) => Ok(LineEdit::Edit(Edit::AddCell(cell, b))),
        Line::MoveCell(cell, b) => Ok(LineEdit::Edit(Edit::MoveCell(cell, b))),
        Line::RemoveCell(cell) => Ok(LineEdit::Edit(Edit::RemoveCell(cell))),
        Line::AddArea(area) => Ok(LineEdit::Edit(Edit::AddArea(area))),
        Line::DropArea(area) => Ok(LineEdit::Edit(Edit::DropArea(area))),
        Line::Put(area, selector) => Ok(LineEdit::Edit(Edit::Put(area, selector))),
        Line::Cut(area, selector) => Ok(LineEdit::Edit(Edit::Cut(area, selector))),
        Line::Widen(warning, area) => Ok(LineEdit::Edit(Edit::Widen(warning, area))),
        Line::Narrow(warning, area) => Ok(LineEdit::Edit(Edit::Narrow(warning, area))),
        Line::Stop(warning) => Ok(LineEdit::Edit(Edit::Stop(warning))),
        Line::Forget(warning) => Ok(LineEdit::Edit(Edit::Forget(warning))),
        Line::Issue {
            heading,
            pages,
            areas,
        } => issue(alloc, heading, pages.as_slice(), areas),
        Line::Update {
            warning,
            heading,
            pages,
        } => update(alloc, warning, heading, pages.as_slice()),
        Line::Alert {
            heading,
            security,
            areas,
        } => alert(alloc, heading, security.as_slice(), areas),
        Line::Realert {
            warning,
            heading,
            security,
        } => realert(alloc, warning, heading, security.as_slice()),
        other => Ok(LineEdit::Other(other)),
    }
}
