//! The event of a line, as the console's rules give it.

use cbsp_messages::{MessageType, read_as};
use cell_register::BscId;
use centre_events::event::Event;
use console_text::frames::read_frame;
use console_text::grammar::read_line;
use console_text::hex_text::{read_octets, read_pages, read_security};
use console_text::line::Line;
use console_text::words::split_words;
use coverage_plan::Edit;
use std::alloc::Global;
use std::process::Abort;
use warning_book::Notice;

/// What the words of a line ask for.
pub(crate) fn asked(rt: &impl Abort, alloc: Global, text: &[u8]) -> Option<Line> {
    let words = split_words(alloc, text).expect(rt, "memory");
    read_line(alloc, &words).expect(rt, "memory")
}

/// The event of a line that has one, where the kept generation is this.
pub(crate) fn event_of(
    rt: &impl Abort,
    alloc: Global,
    text: &[u8],
    generation: u64,
) -> Option<Event> {
    let line = asked(rt, alloc, text)?;
    match line {
        Line::Retry(bsc) => Some(Event::Retry(bsc)),
        Line::Up(bsc) => Some(Event::LinkUp(bsc)),
        Line::Down(bsc) => Some(Event::LinkDown(bsc, generation)),
        Line::Send(bsc) => Some(Event::Send(bsc, generation)),
        Line::Ask(bsc, warning, after) => Some(Event::Ask(bsc, generation, warning, after)),
        Line::Report(bsc, digits) => report(rt, alloc, bsc, generation, digits.as_slice()),
        other => edit_of(rt, alloc, other).map(Event::Edit),
    }
}

/// The report of a frame, in hexadecimal digits.
fn report(
    rt: &impl Abort,
    alloc: Global,
    bsc: BscId,
    generation: u64,
    digits: &[u8],
) -> Option<Event> {
    let octets = read_octets(alloc, digits).expect(rt, "memory")?;
    let frame = read_frame(alloc, octets.as_slice()).expect(rt, "memory")?;
    let kind = MessageType::of_report(frame.kind)?;
    match read_as(alloc, kind, frame.body.as_slice()) {
        Ok(message) => Some(Event::Report(bsc, generation, message)),
        Err(_) => None,
    }
}

fn edit_of(rt: &impl Abort, alloc: Global, line: Line) -> Option<Edit> {
    match line {
        Line::AddBsc(bsc) => Some(Edit::AddBsc(bsc)),
        Line::RemoveBsc(bsc) => Some(Edit::RemoveBsc(bsc)),
        Line::AddCell(cell, bsc) => Some(Edit::AddCell(cell, bsc)),
        Line::MoveCell(cell, bsc) => Some(Edit::MoveCell(cell, bsc)),
        Line::RemoveCell(cell) => Some(Edit::RemoveCell(cell)),
        Line::AddArea(area) => Some(Edit::AddArea(area)),
        Line::DropArea(area) => Some(Edit::DropArea(area)),
        Line::Put(area, selector) => Some(Edit::Put(area, selector)),
        Line::Cut(area, selector) => Some(Edit::Cut(area, selector)),
        Line::Widen(warning, area) => Some(Edit::Widen(warning, area)),
        Line::Narrow(warning, area) => Some(Edit::Narrow(warning, area)),
        Line::Stop(warning) => Some(Edit::Stop(warning)),
        Line::Forget(warning) => Some(Edit::Forget(warning)),
        other => content_edit_of(rt, alloc, other),
    }
}

fn content_edit_of(rt: &impl Abort, alloc: Global, line: Line) -> Option<Edit> {
    match line {
        Line::Issue {
            heading,
            pages,
            areas,
        } => {
            let pages = read_pages(alloc, pages.as_slice()).expect(rt, "memory")?;
            let notice = Notice {
                message_id: heading.message_id,
                scope: heading.scope,
                content: heading.content.content(pages),
            };
            Some(Edit::Issue(notice, areas))
        }
        Line::Update {
            warning,
            heading,
            pages,
        } => {
            let pages = read_pages(alloc, pages.as_slice()).expect(rt, "memory")?;
            Some(Edit::Update(warning, heading.content(pages)))
        }
        Line::Alert {
            heading,
            security,
            areas,
        } => {
            let security = read_security(alloc, security.as_slice()).expect(rt, "memory")?;
            let notice = Notice {
                message_id: heading.message_id,
                scope: heading.scope,
                content: heading.content.content(security),
            };
            Some(Edit::Issue(notice, areas))
        }
        Line::Realert {
            warning,
            heading,
            security,
        } => {
            let security = read_security(alloc, security.as_slice()).expect(rt, "memory")?;
            Some(Edit::Update(warning, heading.content(security)))
        }
        _ => None,
    }
}
