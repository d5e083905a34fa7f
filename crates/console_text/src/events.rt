//! The events that lines of the console ask for.

ghost use Rattle.std.specs.Prelude.{◌≡◌, IfOk};
ghost use Rattle.console_text.specs.Events.{IsLineEvent, IsReportEvent, line_edit, link_of};

use crate::edits::edit_of;
use crate::line::Line;
use crate::line_edit::LineEdit;
use crate::line_event::LineEvent;
use crate::reports::report_of;
use crate::text_fault::TextFault;
use cell_register::BscId;
use centre_events::event::Event;
use std::alloc::{AllocError, Global};

/// The BSC whose link the line speaks of, by the generation that is kept for it.
pub fn link_of(line: &Line) -> Option<BscId>
    ensures { result ≡ link_of line.now }
{
    match line {
        Line::Down(bsc) => Some(*bsc),
        Line::Send(bsc) => Some(*bsc),
        Line::Ask(bsc, _, _) => Some(*bsc),
        Line::Report(bsc, _) => Some(*bsc),
        _ => None,
    }
}

/// The report of a message, over the link of that generation.
fn report_event(
    alloc: Global,
    bsc: BscId,
    generation: u64,
    digits: &[u8],
) -> Result<LineEvent, AllocError>
    ensures { IfOk result (IsReportEvent generation bsc digits.now) }
{
    match report_of(alloc, digits)? {
        Ok(message) => Ok(LineEvent::Event(Event::Report(bsc, generation, message))),
        Err(fault) => Ok(LineEvent::Bad(fault)),
    }
}

/// The event of a line that asks for no edit.
fn other_event(alloc: Global, line: Line, generation: u64) -> Result<LineEvent, AllocError>
    ensures { line_edit line ≡ LineEdit.Other line → IfOk result (IsLineEvent generation line) }
{
    match line {
        Line::Retry(bsc) => Ok(LineEvent::Event(Event::Retry(bsc))),
        Line::Up(bsc) => Ok(LineEvent::Event(Event::LinkUp(bsc))),
        Line::Down(bsc) => Ok(LineEvent::Event(Event::LinkDown(bsc, generation))),
        Line::Send(bsc) => Ok(LineEvent::Event(Event::Send(bsc, generation))),
        Line::Ask(bsc, warning, after) => Ok(LineEvent::Event(Event::Ask(
            bsc, generation, warning, after,
        ))),
        Line::Report(bsc, digits) => report_event(alloc, bsc, generation, digits.as_slice()),
        other => Ok(LineEvent::Other(other)),
    }
}

/// The event that the line asks for, where the generation kept for its BSC is this.
#[tactic(auto, using(crate::proofs::EventLemmas::bad_edit))]
pub fn event_of(alloc: Global, line: Line, generation: u64) -> Result<LineEvent, AllocError>
    ensures { IfOk result (IsLineEvent generation line) }
{
    match edit_of(alloc, line)? {
        LineEdit::Edit(edit) => Ok(LineEvent::Event(Event::Edit(edit))),
        LineEdit::BadHex => Ok(LineEvent::Bad(TextFault::Hex)),
        LineEdit::Other(other) => other_event(alloc, other, generation),
    }
}
