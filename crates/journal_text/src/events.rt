//! The lines of events.

ghost use Rattle.std.specs.Prelude.{◌≡◌, ◌∷◌, [], IfOk, IfSome, OnOk, decimal};
ghost use Rattle.journal_text.specs.Reading.{IsWritten};
ghost use Rattle.journal_text.specs.Sayable.{IsBsc, IsCell, IsWarning};
ghost use Rattle.journal_text.specs.Texts.{after_words, followed};

use crate::edits::write_edit;
use crate::numbers::{push_cell, push_warning, write_bsc};
use crate::reports::write_report;
use cell_register::BscId;
use centre_events::event::Event;
use common::Cell;
use std::alloc::{AllocError, Global};
use warning_book::WarningId;

/// Puts L and C behind the line, if there is a cell.
fn push_after(alloc: Global, line: &mut Vec<u8>, after: Option<Cell>) -> Result<(), AllocError>
    ensures text { OnOk result (line.new.items ≡ followed 32 line.old.items (after_words after)) }
    ensures range { IfSome after IsCell }
{
    match after {
        Some(cell) => push_cell(alloc, line, cell),
        None => Ok(()),
    }
}

/// Writes an `ask`.
fn write_ask(
    alloc: Global,
    line: &mut Vec<u8>,
    bsc: BscId,
    warning: WarningId,
    after: Option<Cell>,
) -> Result<(), AllocError>
    requires { line.old.items ≡ [] }
    ensures text { OnOk result (line.new.items ≡ followed 32 (97 ∷ 115 ∷ 107 ∷ []) (decimal bsc ∷ decimal warning ∷ after_words after)) }
    ensures range { OnOk result (IsBsc bsc × IsWarning warning × IfSome after IsCell) }
{
    write_bsc(alloc, line, b"ask", bsc)?;
    push_warning(alloc, line, warning)?;
    push_after(alloc, line, after)
}

/// Writes the line of an event. The answer is whether there is one.
pub fn write_event(alloc: Global, line: &mut Vec<u8>, event: &Event) -> Result<bool, AllocError>
    requires { line.old.items ≡ [] }
    ensures { IfOk result (λ has. IsWritten event.now has line.new.items) }
{
    match event {
        Event::Edit(edit) => write_edit(alloc, line, edit),
        Event::Retry(bsc) => {
            write_bsc(alloc, line, b"retry", *bsc)?;
            Ok(true)
        }
        Event::LinkUp(bsc) => {
            write_bsc(alloc, line, b"up", *bsc)?;
            Ok(true)
        }
        Event::LinkDown(bsc, _) => {
            write_bsc(alloc, line, b"down", *bsc)?;
            Ok(true)
        }
        Event::Send(bsc, _) => {
            write_bsc(alloc, line, b"send", *bsc)?;
            Ok(true)
        }
        Event::Ask(bsc, _, warning, after) => {
            write_ask(alloc, line, *bsc, *warning, *after)?;
            Ok(true)
        }
        Event::Report(bsc, _, message) => write_report(alloc, line, *bsc, message),
    }
}
