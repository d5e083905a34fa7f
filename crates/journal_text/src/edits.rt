//! The lines of edits.

ghost use Rattle.std.specs.Prelude.{◌≡◌, [], IfOk};
ghost use Rattle.centre_events.specs.declared.event.Event.TheVariants as event;
ghost use Rattle.journal_text.specs.Reading.{IsWritten};

use crate::contents::{write_issue, write_update};
use crate::names::{write_area, write_selector, write_warning_area};
use crate::numbers::{write_bsc, write_cell, write_cell_at, write_warning};
use coverage_plan::Edit;
use std::alloc::{AllocError, Global};

/// Writes the line of an edit. The answer is whether there is one.
pub fn write_edit(alloc: Global, line: &mut Vec<u8>, edit: &Edit) -> Result<bool, AllocError>
    requires { line.old.items ≡ [] }
    ensures { IfOk result (λ has. IsWritten (event.Edit edit.now) has line.new.items) }
{
    match edit {
        Edit::AddBsc(bsc) => {
            write_bsc(alloc, line, b"bsc add", *bsc)?;
            Ok(true)
        }
        Edit::RemoveBsc(bsc) => {
            write_bsc(alloc, line, b"bsc remove", *bsc)?;
            Ok(true)
        }
        Edit::AddCell(cell, bsc) => {
            write_cell_at(alloc, line, b"cell add", *cell, *bsc)?;
            Ok(true)
        }
        Edit::MoveCell(cell, bsc) => {
            write_cell_at(alloc, line, b"cell move", *cell, *bsc)?;
            Ok(true)
        }
        Edit::RemoveCell(cell) => {
            write_cell(alloc, line, b"cell remove", *cell)?;
            Ok(true)
        }
        Edit::AddArea(area) => write_area(line, b"area add", area),
        Edit::DropArea(area) => write_area(line, b"area drop", area),
        Edit::Put(area, selector) => write_selector(alloc, line, b"area put", area, *selector),
        Edit::Cut(area, selector) => write_selector(alloc, line, b"area cut", area, *selector),
        Edit::Issue(notice, areas) => write_issue(alloc, line, notice, areas),
        Edit::Update(warning, content) => write_update(alloc, line, *warning, content),
        Edit::Widen(warning, area) => write_warning_area(alloc, line, b"widen", *warning, area),
        Edit::Narrow(warning, area) => write_warning_area(alloc, line, b"narrow", *warning, area),
        Edit::Stop(warning) => {
            write_warning(alloc, line, b"stop", *warning)?;
            Ok(true)
        }
        Edit::Forget(warning) => {
            write_warning(alloc, line, b"forget", *warning)?;
            Ok(true)
        }
    }
}
