//! The list of a BSC's cells.

ghost use Rattle.std.specs.Prelude.{◌≡◌, IfOk, string_bytes};
ghost use Rattle.lists_text.specs.ListTexts.{cell_text, cells_text, downs_text};

use crate::lines::{push_count, push_line};
use cell_register::BscId;
use centre_past::lists::CellRow;
use std::alloc::{AllocError, Global};

/// The kinds of warnings for which a cell is down.
fn downs_text(is_down: bool, is_down_for_emergency: bool) -> &'static str
    ensures { result.now ≡ downs_text is_down is_down_for_emergency }
{
    match (is_down, is_down_for_emergency) {
        (false, false) => "",
        (true, false) => " down cbs",
        (false, true) => " down emergency",
        (true, true) => " down cbs,emergency",
    }
}

/// The line of a cell at the BSC.
fn cell_text(alloc: Global, b: BscId, row: &CellRow) -> Result<String, AllocError>
    ensures { IfOk result (λ text. string_bytes text ≡ cell_text b row.now) }
{
    let lac = row.cell.lac;
    let ci = row.cell.ci;
    let bsc = b.number();
    let downs = downs_text(row.is_down, row.is_down_for_emergency);
    format!(in alloc; "cell {lac} {ci} bsc {bsc}{downs}\n")
}

/// A line for each cell at the BSC, and their number.
pub fn cells_text(alloc: Global, b: BscId, rows: &[CellRow]) -> Result<Vec<u8>, AllocError>
    ensures { IfOk result (λ text. text.items ≡ cells_text b rows.now) }
{
    let mut text = Vec::new(alloc);
    for row in rows {
        let line = cell_text(alloc, b, row)?;
        push_line(&mut text, line.as_str())?;
    }
    push_count(alloc, &mut text, "cells", rows.len())?;
    Ok(text)
}
