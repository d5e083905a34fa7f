//! What is known of a warning beside its board: where it is silent, and since when it is over.

ghost use Rattle.std.specs.Prelude.{◌≡◌, ◌++◌, IfOk, OnOk, string_bytes};
ghost use Rattle.std.specs.List.{flat_map};
ghost use Rattle.lists_text.specs.ListTexts.{air_text, over_line, silent_line};

use crate::bscs::time_text;
use crate::lines::push_line;
use cell_register::BscId;
use common::Cell;
use std::alloc::{AllocError, Global};

/// A cell in which a warning is silent: it is on air there, and its number of broadcasts doesn't rise.
#[derive(Clone, Copy, Debug, PartialEq, Eq)]
pub struct SilentRow {
    pub cell: Cell,
    pub bsc: BscId,
}

/// The line of a cell in which a warning is silent.
fn silent_line(alloc: Global, row: SilentRow) -> Result<String, AllocError>
    ensures { IfOk result (λ text. string_bytes text ≡ silent_line row) }
{
    let lac = row.cell.lac;
    let ci = row.cell.ci;
    let bsc = row.bsc.number();
    format!(in alloc; "silent {lac} {ci} at {bsc}\n")
}

fn push_silent(alloc: Global, text: &mut Vec<u8>, row: SilentRow) -> Result<(), AllocError>
    ensures { OnOk result (text.new.items ≡ text.old.items ++ silent_line row) }
{
    let line = silent_line(alloc, row)?;
    push_line(text, line.as_str())
}

/// Puts a line for each of the cells behind the text.
fn push_all_silent(alloc: Global, text: &mut Vec<u8>, rows: &[SilentRow]) -> Result<(), AllocError>
    ensures { OnOk result (text.new.items ≡ text.old.items ++ flat_map silent_line rows.now) }
{
    for row in rows {
        push_silent(alloc, text, *row)?;
    }
    Ok(())
}

/// Puts since when a warning is over behind the text, if it is.
fn push_over(alloc: Global, text: &mut Vec<u8>, over: Option<u64>) -> Result<(), AllocError>
    ensures { OnOk result (text.new.items ≡ text.old.items ++ over_line over) }
{
    match over {
        None => Ok(()),
        Some(since) => {
            let time = time_text(alloc, since)?;
            let line = format!(in alloc; "over since {time}\n")?;
            push_line(text, line.as_str())
        }
    }
}

/// Puts a line for each cell in which a warning is silent behind the text, and then since when it is over by its period, if it is, in
/// seconds after 1970-01-01T00:00:00Z.
pub(crate) fn push_air(
    alloc: Global,
    text: &mut Vec<u8>,
    silent: &[SilentRow],
    over: Option<u64>,
) -> Result<(), AllocError>
    ensures { OnOk result (text.new.items ≡ text.old.items ++ air_text silent.now over) }
{
    push_all_silent(alloc, text, silent)?;
    push_over(alloc, text, over)
}
