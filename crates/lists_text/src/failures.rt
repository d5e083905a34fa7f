//! The list of the cells in which a warning failed.

ghost use Rattle.std.specs.Prelude.{◌≡◌, IfOk, string_bytes};
ghost use Rattle.lists_text.specs.ListTexts.{cause_name, failed_line, failed_text, failure_text};

use crate::lines::{push_count, push_line};
use cbsp_ie::Cause;
use centre_past::lists::{FailedRow, Failure};
use std::alloc::{AllocError, Global};

/// The name of a cause (TS 48.049, 8.2.13).
pub fn cause_name(cause: Cause) -> &'static str
    ensures { result.now ≡ cause_name cause.0 }
{
    match cause.0 {
        0 => "parameter not recognised",
        1 => "parameter value invalid",
        2 => "message reference not identified",
        3 => "cell identity not valid",
        4 => "unrecognised message",
        5 => "missing mandatory element",
        6 => "BSC capacity exceeded",
        7 => "cell memory exceeded",
        8 => "BSC memory exceeded",
        9 => "cell broadcast not supported",
        10 => "cell broadcast not operational",
        11 => "incompatible DRX parameter",
        12 => "extended channel not supported",
        13 => "message reference already used",
        14 => "unspecified error",
        15 => "LAI or LAC not valid",
        _ => "unknown cause",
    }
}

/// Why a warning failed in a cell.
fn failure_text(alloc: Global, why: Failure) -> Result<String, AllocError>
    ensures { IfOk result (λ text. string_bytes text ≡ failure_text why) }
{
    match why {
        Failure::Down => String::from_str(alloc, "down"),
        Failure::Refused(cause) => {
            let number = cause.0;
            let name = cause_name(cause);
            format!(in alloc; "refused {number} {name}")
        }
    }
}

/// The line of a cell in which a warning failed.
fn failed_line(alloc: Global, row: &FailedRow) -> Result<String, AllocError>
    ensures { IfOk result (λ text. string_bytes text ≡ failed_line row.now) }
{
    let lac = row.cell.lac;
    let ci = row.cell.ci;
    let bsc = row.bsc.number();
    let why = failure_text(alloc, row.why)?;
    format!(in alloc; "failed {lac} {ci} at {bsc} {why}\n")
}

/// A line for each cell in which a warning failed, and their number.
pub fn failed_text(alloc: Global, rows: &[FailedRow]) -> Result<Vec<u8>, AllocError>
    ensures { IfOk result (λ text. text.items ≡ failed_text rows.now) }
{
    let mut text = Vec::new(alloc);
    for row in rows {
        let line = failed_line(alloc, row)?;
        push_line(&mut text, line.as_str())?;
    }
    push_count(alloc, &mut text, "failures", rows.len())?;
    Ok(text)
}
