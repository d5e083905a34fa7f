//! What is known of warnings beside their boards: where they are silent, and since when they are over.

use centre_past::lists::{WarningRow, WarningSheet};
use centre_questions::SurveyedWarning;
use lists_text::SilentRow;
use office_picture::WarningAir;
use server_links::{Shared, active_version};
use std::alloc::AllocError;
use std::sync::Wait;
use std::sync::ledger::Ledger;
use warning_book::Content;

/// Appends the cells in which a warning is silent, if it is active.
pub(crate) fn push_silent<L: Ledger, E: Drop, R: Wait>(
    rt: &R,
    shared: &Shared<L, E>,
    rows: &mut Vec<SilentRow>,
    row: &WarningRow,
) -> Result<(), AllocError> {
    let Some(version) = active_version(row) else {
        return Ok(());
    };
    for port in &shared.ports {
        server_links::push_silent(rt, port, rows, version)?;
    }
    Ok(())
}

/// In how many cells a warning is silent; in none, if it was stopped.
fn silent_count<L: Ledger, E: Drop, R: Wait>(
    rt: &R,
    shared: &Shared<L, E>,
    row: &WarningRow,
) -> u64 {
    let Some(version) = active_version(row) else {
        return 0;
    };
    let mut count = 0u64;
    for port in &shared.ports {
        let here = server_links::silent_count(rt, port, version);
        count = count.saturating_add(here as u64);
    }
    count.min(row.numbers.on_air)
}

/// Since when an active emergency warning is over by its period, where it is on air by its board. `now` is in seconds after
/// 1970-01-01T00:00:00Z.
pub(crate) fn over_since<L: Ledger, E: Drop, R: Wait>(
    rt: &R,
    shared: &Shared<L, E>,
    sheet: &WarningSheet,
    now: u64,
) -> Option<u64> {
    let version = active_version(&sheet.row)?;
    match &sheet.content {
        Some(Content::Emergency(content)) if sheet.row.numbers.on_air != 0 => {
            let period = content.warning_period;
            shared.broadcasts.over_since(rt, version, period, now)
        }
        _ => None,
    }
}

/// What is known of each of these warnings.
pub(crate) fn airs_of<L: Ledger, E: Drop, R: Wait>(
    rt: &R,
    shared: &Shared<L, E>,
    warnings: &[SurveyedWarning],
    now: u64,
) -> Result<Vec<WarningAir>, AllocError> {
    let mut airs = Vec::new(shared.alloc);
    for warning in warnings {
        let row = &warning.sheet.row;
        airs.push(WarningAir {
            warning: row.number,
            silent: silent_count(rt, shared, row),
            over: over_since(rt, shared, &warning.sheet, now),
        })?;
    }
    Ok(airs)
}
