//! What is said of BSCs in whose cells warnings of two repetition periods would stand.

use crate::listed::{bscs_in, cells_in, selectors_in, warnings_in};
use crate::operator::Operator;
use crate::periods::{is_other, is_rival, period_of, reaches};
use crate::server::Server;
use cell_register::BscId;
use centre_events::refusal::Refusal;
use centre_past::lists::{BscRow, CellRow, WarningRow};
use common::Name;
use office::desk::Desk;
use office::question::Question;
use office::seen::{Seen, SeenValue};
use std::alloc::AllocError;
use std::sync::Wait;
use std::sync::ledger::Ledger;
use std::time::Clock;
use warning_book::WarningId;

/// How many pairs of a cell and a selector are looked at after one event, so that the operator doesn't wait.
const MOST_PAIRS: usize = 1_000_000;

/// A warning with pages: its number, and the selectors of its areas.
#[derive(Drop)]
struct Placed {
    number: WarningId,
    areas: Vec<Seen>,
}

/// What was done for one event.
#[derive(Drop)]
struct Notices {
    /// The BSCs that were named.
    named: Vec<BscId>,
    /// How many pairs may still be looked at.
    left: usize,
}

impl Notices {
    /// Whether so many pairs may be looked at, which are then. Where they may not, none may from then on.
    fn take(&mut self, pairs: usize) -> bool {
        if self.left < pairs {
            self.left = 0;
            return false;
        }
        self.left -= pairs;
        true
    }
}

/// Whether one of the areas covers one of the cells, as far as they may be looked at.
fn is_at(notices: &mut Notices, areas: &[Seen], cells: &[CellRow]) -> bool {
    for area in areas {
        let selectors = selectors_in(&area.value);
        if !notices.take(cells.len().saturating_mul(selectors.len())) {
            return false;
        }
        if reaches(cells, selectors) {
            return true;
        }
    }
    false
}

/// The period of the warning, if it has pages and is in the book.
fn period<L: Ledger, S: Server, R: Wait>(
    rt: &R,
    operator: &Operator<'_, L, S>,
    desk: &Desk<L>,
    warning: WarningId,
) -> Option<u16> {
    let question = Question::Warning(warning);
    let seen = operator.office.look(rt, desk, question).ok()?;
    match &seen.value {
        SeenValue::Warning(sheet) => period_of(&sheet.content),
        _ => None,
    }
}

/// The selectors of an area.
fn selectors<L: Ledger, S: Server, R: Wait>(
    rt: &R,
    operator: &Operator<'_, L, S>,
    desk: &Desk<L>,
    name: &Name,
) -> Result<Seen, Refusal> {
    let Ok(name) = name.copied(operator.alloc) else {
        return Err(Refusal::Memory);
    };
    operator.office.look(rt, desk, Question::Selectors(name))
}

/// The selectors of each of these areas.
fn areas<L: Ledger, S: Server, R: Wait>(
    rt: &R,
    operator: &Operator<'_, L, S>,
    desk: &Desk<L>,
    names: &[Name],
) -> Result<Vec<Seen>, AllocError> {
    let mut areas = Vec::new(operator.alloc);
    for name in names {
        if let Ok(seen) = selectors(rt, operator, desk, name) {
            areas.push(seen)?;
        }
    }
    Ok(areas)
}

/// The warning of that row.
fn placed_of<L: Ledger, S: Server, R: Wait>(
    rt: &R,
    operator: &Operator<'_, L, S>,
    desk: &Desk<L>,
    row: &WarningRow,
) -> Option<Placed> {
    let areas = areas(rt, operator, desk, row.areas.as_slice()).ok()?;
    Some(Placed {
        number: row.number,
        areas,
    })
}

/// Whether both warnings are wanted in cells of the BSC.
fn are_both_at<L: Ledger, S: Server, R: Wait>(
    rt: &R,
    operator: &Operator<'_, L, S>,
    desk: &Desk<L>,
    b: BscId,
    placed: &Placed,
    rival: &Placed,
    notices: &mut Notices,
) -> bool {
    match operator.office.look(rt, desk, Question::Cells(b)) {
        Ok(seen) => {
            let cells = cells_in(&seen.value);
            is_at(notices, placed.areas.as_slice(), cells)
                && is_at(notices, rival.areas.as_slice(), cells)
        }
        Err(_) => false,
    }
}

/// Names to the server each BSC that has both warnings in its cells, but those that were named.
fn name_both<L: Ledger, S: Server, R: Wait + Clock>(
    rt: &R,
    operator: &Operator<'_, L, S>,
    desk: &Desk<L>,
    bscs: &[BscRow],
    placed: &Placed,
    rival: &Placed,
    notices: &mut Notices,
) -> Result<(), AllocError> {
    for row in bscs {
        let b = row.bsc;
        if row.cells != 0
            && !notices.named.as_slice().contains(&b)
            && notices.take(row.cells)
            && are_both_at(rt, operator, desk, b, placed, rival, notices)
        {
            operator
                .server
                .has_two_periods(rt, placed.number, b, rival.number);
            notices.named.push(b)?;
        }
    }
    Ok(())
}

/// The rows of the other active warnings that have another period.
fn rivals<'r, L: Ledger, S: Server, R: Wait>(
    rt: &R,
    operator: &Operator<'_, L, S>,
    desk: &Desk<L>,
    row: &WarningRow,
    rows: &'r [WarningRow],
) -> Result<Vec<&'r WarningRow>, AllocError> {
    let mut rivals = Vec::new(operator.alloc);
    let Some(own) = period(rt, operator, desk, row.number) else {
        return Ok(rivals);
    };
    for other in rows {
        if is_rival(row.number, other) && is_other(own, period(rt, operator, desk, other.number)) {
            rivals.push(other)?;
        }
    }
    Ok(rivals)
}

/// Names to the server each BSC that has the warning in its cells, and one of the others.
fn name_beside<L: Ledger, S: Server, R: Wait + Clock>(
    rt: &R,
    operator: &Operator<'_, L, S>,
    desk: &Desk<L>,
    row: &WarningRow,
    rivals: &[&WarningRow],
) -> Option<()> {
    let seen = operator.office.look(rt, desk, Question::Bscs).ok()?;
    let own = placed_of(rt, operator, desk, row)?;
    let mut notices = Notices {
        named: Vec::new(operator.alloc),
        left: MOST_PAIRS,
    };
    for other in rivals {
        if notices.left == 0 {
            return None;
        }
        let rival = placed_of(rt, operator, desk, *other)?;
        let bscs = bscs_in(&seen.value);
        name_both(rt, operator, desk, bscs, &own, &rival, &mut notices).ok()?;
    }
    Some(())
}

/// The warning was issued, updated or widened. Each BSC is named to the server in whose cells it is wanted, and another active warning
/// with another repetition period, once, with the first such warning. Where memory runs out for the answers of the centre, or more
/// than 1,000,000 pairs of a cell and a selector would have to be looked at, no BSC is named, or not all.
pub(crate) fn name_periods<L: Ledger, S: Server, R: Wait + Clock>(
    rt: &R,
    operator: &Operator<'_, L, S>,
    desk: &Desk<L>,
    warning: WarningId,
) {
    let Ok(seen) = operator.office.look(rt, desk, Question::Warnings) else {
        return;
    };
    let rows = warnings_in(&seen.value);
    let Some(row) = rows.iter().find(|row| row.number == warning) else {
        return;
    };
    if let Ok(rivals) = rivals(rt, operator, desk, row, rows) {
        if !rivals.is_empty() {
            let _ = name_beside(rt, operator, desk, row, rivals.as_slice());
        }
    }
}
