//! In which cells of a BSC a version of a warning is on air.

ghost use Rattle.std.specs.Prelude.{◌≡◌, ◌≤◌, ◌+◌, length, take, IfOk, OnErr};
ghost use Rattle.mirror.specs.Lines.{lines_at};
ghost use Rattle.mirror.specs.OnAir.{is_on_air_in, lines_for, on_air_cells, until_found};
ghost use Rattle.mirror.specs.Table.{counted_all};

use crate::line::Line;
use crate::lines::Lines;
use crate::presence::Presence;
use crate::version_at::VersionAt;
use crate::warning_slot::WarningSlot;
use common::Cells;
use serials::Serial;
use std::alloc::{AllocError, Global};
use std::collections::btree_set::Range;

/// Whether the version of that serial number is on air.
fn is_on_air_in(line: &Line, serial: Serial) -> bool
    ensures { result ≡ is_on_air_in serial line.now }
{
    line.state(serial).presence == Presence::OnAir
}

/// The first `most` cells in which the version is on air, among the cells of the slots. The first slot of another BSC or
/// warning ends them. Each line that is read is counted.
pub(crate) fn first_on_air(
    alloc: Global,
    slots: Range<'_, WarningSlot>,
    lines: &Lines,
    v: &VersionAt,
    most: usize,
    meter: &mut u64,
) -> Result<Cells, AllocError>
    ensures first { IfOk result (λ cells. cells ≡ take most (on_air_cells v.now.serial (lines_for v.now.bsc v.now.warning (lines_at slots.entry lines.now)))) }
    ensures some { OnErr result (1 ≤ length (take most (on_air_cells v.now.serial (lines_for v.now.bsc v.now.warning (lines_at slots.entry lines.now))))) }
    ensures meter { meter.new ≤ meter.old + length (lines_for v.now.bsc v.now.warning (lines_at slots.entry lines.now)) }
    ensures least { meter.old ≤ meter.new }
    ensures counted { IfOk result (λ cells. meter.new ≡ counted_all (length (until_found v.now.serial most (lines_for v.now.bsc v.now.warning (lines_at slots.entry lines.now)))) meter.old) }
{
    // A lemma: the meter fits 64 bits.
    let _before = *meter;
    let mut cells = Vec::new(alloc);
    for slot in slots {
        if cells.len() >= most || !slot.is_for(v.bsc, v.warning) {
            return Ok(Cells::from_vec(cells));
        }
        *meter = meter.saturating_add(1);
        if !is_on_air_in(&lines.line_of(slot), v.serial) {
            continue;
        }
        cells.push(slot.cell())?;
    }
    Ok(Cells::from_vec(cells))
}
