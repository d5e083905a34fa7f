//! The lines of one warning. They stand side by side, by BSC and cell.

ghost use Rattle.std.specs.Prelude.{◌≡◌, ◌&&◌, true, nat_eq, ltb, filter, ℕ, IfOk};
ghost use Rattle.std.specs.List.{list_any};
ghost use Rattle.std.specs.List.Sorted.{IsStrictlySortedBy};
ghost use Rattle.std.specs.Map.{keys_of};
ghost use Rattle.common.specs.Order.{is_ascending};
ghost use Rattle.common.specs.declared.cell.Cell.{Cell};
ghost use Rattle.mirror.specs.Index.{key_before};
ghost use Rattle.mirror.specs.Lines.{lines_at};
ghost use Rattle.mirror.specs.OnAir.{is_after, is_slot_for, lines_for};
ghost use Rattle.mirror.specs.Order.{warning_slot_cmp};
ghost use Rattle.mirror.specs.Table.{is_key, is_slot};

use crate::line_key::LineKey;
use crate::lines::Lines;
use crate::warning_slot::WarningSlot;
use cell_register::BscId;
use common::Cell;
use std::alloc::{AllocError, Global};
use std::collections::btree_set::Range;
use std::ops::Bound;
use warning_book::WarningId;

/// The slots of the lines from the first of the warning at the BSC on, or from the first after the given cell. Those of
/// the warning at the BSC come first, and those of other BSCs and warnings follow.
pub(crate) fn later(
    lines: &Lines,
    b: BscId,
    w: WarningId,
    after: Option<Cell>,
) -> Range<'_, WarningSlot>
    ensures of { lines_for b w (lines_at result lines.now) ≡ filter (λ e. is_slot_for b w e.0 && is_after after e.0.cell) lines.now }
    ensures ordered { IsStrictlySortedBy warning_slot_cmp (keys_of lines.now) }
{
    let first = match after {
        Some(cell) => Bound::Excluded(WarningSlot::of(LineKey {
            bsc: b,
            cell,
            warning: w,
        })),
        None => Bound::Included(WarningSlot::of(LineKey {
            bsc: b,
            cell: Cell { lac: 0, ci: 0 },
            warning: w,
        })),
    };
    lines.slots().range((first, Bound::Unbounded))
}

/// The slots of the warning's lines, in the order of their BSCs and cells.
pub(crate) fn slots_of(lines: &Lines, w: WarningId) -> Range<'_, WarningSlot>
    ensures of { lines_at result lines.now ≡ filter (λ e. nat_eq w e.0.warning) lines.now }
    ensures ordered { IsStrictlySortedBy warning_slot_cmp (keys_of lines.now) }
{
    lines
        .slots()
        .range(WarningSlot::first_of(w)..WarningSlot::end_of(w))
}

/// The warning's lines, in the order of their BSCs and cells.
pub(crate) fn keys_of(
    alloc: Global,
    lines: &Lines,
    w: WarningId,
) -> Result<Vec<LineKey>, AllocError>
    ensures which { IfOk result (λ keys. (b : ℕ) (c : Cell) (v : ℕ) → list_any (λ k. is_key k b c v) keys.items ≡ (nat_eq w v && (ltb 0 b && list_any (λ e. is_slot b c v e.0) lines.now))) }
    ensures order { IfOk result (λ keys. is_ascending key_before keys.items ≡ true) }
{
    let order = lines.slots();
    let mut found = Vec::new(alloc);
    for slot in order.range(WarningSlot::first_of(w)..WarningSlot::end_of(w)) {
        let Some(bsc) = BscId::new(slot.bsc()) else {
            continue;
        };
        found.push(LineKey {
            bsc,
            cell: slot.cell(),
            warning: w,
        })?;
    }
    Ok(found)
}
