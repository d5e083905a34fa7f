//! Whether one cell is known at a BSC, and of which warnings a line is kept in it.

ghost use Rattle.std.specs.Prelude.{◌≡◌, ◌||◌, ◌++◌, not, OnOk};
ghost use Rattle.std.specs.BTreeMap.{IsOrdered};
ghost use Rattle.std.specs.List.{list_any};
ghost use Rattle.cell_register.specs.Register.{place_in, is_place};
ghost use Rattle.mirror.specs.Index.{kept_warnings};
ghost use Rattle.mirror.specs.Order.{slot_cmp};
ghost use Rattle.mirror.specs.Table.{is_slot_in};

use crate::slot::Slot;
use cell_register::{BscId, Register};
use common::Cell;
use std::alloc::AllocError;
use std::collections::BTreeMap;
use std::ops::Bound;
use warning_book::WarningId;

/// Whether the cell is registered at the BSC.
pub(crate) fn is_registered(register: &Register, b: BscId, c: Cell) -> bool
    ensures { result ≡ is_place (place_in register.now c) b }
{
    match register.bsc_of(c) {
        Some(bsc) => bsc == b,
        None => false,
    }
}

/// Whether one of the slots is of the BSC and the cell: the first from where theirs begin is one of theirs.
pub(crate) fn has_line(slots: &BTreeMap<Slot, bool>, b: BscId, c: Cell) -> bool
    ensures { result ≡ list_any (λ e. is_slot_in b c e.0) slots.now.entries }
{
    let mut later = slots.range((Bound::Included(Slot::first_of(b, c)), Bound::Unbounded));
    match later.next() {
        Some((slot, _)) => slot.is_in(b, c),
        None => false,
    }
}

/// Appends the numbers of the warnings of those slots that are of the BSC and the cell, in ascending order, or only of those
/// whose line is held. The slots of the cell stand side by side; no slot of another cell but the next is looked at.
pub(crate) fn add_warnings(
    slots: &BTreeMap<Slot, bool>,
    b: BscId,
    c: Cell,
    only_held: bool,
    warnings: &mut Vec<WarningId>,
) -> Result<(), AllocError>
    ensures warnings { OnOk result (warnings.new.items ≡ warnings.old.items ++ kept_warnings b c (λ h. not only_held || h) slots.now.entries) }
    ensures ordered { IsOrdered slot_cmp slots.now }
{
    let later = slots.range((Bound::Included(Slot::first_of(b, c)), Bound::Unbounded));
    for (slot, is_held) in later {
        if !slot.is_in(b, c) {
            return Ok(());
        }
        if only_held && !*is_held {
            continue;
        }
        warnings.push(WarningId::new(slot.warning()))?;
    }
    Ok(())
}
