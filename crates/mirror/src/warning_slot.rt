//! Where a line stands among all lines.

ghost use Rattle.std.specs.Prelude.{◌≡◌, ◌<◌, ◌+◌};
ghost use Rattle.mirror.specs.OnAir.{is_slot_for};
ghost use Rattle.mirror.specs.Order.{first_of, slot_in, slot_of};

use crate::line_key::LineKey;
use cell_register::BscId;
use common::Cell;
use std::alloc::AllocError;
use std::cmp::Ordering;
use std::hash::{Hash, Hasher};
use std::marker::Model;
use warning_book::WarningId;

/// One more location area in the number of a cell.
const AREA: u32 = 1 << 16;

/// One more warning in the number of a warning and a BSC.
const NEXT_WARNING: u64 = 1 << 16;

/// The warning, the BSC and the cell of a line, in this order. The warning and the BSC stand in one number and the cell in
/// another, so that two slots are compared at once. The warning's part is wider than its number, so that the lines of
/// each warning end before those of a number one greater.
#[derive(Drop)]
pub(crate) struct WarningSlot {
    front: u64,
    cell: u32,
}

impl Model for WarningSlot {
    ghost use Rattle.mirror.specs.Order.{Slot, slot_in};

    ghost Value = { Slot };

    ghost view = { λ s. slot_in s.front s.cell };
}

impl Clone for WarningSlot {
    ghost use Rattle.std.specs.Prelude.{◌≡◌};

    ghost is_clone = { λ s t. t ≡ s };

    fn clone(&self) -> Result<WarningSlot, AllocError> {
        Ok(WarningSlot {
            front: self.front,
            cell: self.cell,
        })
    }
}

impl WarningSlot {
    pub(crate) fn of(key: LineKey) -> WarningSlot
        ensures { result ≡ slot_of key.bsc key.cell key.warning }
    {
        let warning = u64::from(key.warning.number()) * NEXT_WARNING;
        let area = u32::from(key.cell.lac) * AREA;
        WarningSlot {
            front: warning + u64::from(key.bsc.number()),
            cell: area + u32::from(key.cell.ci),
        }
    }

    /// The slot at or after which all those of the warning stand.
    pub(crate) fn first_of(w: WarningId) -> WarningSlot
        ensures { result ≡ first_of w }
    {
        WarningSlot {
            front: u64::from(w.number()) * NEXT_WARNING,
            cell: 0,
        }
    }

    /// The slot before which all those of the warning stand.
    pub(crate) fn end_of(w: WarningId) -> WarningSlot
        ensures { result ≡ first_of (w + 1) }
    {
        WarningSlot {
            front: (u64::from(w.number()) + 1) * NEXT_WARNING,
            cell: 0,
        }
    }

    pub(crate) fn bsc(&self) -> u16
        ensures { result ≡ self.now.bsc }
    {
        (self.front % NEXT_WARNING) as u16
    }

    pub(crate) fn cell(&self) -> Cell
        ensures { result ≡ self.now.cell }
    {
        Cell {
            lac: (self.cell / AREA) as u16,
            ci: (self.cell % AREA) as u16,
        }
    }

    /// Whether it is one of the BSC and the warning.
    pub(crate) fn is_for(&self, b: BscId, w: WarningId) -> bool
        ensures { result ≡ is_slot_for b w self.now }
    {
        self.front == u64::from(w.number()) * NEXT_WARNING + u64::from(b.number())
    }
}

impl PartialEq for WarningSlot {
    ghost use Rattle.std.specs.Cmp.{partial_equiv_from_equiv, eq_by_cmp_equiv};
    ghost use Rattle.std.specs.Ordering.{eq_by_cmp};
    ghost use Rattle.mirror.specs.Order.{warning_slot_cmp};
    ghost use Rattle.mirror.specs.OrderLaws.{warning_slot_total};

    ghost eq = { eq_by_cmp warning_slot_cmp };

    ghost laws = { partial_equiv_from_equiv (eq_by_cmp_equiv warning_slot_total) };

    fn eq(&self, other: &WarningSlot) -> bool {
        self.front == other.front && self.cell == other.cell
    }
}

impl Eq for WarningSlot {
    ghost use Rattle.std.specs.Cmp.{eq_by_cmp_equiv};
    ghost use Rattle.mirror.specs.OrderLaws.{warning_slot_total};

    ghost laws = { eq_by_cmp_equiv warning_slot_total };
}

impl Hash for WarningSlot {
    ghost use Rattle.std.specs.Prelude.{◌++◌};
    ghost use Rattle.std.specs.Hash as fed;
    ghost use Rattle.mirror.specs.Order.{cell_number, front_of};
    ghost use Rattle.mirror.specs.OrderLaws.{same_hash_input};

    ghost hash_input = { λ s. fed.u64 (front_of s) ++ fed.u32 (cell_number s) };

    ghost respects_eq = { same_hash_input };

    fn hash<H: Hasher>(&self, state: &mut H) {
        state.write_u64(self.front);
        state.write_u32(self.cell);
    }
}

impl PartialOrd for WarningSlot {
    ghost use Rattle.std.specs.Cmp.{partial_order_from_total};
    ghost use Rattle.std.specs.Ordering.{as_partial_cmp};
    ghost use Rattle.mirror.specs.Order.{warning_slot_cmp};
    ghost use Rattle.mirror.specs.OrderLaws.{warning_slot_total};

    ghost partial_cmp = { as_partial_cmp warning_slot_cmp };

    ghost laws = { partial_order_from_total warning_slot_total };

    fn partial_cmp(&self, other: &WarningSlot) -> Option<Ordering> {
        Some(self.cmp(other))
    }
}

impl Ord for WarningSlot {
    ghost use Rattle.std.proofs.Common.{refl};
    ghost use Rattle.mirror.specs.Order.{warning_slot_cmp};
    ghost use Rattle.mirror.specs.OrderLaws.{warning_slot_total};

    ghost cmp = { warning_slot_cmp };

    ghost total = { warning_slot_total };

    ghost matches_partial_cmp = { λ x y. refl };

    ghost matches_eq = { λ x y. refl };

    /// A search asks at each key whether the slot that it seeks comes after it. So that is tested first, most often by one
    /// comparison.
    fn cmp(&self, other: &WarningSlot) -> Ordering {
        if self.front > other.front || (self.front == other.front && self.cell > other.cell) {
            Ordering::Greater
        } else if self.front == other.front && self.cell == other.cell {
            Ordering::Equal
        } else {
            Ordering::Less
        }
    }
}
