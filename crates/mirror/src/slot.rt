//! Where a line stands among those of its BSC and cell.

ghost use Rattle.std.specs.Prelude.{◌≡◌, ◌<◌};
ghost use Rattle.mirror.specs.Order.{slot_of, least_slot};
ghost use Rattle.mirror.specs.Table.{is_slot_in};

use crate::line_key::LineKey;
use crate::place::Place;
use cell_register::BscId;
use common::Cell;
use std::alloc::AllocError;
use std::cmp::Ordering;
use std::marker::Model;

/// The BSC, the cell and the warning of a line, in this order. The lines of each BSC end before those of a number one
/// greater.
#[derive(Drop)]
pub(crate) struct Slot {
    place: Place,
    warning: u32,
}

impl Model for Slot {
    ghost use Rattle.mirror.specs.Order.{Slot, slot_of};

    ghost Value = { Slot };

    ghost view = { λ s. slot_of s.place.bsc s.place.cell s.warning };
}

impl Clone for Slot {
    ghost use Rattle.std.specs.Prelude.{◌≡◌};

    ghost is_clone = { λ s t. t ≡ s };

    fn clone(&self) -> Result<Slot, AllocError> {
        Ok(Slot {
            place: self.place.clone()?,
            warning: self.warning,
        })
    }
}

impl Slot {
    pub(crate) fn of(key: LineKey) -> Slot
        ensures slot { result ≡ slot_of key.bsc key.cell key.warning }
        ensures numbered { 0 < key.bsc }
    {
        Slot {
            place: Place::of(key.bsc, key.cell),
            warning: key.warning.number(),
        }
    }

    /// The slot at or after which all those of the BSC stand.
    pub(crate) fn least(bsc: u32) -> Slot
        ensures { result ≡ least_slot bsc }
    {
        Slot {
            place: Place::least(bsc),
            warning: 0,
        }
    }

    /// The slot at or after which all those of the BSC and the cell stand.
    pub(crate) fn first_of(b: BscId, c: Cell) -> Slot
        ensures { result ≡ slot_of b c 0 }
    {
        Slot {
            place: Place::of(b, c),
            warning: 0,
        }
    }

    pub(crate) fn cell(&self) -> Cell
        ensures { result ≡ self.now.cell }
    {
        self.place.cell()
    }

    pub(crate) fn warning(&self) -> u32
        ensures { result ≡ self.now.warning }
    {
        self.warning
    }

    /// Whether it is one of the BSC and the cell, whatever its warning.
    pub(crate) fn is_in(&self, b: BscId, c: Cell) -> bool
        ensures { result ≡ is_slot_in b c self.now }
    {
        u32::from(b.number()) == self.place.bsc() && c == self.place.cell()
    }
}

impl PartialEq for Slot {
    ghost use Rattle.std.specs.Cmp.{partial_equiv_from_equiv, eq_by_cmp_equiv};
    ghost use Rattle.std.specs.Ordering.{eq_by_cmp};
    ghost use Rattle.mirror.specs.Order.{slot_cmp};
    ghost use Rattle.mirror.specs.OrderLaws.{slot_total};

    ghost eq = { eq_by_cmp slot_cmp };

    ghost laws = { partial_equiv_from_equiv (eq_by_cmp_equiv slot_total) };

    fn eq(&self, other: &Slot) -> bool {
        self.cmp(other).is_eq()
    }
}

impl Eq for Slot {
    ghost use Rattle.std.specs.Cmp.{eq_by_cmp_equiv};
    ghost use Rattle.mirror.specs.OrderLaws.{slot_total};

    ghost laws = { eq_by_cmp_equiv slot_total };
}

impl PartialOrd for Slot {
    ghost use Rattle.std.specs.Cmp.{partial_order_from_total};
    ghost use Rattle.std.specs.Ordering.{as_partial_cmp};
    ghost use Rattle.mirror.specs.Order.{slot_cmp};
    ghost use Rattle.mirror.specs.OrderLaws.{slot_total};

    ghost partial_cmp = { as_partial_cmp slot_cmp };

    ghost laws = { partial_order_from_total slot_total };

    fn partial_cmp(&self, other: &Slot) -> Option<Ordering> {
        Some(self.cmp(other))
    }
}

impl Ord for Slot {
    ghost use Rattle.std.proofs.Common.{refl};
    ghost use Rattle.mirror.specs.Order.{slot_cmp};
    ghost use Rattle.mirror.specs.OrderLaws.{slot_total};

    ghost cmp = { slot_cmp };

    ghost total = { slot_total };

    ghost matches_partial_cmp = { λ x y. refl };

    ghost matches_eq = { λ x y. refl };

    /// A search asks at each key whether the slot that it seeks comes after it. So that is tested first, most often by one
    /// comparison.
    fn cmp(&self, other: &Slot) -> Ordering {
        let place = self.place.number();
        let other_place = other.place.number();
        if place > other_place || (place == other_place && self.warning > other.warning) {
            Ordering::Greater
        } else if place == other_place && self.warning == other.warning {
            Ordering::Equal
        } else {
            Ordering::Less
        }
    }
}
