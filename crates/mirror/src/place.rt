//! A cell at a BSC.

ghost use Rattle.std.specs.Prelude.{◌≡◌, ◌<◌};
ghost use Rattle.mirror.specs.Order.{place_in, place_of, least_place};

use cell_register::BscId;
use common::Cell;
use std::alloc::AllocError;
use std::cmp::Ordering;
use std::marker::Model;

/// One more location area in a place's number.
const AREA: u64 = 1 << 16;

/// One more BSC in a place's number.
const NEXT_BSC: u64 = 1 << 32;

/// A BSC and a cell, in this order. They stand in one number, the BSC highest, so that two places are compared at once.
/// The BSC's part is wider than its number, so that the cells of each BSC end before those of a number one greater.
#[derive(Drop)]
pub(crate) struct Place {
    number: u64,
}

impl Model for Place {
    ghost use Rattle.mirror.specs.Order.{Place, place_in};

    ghost Value = { Place };

    ghost view = { λ p. place_in p.number };
}

impl Clone for Place {
    ghost use Rattle.std.specs.Prelude.{◌≡◌};

    ghost is_clone = { λ s t. t ≡ s };

    fn clone(&self) -> Result<Place, AllocError> {
        Ok(Place {
            number: self.number,
        })
    }
}

impl Place {
    pub(crate) fn of(b: BscId, c: Cell) -> Place
        ensures place { result ≡ place_of b c }
        ensures numbered { 0 < b }
    {
        let bsc = u64::from(b.number()) * NEXT_BSC;
        let area = u64::from(c.lac) * AREA;
        Place {
            number: bsc + area + u64::from(c.ci),
        }
    }

    /// The place at or after which all those of the BSC stand.
    pub(crate) fn least(bsc: u32) -> Place
        ensures { result ≡ least_place bsc }
    {
        Place {
            number: u64::from(bsc) * NEXT_BSC,
        }
    }

    /// The number in which the place stands.
    pub(crate) fn number(&self) -> u64
        ensures { self.now ≡ place_in result }
    {
        self.number
    }

    pub(crate) fn bsc(&self) -> u32
        ensures { result ≡ self.now.bsc }
    {
        (self.number / NEXT_BSC) as u32
    }

    pub(crate) fn cell(&self) -> Cell
        ensures { result ≡ self.now.cell }
    {
        Cell {
            lac: (self.number % NEXT_BSC / AREA) as u16,
            ci: (self.number % AREA) as u16,
        }
    }
}

impl PartialEq for Place {
    ghost use Rattle.std.specs.Cmp.{partial_equiv_from_equiv, eq_by_cmp_equiv};
    ghost use Rattle.std.specs.Ordering.{eq_by_cmp};
    ghost use Rattle.mirror.specs.Order.{place_cmp};
    ghost use Rattle.mirror.specs.OrderLaws.{place_total};

    ghost eq = { eq_by_cmp place_cmp };

    ghost laws = { partial_equiv_from_equiv (eq_by_cmp_equiv place_total) };

    fn eq(&self, other: &Place) -> bool {
        self.cmp(other).is_eq()
    }
}

impl Eq for Place {
    ghost use Rattle.std.specs.Cmp.{eq_by_cmp_equiv};
    ghost use Rattle.mirror.specs.OrderLaws.{place_total};

    ghost laws = { eq_by_cmp_equiv place_total };
}

impl PartialOrd for Place {
    ghost use Rattle.std.specs.Cmp.{partial_order_from_total};
    ghost use Rattle.std.specs.Ordering.{as_partial_cmp};
    ghost use Rattle.mirror.specs.Order.{place_cmp};
    ghost use Rattle.mirror.specs.OrderLaws.{place_total};

    ghost partial_cmp = { as_partial_cmp place_cmp };

    ghost laws = { partial_order_from_total place_total };

    fn partial_cmp(&self, other: &Place) -> Option<Ordering> {
        Some(self.cmp(other))
    }
}

impl Ord for Place {
    ghost use Rattle.std.proofs.Common.{refl};
    ghost use Rattle.mirror.specs.Order.{place_cmp};
    ghost use Rattle.mirror.specs.OrderLaws.{place_total};

    ghost cmp = { place_cmp };

    ghost total = { place_total };

    ghost matches_partial_cmp = { λ x y. refl };

    ghost matches_eq = { λ x y. refl };

    fn cmp(&self, other: &Place) -> Ordering {
        self.number.cmp(&other.number)
    }
}
