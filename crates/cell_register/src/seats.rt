//! Registered cells, by BSC.

ghost use Rattle.std.specs.Prelude.{◌≡◌, true, [], nat_eq, IfOk, OnOk, OnErr};
ghost use Rattle.std.specs.List.{list_any};
ghost use Rattle.common.specs.Cell.{cell_eq, cell_lt};
ghost use Rattle.common.specs.Order.{is_ascending};
ghost use Rattle.common.specs.declared.cell.Cell.{Cell};
ghost use Rattle.cell_register.specs.Places.{has_seat, least, seat, IsWithSeat, IsWithoutSeat};

use crate::bsc_id::BscId;
use crate::seat::Seat;
use common::{Cell, Cells};
use std::alloc::{AllocError, Global};
use std::collections::BTreeSet;
use std::marker::Model;

/// The registered cells by BSC. Contracts say only which cells are at which BSC.
#[derive(Drop)]
pub(crate) struct Seats {
    seats: BTreeSet<Seat>,
}

impl Model for Seats {
    ghost use Rattle.std.specs.Prelude.{List};
    ghost use Rattle.cell_register.specs.declared.seat.Seat.{Seat};

    ghost Value = { List Seat };

    ghost view = { λ s. s.seats.keys };
}

/// What comes before each cell of the BSC.
fn least(bsc: u32) -> Seat
    ensures { result ≡ least bsc }
{
    Seat {
        bsc,
        cell: Cell { lac: 0, ci: 0 },
    }
}

fn seat(b: BscId, c: Cell) -> Seat
    ensures { result ≡ seat b c }
{
    Seat {
        bsc: u32::from(b.number()),
        cell: c,
    }
}

impl Seats {
    pub(crate) fn new(alloc: Global) -> Seats
        ensures { result ≡ [] }
    {
        Seats {
            seats: BTreeSet::new(alloc),
        }
    }

    /// Whether the BSC has a cell.
    pub(crate) fn has_cells(&self, b: BscId) -> bool
        ensures { result ≡ list_any (λ s. nat_eq s.bsc b) self.now }
    {
        let bsc = u32::from(b.number());
        self.seats
            .range(least(bsc)..least(bsc + 1))
            .next()
            .is_some()
    }

    /// The cells of the BSC, in ascending order.
    pub(crate) fn cells_of(&self, alloc: Global, b: BscId) -> Result<Cells, AllocError>
        ensures found { IfOk result (λ found. (c : Cell) → list_any (λ d. cell_eq d c) found ≡ has_seat self.now b c) }
        ensures ordered { IfOk result (λ found. is_ascending cell_lt found ≡ true) }
    {
        let mut found = Vec::new(alloc);
        let bsc = u32::from(b.number());
        for seat in self.seats.range(least(bsc)..least(bsc + 1)) {
            found.push(seat.cell)?;
        }
        Ok(Cells::from_vec(found))
    }

    /// Puts the cell at the BSC.
    pub(crate) fn insert(&mut self, b: BscId, c: Cell) -> Result<(), AllocError>
        ensures inserted { OnOk result (IsWithSeat self.old self.new b c) }
        ensures unchanged { OnErr result (self.new ≡ self.old) }
    {
        self.seats.insert(seat(b, c))?;
        Ok(())
    }

    /// Takes the cell from the BSC.
    pub(crate) fn remove(&mut self, b: BscId, c: Cell)
        ensures { IsWithoutSeat self.old self.new b c }
    {
        self.seats.remove(&seat(b, c));
    }
}
