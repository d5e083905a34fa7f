//! The registered cells, each with its BSC.

ghost use Rattle.std.specs.Prelude.{◌≡◌, true, false, [], ◌++◌, ◌∷◌, length, filter, map, nat_eq, not, if◌then◌else◌, IfOk, OnOk, OnErr};
ghost use Rattle.std.specs.List.{list_any};
ghost use Rattle.std.specs.Option.{is_some};
ghost use Rattle.common.specs.Cell.{cell_eq};
ghost use Rattle.common.specs.Order.{inserted, is_ascending};
ghost use Rattle.cell_register.specs.Places.{IsIndex, IsIndexWith, IsIndexWithout, IsIndexAfterMove};
ghost use Rattle.cell_register.specs.Register.{cell_of, new_placed, place_among, placed_after_move, placed_lt};

use crate::bsc_id::BscId;
use crate::by_cell;
use crate::placed::Placed;
use crate::seats::Seats;
use common::{Cell, Cells};
use std::alloc::{AllocError, Global};
use std::marker::Model;

/// The registered cells in ascending order, each with its BSC.
#[derive(Drop)]
pub(crate) struct Places {
    places: Vec<Placed>,
    /// The same cells by BSC, as an index. `None` after a `set` for which it was refused memory; the next `insert` or
    /// `set` makes it anew.
    seats: Option<Seats>,
}

impl Model for Places {
    ghost use Rattle.std.specs.Prelude.{List};
    ghost use Rattle.cell_register.specs.Places.{ArePlaces};
    ghost use Rattle.cell_register.specs.declared.placed.Placed.{Placed};

    ghost Value = { List Placed };

    ghost view = { λ p. p.places.items };

    ghost invariant = { λ p. ArePlaces p.places.items p.seats };
}

/// Puts the cell at the BSC in the index, where there is an index. An `Err` leaves it as it was.
fn insert_seat(b: BscId, c: Cell, seats: &mut Option<Seats>) -> Result<(), AllocError>
    ensures inserted { OnOk result (IsIndexWith seats.old seats.new c b) }
    ensures unchanged { OnErr result (seats.new ≡ seats.old) }
{
    match seats {
        Some(seats) => seats.insert(b, c),
        None => Ok(()),
    }
}

/// Takes the cell from its BSC in the index, where there is an index.
fn remove_seat(b: BscId, c: Cell, seats: &mut Option<Seats>)
    ensures { IsIndexWithout seats.old seats.new c b }
{
    if let Some(seats) = seats {
        seats.remove(b, c);
    }
}

/// Puts the cell at another BSC in the index, where there is an index. Where memory for that is refused, there is none
/// afterwards.
fn move_seat(old: BscId, b: BscId, c: Cell, seats: &mut Option<Seats>)
    ensures { IsIndexAfterMove seats.old seats.new c old b }
{
    if let Some(mut moved) = seats.take() {
        moved.remove(old, c);
        if moved.insert(b, c).is_ok() {
            *seats = Some(moved);
        }
    }
}

/// The index of the cells.
fn index_of(alloc: Global, places: &[Placed]) -> Result<Seats, AllocError>
    requires { is_ascending placed_lt places.now ≡ true }
    ensures { IfOk result (λ seats. IsIndex seats (place_among places.now)) }
{
    let mut seats = Seats::new(alloc);
    for place in places {
        seats.insert(place.bsc, place.cell)?;
    }
    Ok(seats)
}

/// Puts the cell behind the others, if it is to be.
fn push_if(is_wanted: bool, c: Cell, out: &mut Vec<Cell>) -> Result<(), AllocError>
    ensures { OnOk result (out.new.items ≡ (if is_wanted then out.old.items ++ c ∷ [] else out.old.items)) }
{
    if is_wanted {
        out.push(c)?;
    }
    Ok(())
}

/// The cells of the BSC, found by a look at every cell.
fn cells_without_index(alloc: Global, b: BscId, places: &[Placed]) -> Result<Cells, AllocError>
    ensures { IfOk result (λ found. found ≡ map cell_of (filter (λ p. nat_eq p.bsc b) places.now)) }
{
    let mut found = Vec::new(alloc);
    for place in places {
        push_if(place.bsc == b, place.cell, &mut found)?;
    }
    Ok(Cells::from_vec(found))
}

/// Whether a cell is registered at the BSC, found by a look at every cell.
fn has_cells_without_index(b: BscId, places: &[Placed]) -> bool
    ensures { result ≡ list_any (λ p. nat_eq p.bsc b) places.now }
{
    places.iter().any(|place| place.bsc == b)
}

/// The cells without their BSCs.
fn cells_alone(alloc: Global, places: &[Placed]) -> Result<Cells, AllocError>
    ensures { IfOk result (λ found. found ≡ map cell_of places.now) }
{
    let mut found = Vec::with_capacity(alloc, places.len())?;
    for place in places {
        found.push(place.cell)?;
    }
    Ok(Cells::from_vec(found))
}

impl Places {
    /// The same, in memory of its own.
    pub(crate) fn copied(&self) -> Result<Places, AllocError>
        ensures { IfOk result (λ copy. copy ≡ self.now) }
    {
        Ok(Places {
            places: self.places.clone()?,
            seats: None,
        })
    }

    pub(crate) fn new(alloc: Global) -> Places
        ensures { result ≡ [] }
    {
        Places {
            places: Vec::new(alloc),
            seats: Some(Seats::new(alloc)),
        }
    }

    pub(crate) fn len(&self) -> usize
        ensures { result ≡ length self.now }
    {
        self.places.len()
    }

    /// The BSC at which the cell is registered.
    pub(crate) fn bsc_of(&self, c: Cell) -> Option<BscId>
        ensures { result ≡ place_among self.now c }
    {
        by_cell::bsc_of(c, self.places.as_slice())
    }

    /// The same as `bsc_of`. The cell is looked for first at the given place and at the next one, and where it is found,
    /// that is the place from then on.
    #[inline(always)]
    pub(crate) fn bsc_near(&self, c: Cell, near: &mut usize) -> Option<BscId>
        ensures { result ≡ place_among self.now c }
    {
        by_cell::bsc_near(c, self.places.as_slice(), near)
    }

    /// Whether a cell is registered at the BSC.
    pub(crate) fn has_cells(&self, b: BscId) -> bool
        ensures { result ≡ list_any (λ p. nat_eq p.bsc b) self.now }
    {
        match &self.seats {
            Some(seats) => seats.has_cells(b),
            None => has_cells_without_index(b, self.places.as_slice()),
        }
    }

    /// The cells that are registered at the BSC.
    pub(crate) fn cells_of(&self, alloc: Global, b: BscId) -> Result<Cells, AllocError>
        ensures { IfOk result (λ found. found ≡ map cell_of (filter (λ p. nat_eq p.bsc b) self.now)) }
    {
        match &self.seats {
            Some(seats) => {
                let found = seats.cells_of(alloc, b)?;
                Ok(found)
            }
            None => {
                let found = cells_without_index(alloc, b, self.places.as_slice())?;
                Ok(found)
            }
        }
    }

    /// The registered cells of the location area.
    pub(crate) fn cells_in(&self, alloc: Global, lac: u16) -> Result<Cells, AllocError>
        ensures { IfOk result (λ found. found ≡ map cell_of (filter (λ p. nat_eq p.cell.lac lac) self.now)) }
    {
        let area = by_cell::in_area(lac, self.places.as_slice());
        let found = cells_alone(alloc, area)?;
        Ok(found)
    }

    /// All registered cells.
    pub(crate) fn all_cells(&self, alloc: Global) -> Result<Cells, AllocError>
        ensures { IfOk result (λ found. found ≡ map cell_of self.now) }
    {
        let found = cells_alone(alloc, self.places.as_slice())?;
        Ok(found)
    }

    /// Makes the index anew where there is none, unless memory for it is refused.
    fn restore_index(&mut self, alloc: Global)
        ensures { self.new ≡ self.old }
    {
        if self.seats.is_none() {
            self.seats = index_of(alloc, self.places.as_slice()).ok();
        }
    }

    /// Registers a cell that is at no BSC. An `Err` leaves all as it was.
    pub(crate) fn insert(&mut self, alloc: Global, c: Cell, b: BscId) -> Result<(), AllocError>
        requires { is_some (place_among self.old c) ≡ false }
        ensures inserted { OnOk result (self.new ≡ inserted placed_lt (new_placed c b) self.old) }
        ensures unchanged { OnErr result (self.new ≡ self.old) }
    {
        self.restore_index(alloc);
        insert_seat(b, c, &mut self.seats)?;
        match by_cell::insert(c, b, &mut self.places) {
            Ok(()) => Ok(()),
            Err(_) => {
                remove_seat(b, c, &mut self.seats);
                Err(AllocError)
            }
        }
    }

    /// Registers a registered cell at another BSC. Where the index is refused memory for that, it is given up.
    pub(crate) fn set(&mut self, alloc: Global, c: Cell, b: BscId)
        ensures { self.new ≡ map (placed_after_move c b) self.old }
    {
        self.restore_index(alloc);
        let Some(old) = by_cell::set_bsc(c, b, &mut self.places) else {
            return;
        };
        move_seat(old, b, c, &mut self.seats);
    }

    /// Takes the cell out, wherever it is.
    pub(crate) fn remove(&mut self, c: Cell)
        ensures { self.new ≡ filter (λ p. not (cell_eq p.cell c)) self.old }
    {
        if let Some(b) = by_cell::remove(c, &mut self.places) {
            remove_seat(b, c, &mut self.seats);
        }
    }
}
