//! Registered cells in ascending order, found by halves.

ghost use Rattle.std.specs.Prelude.{◌≡◌, ◌+◌, ◌*◌, ◌<◌, ◌≤◌, true, false, length, filter, map, nat_eq, not, IfSome, IfNone, OnOk, OnErr};
ghost use Rattle.std.specs.List.{list_any};
ghost use Rattle.common.specs.Cell.{cell_eq, cell_lt};
ghost use Rattle.common.specs.Order.{inserted, is_ascending};
ghost use Rattle.cell_register.specs.Places.{IsStart, StandsAt};
ghost use Rattle.cell_register.specs.Register.{new_placed, place_among, placed_after_move, placed_lt};

use crate::bsc_id::BscId;
use crate::placed::Placed;
use common::Cell;
use std::alloc::AllocError;

/// Whether a registered cell comes before the cell.
fn is_before(place: &Placed, c: Cell) -> bool
    ensures { result ≡ cell_lt place.now.cell c }
{
    place.cell.is_before(&c)
}

/// Where the cell stands, or where it would have to stand.
fn start_of(c: Cell, places: &[Placed]) -> usize
    requires { is_ascending placed_lt places.now ≡ true }
    ensures bound { result ≤ length places.now }
    ensures start { IsStart c places.now result }
{
    places.partition_point(|place| is_before(place, c))
}

/// Where the cell stands, if it is one of them.
fn find(c: Cell, places: &[Placed]) -> Option<usize>
    requires { is_ascending placed_lt places.now ≡ true }
    ensures there { IfSome result (λ n. StandsAt c places.now n) }
    ensures absent { IfNone result (list_any (λ p. cell_eq p.cell c) places.now ≡ false) }
{
    let start = start_of(c, places);
    if start < places.len() && places[start].cell == c {
        Some(start)
    } else {
        None
    }
}

/// Whether the cell stands at that place.
fn is_at(c: Cell, places: &[Placed], index: usize) -> bool
    ensures { result ≡ true → StandsAt c places.now index }
{
    match places.get(index) {
        Some(place) => place.cell == c,
        None => false,
    }
}

/// The same as `find`. The cell is looked for first at the given place and at the next one.
#[inline(always)]
fn find_near(c: Cell, places: &[Placed], near: usize) -> Option<usize>
    requires { is_ascending placed_lt places.now ≡ true }
    ensures there { IfSome result (λ n. StandsAt c places.now n) }
    ensures absent { IfNone result (list_any (λ p. cell_eq p.cell c) places.now ≡ false) }
{
    let next = near.saturating_add(1);
    if is_at(c, places, next) {
        return Some(next);
    }
    if is_at(c, places, near) {
        return Some(near);
    }
    find(c, places)
}

/// The BSC at which the cell is registered.
pub(crate) fn bsc_of(c: Cell, places: &[Placed]) -> Option<BscId>
    requires { is_ascending placed_lt places.now ≡ true }
    ensures { result ≡ place_among places.now c }
{
    let index = find(c, places)?;
    Some(places[index].bsc)
}

/// The same as `bsc_of`. The cell is looked for first at the given place and at the next one, and where it is found, that
/// is the place from then on.
#[inline(always)]
pub(crate) fn bsc_near(c: Cell, places: &[Placed], near: &mut usize) -> Option<BscId>
    requires { is_ascending placed_lt places.now ≡ true }
    ensures { result ≡ place_among places.now c }
{
    let index = find_near(c, places, *near)?;
    *near = index;
    Some(places[index].bsc)
}

/// The registered cells of the location area.
pub(crate) fn in_area(lac: u16, places: &[Placed]) -> &[Placed]
    requires { is_ascending placed_lt places.now ≡ true }
    ensures { result.now ≡ filter (λ p. nat_eq p.cell.lac lac) places.now }
{
    let start = places.partition_point(|place| place.cell.lac < lac);
    let end = places.partition_point(|place| place.cell.lac <= lac);
    &places[start..end]
}

/// Puts the cell and its BSC in their place. It does not ask whether the cell is there already. An `Err` leaves all as it
/// was.
pub(crate) fn insert(c: Cell, b: BscId, places: &mut Vec<Placed>) -> Result<(), AllocError>
    requires { is_ascending placed_lt places.old.items ≡ true }
    ensures inserted { OnOk result (places.new.items ≡ inserted placed_lt (new_placed c b) places.old.items) }
    ensures unchanged { OnErr result (places.new.items ≡ places.old.items) }
{
    let start = start_of(c, places.as_slice());
    places.insert(start, Placed { cell: c, bsc: b })?;
    Ok(())
}

/// Registers the cell at another BSC, and returns the one where it was. Changes nothing where it was at none.
pub(crate) fn set_bsc(c: Cell, b: BscId, places: &mut Vec<Placed>) -> Option<BscId>
    requires { is_ascending placed_lt places.old.items ≡ true }
    ensures old { result ≡ place_among places.old.items c }
    ensures set { places.new.items ≡ map (placed_after_move c b) places.old.items }
{
    let index = find(c, places.as_slice())?;
    let place = &mut places[index];
    let old = place.bsc;
    place.bsc = b;
    Some(old)
}

/// Takes the cell out, and returns the BSC where it was. Changes nothing where it was at none.
pub(crate) fn remove(c: Cell, places: &mut Vec<Placed>) -> Option<BscId>
    requires { is_ascending placed_lt places.old.items ≡ true }
    ensures old { result ≡ place_among places.old.items c }
    ensures removed { places.new.items ≡ filter (λ p. not (cell_eq p.cell c)) places.old.items }
{
    let index = find(c, places.as_slice())?;
    let place = places.remove(index);
    Some(place.bsc)
}
