//! Cells at base station controllers, found from what a centre keeps.

ghost use Rattle.std.specs.Prelude.{◌≡◌, ◌&&◌, ◌∷◌, ◌++◌, true, map, nat_eq, IfOk, OnOk};
ghost use Rattle.std.specs.List.{list_any, flat_map};
ghost use Rattle.areas.specs.Areas.{covers};
ghost use Rattle.cell_register.specs.Register.{place_in};
ghost use Rattle.common.specs.Order.{each_once};
ghost use Rattle.centre_past.specs.Reach.{spot, at_bsc};
ghost use Rattle.coverage_plan.specs.Reach.{is_named_by};
ghost use Rattle.centre_past.specs.Reaching.{AreSpots, is_placed, is_known_among, is_known_at};

use areas::{Areas, Selector};
use cell_register::{BscId, Register};
use common::{Cell, Name};
use coverage_plan::covered_cells;
use kept_tables::Spot;
use mirror::LineTable;
use std::alloc::{AllocError, Global};

/// The cells, each at the BSC.
pub(crate) fn spots_at(alloc: Global, b: BscId, cells: &[Cell]) -> Result<Vec<Spot>, AllocError>
    ensures { IfOk result (λ spots. spots.items ≡ map (spot b) cells.now) }
{
    let mut spots = Vec::with_capacity(alloc, cells.len())?;
    for cell in cells {
        spots.push(Spot {
            bsc: b,
            cell: *cell,
        })?;
    }
    Ok(spots)
}

/// Puts the cells last, each at the BSC.
fn add_spots(spots: &mut Vec<Spot>, b: BscId, cells: &[Cell]) -> Result<(), AllocError>
    ensures { OnOk result (spots.new.items ≡ spots.old.items ++ map (spot b) cells.now) }
{
    for cell in cells {
        spots.push(Spot {
            bsc: b,
            cell: *cell,
        })?;
    }
    Ok(())
}

/// The cells that are known at some BSC, each there.
pub(crate) fn known_anywhere(
    alloc: Global,
    register: &Register,
    tables: &LineTable,
) -> Result<Vec<Spot>, AllocError>
    ensures { IfOk result (λ spots. AreSpots spots.items (is_known_among tables.now register.now register.now.bscs)) }
{
    register.tell_soundness();
    let bscs = register.bscs();
    let mut spots = Vec::new(alloc);
    for bsc in bscs {
        let cells = tables.known_cells(register, *bsc)?;
        add_spots(&mut spots, *bsc, cells.as_slice())?;
    }
    Ok(spots)
}

/// The cells that are known at the BSC.
pub(crate) fn known_at(
    alloc: Global,
    register: &Register,
    tables: &LineTable,
    b: BscId,
) -> Result<Vec<Spot>, AllocError>
    ensures { IfOk result (λ spots. AreSpots spots.items (is_known_at tables.now register.now b)) }
{
    let cells = tables.known_cells(register, b)?;
    let spots = spots_at(alloc, b, cells.as_slice())?;
    Ok(spots)
}

/// The cell at its BSC, if it is registered.
pub(crate) fn placed(alloc: Global, register: &Register, c: Cell) -> Result<Vec<Spot>, AllocError>
    ensures { IfOk result (λ spots. spots.items ≡ at_bsc c (place_in register.now c)) }
{
    let mut spots = Vec::new(alloc);
    if let Some(bsc) = register.bsc_of(c) {
        spots.push(Spot { bsc, cell: c })?;
    }
    Ok(spots)
}

/// The cell at that BSC, and at the one where it is registered, if it is.
pub(crate) fn moved(
    alloc: Global,
    register: &Register,
    c: Cell,
    to: BscId,
) -> Result<Vec<Spot>, AllocError>
    ensures { IfOk result (λ spots. spots.items ≡ spot to c ∷ at_bsc c (place_in register.now c)) }
{
    let mut spots = Vec::new(alloc);
    spots.push(Spot { bsc: to, cell: c })?;
    if let Some(bsc) = register.bsc_of(c) {
        spots.push(Spot { bsc, cell: c })?;
    }
    Ok(spots)
}

/// Each of the cells at its BSC, if it is registered.
fn placed_all(alloc: Global, register: &Register, cells: &[Cell]) -> Result<Vec<Spot>, AllocError>
    ensures { IfOk result (λ spots. spots.items ≡ flat_map (λ c. at_bsc c (place_in register.now c)) cells.now) }
{
    let mut spots = Vec::with_capacity(alloc, cells.len())?;
    let mut near = 0;
    for cell in cells {
        if let Some(bsc) = register.bsc_near(*cell, &mut near) {
            spots.push(Spot { bsc, cell: *cell })?;
        }
    }
    Ok(spots)
}

/// The registered cells that the selector names, each at its BSC.
pub(crate) fn named(
    alloc: Global,
    register: &Register,
    s: Selector,
) -> Result<Vec<Spot>, AllocError>
    ensures { IfOk result (λ spots. AreSpots spots.items (λ p. is_placed register.now p && is_named_by s p.cell)) }
{
    register.tell_soundness();
    let spots = match s {
        Selector::Cell(cell) => placed(alloc, register, cell)?,
        Selector::Lac(lac) => {
            let cells = register.cells_in(lac)?;
            placed_all(alloc, register, cells.as_slice())?
        }
    };
    Ok(spots)
}

/// The registered cells that one of the areas covers, each at its BSC.
pub(crate) fn covered(
    alloc: Global,
    register: &Register,
    areas: &Areas,
    names: &[Name],
) -> Result<Vec<Spot>, AllocError>
    ensures { IfOk result (λ spots. AreSpots spots.items (λ s. is_placed register.now s && list_any (λ a. covers areas.now a s.cell) names.now)) }
{
    let cells = covered_cells(alloc, register, areas, names)?;
    let spots = placed_all(alloc, register, cells.as_slice())?;
    Ok(spots)
}
