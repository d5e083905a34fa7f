//! The list of areas, and that of the selectors of one.

ghost use Rattle.std.specs.Prelude.{◌≡◌, IfOk, map};
ghost use Rattle.centre_events.specs.Kept.{AreAreasOf};
ghost use Rattle.centre_events.specs.Past.{Past};
ghost use Rattle.centre_past.specs.Lists.{area_rows, area_selectors, kept_row};

use areas::{Area, Areas, Selectors};
use centre_past::lists::{AreaRow, AreaRows};
use common::Name;
use std::alloc::{AllocError, Global};

/// The row of an area.
fn area_row(alloc: Global, area: &Area) -> Result<AreaRow, AllocError>
    ensures { IfOk result (λ row. row ≡ kept_row area.now) }
{
    Ok(AreaRow {
        name: area.name.copied(alloc)?,
        selectors: area.selectors.as_slice().len(),
    })
}

/// The rows of the areas.
fn rows_of(alloc: Global, areas: &[Area]) -> Result<Vec<AreaRow>, AllocError>
    ensures { IfOk result (λ rows. rows.items ≡ map kept_row areas.now) }
{
    let mut rows = Vec::with_capacity(alloc, areas.len())?;
    for area in areas {
        rows.push(area_row(alloc, area)?)?;
    }
    Ok(rows)
}

/// The areas, in the order of the octets of their names: of each how many selectors it has.
pub fn areas(alloc: Global, areas: &Areas) -> Result<AreaRows, AllocError>
    ensures { (past : Past) → AreAreasOf past areas.now → IfOk result (λ rows. rows ≡ area_rows past) }
{
    areas.tell_soundness();
    let rows = rows_of(alloc, areas.as_slice())?;
    Ok(AreaRows::from_vec(rows))
}

/// The selectors of the area, in their order: by location area, the whole of it before the cells in it.
pub fn selectors(alloc: Global, areas: &Areas, a: &Name) -> Result<Selectors, AllocError>
    ensures { (past : Past) → AreAreasOf past areas.now → IfOk result (λ all. all ≡ area_selectors past a.now) }
{
    areas.tell_soundness();
    let selectors = Vec::from_slice(alloc, areas.selectors_of(a))?;
    Ok(Selectors::from_vec(selectors))
}
