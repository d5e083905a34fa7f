//! The cells on which an edit bears.

ghost use Rattle.std.specs.Prelude.{◌≡◌, ◌++◌, ◌∷◌, [], not, IfOk, OnOk, if◌then◌else◌};
ghost use Rattle.areas.specs.Areas.{has_selector};
ghost use Rattle.areas.specs.declared.selector.Selector.TheVariants as selector;
ghost use Rattle.coverage_plan.specs.Reach.{AreCells, is_only_by};

use areas::{Areas, Selector};
use cell_register::Register;
use common::{Cell, Cells, Name};
use std::alloc::{AllocError, Global};

/// Puts the cell behind the others, if it is to be.
fn push_if(is_wanted: bool, c: Cell, out: &mut Vec<Cell>) -> Result<(), AllocError>
    ensures { OnOk result (out.new.items ≡ out.old.items ++ (if is_wanted then c ∷ [] else [])) }
{
    if is_wanted {
        out.push(c)?;
    }
    Ok(())
}

/// The cell, if it is registered and the area does not select its location area.
fn only_cell(
    alloc: Global,
    register: &Register,
    areas: &Areas,
    a: &Name,
    c: Cell,
) -> Result<Cells, AllocError>
    ensures { IfOk result (AreCells (is_only_by register.now areas.now a.now (selector.Cell c))) }
{
    let mut found = Vec::new(alloc);
    let is_only = register.bsc_of(c).is_some() && !areas.has_selector(a, Selector::Lac(c.lac));
    push_if(is_only, c, &mut found)?;
    Ok(Cells::from_vec(found))
}

/// The registered cells of the location area that the area does not select one by one.
fn only_cells_in(
    alloc: Global,
    register: &Register,
    areas: &Areas,
    a: &Name,
    lac: u16,
) -> Result<Cells, AllocError>
    ensures { IfOk result (AreCells (is_only_by register.now areas.now a.now (selector.Lac lac))) }
{
    register.tell_soundness();
    let all = register.cells_in(lac)?;
    let cells = all.as_slice();
    let mut found = Vec::new(alloc);
    for cell in cells {
        push_if(
            !areas.has_selector(a, Selector::Cell(*cell)),
            *cell,
            &mut found,
        )?;
    }
    Ok(Cells::from_vec(found))
}

/// The registered cells that the selector names and no other selector of the area does, in ascending order: just these
/// the area covers with the selector and does not cover without it.
pub(crate) fn cells_only_by(
    alloc: Global,
    register: &Register,
    areas: &Areas,
    a: &Name,
    s: Selector,
) -> Result<Cells, AllocError>
    ensures { IfOk result (AreCells (is_only_by register.now areas.now a.now s)) }
{
    let cells = match s {
        Selector::Cell(c) => only_cell(alloc, register, areas, a, c)?,
        Selector::Lac(lac) => only_cells_in(alloc, register, areas, a, lac)?,
    };
    Ok(cells)
}
