//! The pairs of a cell and a warning on which an edit bears.

ghost use Rattle.std.specs.Prelude.{◌≡◌, ◌++◌, IfOk, OnOk};
ghost use Rattle.coverage_plan.specs.Changes.{ArePairs};
ghost use Rattle.coverage_plan.specs.Reach.{pairs_with, pairs_of, is_of_cell, is_of_selector, is_of_areas};

use crate::gathering::covered_cells;
use crate::pairs::Pairs;
use crate::reach::cells_only_by;
use areas::{Areas, Selector};
use cell_register::Register;
use common::{Cell, Name};
use std::alloc::{AllocError, Global};
use warning_book::{Book, WarningId};

/// Puts the cell last with each of the warnings.
fn put_pairs(
    c: Cell,
    numbers: &[WarningId],
    out: &mut Vec<(Cell, WarningId)>,
) -> Result<(), AllocError>
    ensures { OnOk result (out.new.items ≡ out.old.items ++ pairs_with numbers.now c) }
{
    for number in numbers {
        out.push((c, *number))?;
    }
    Ok(())
}

/// Each of the cells with each of the warnings.
fn pairs_of(alloc: Global, cells: &[Cell], numbers: &[WarningId]) -> Result<Pairs, AllocError>
    ensures { IfOk result (λ pairs. pairs ≡ pairs_of cells.now numbers.now) }
{
    let mut pairs = Vec::new(alloc);
    for cell in cells {
        put_pairs(*cell, numbers, &mut pairs)?;
    }
    Ok(Pairs::from_vec(pairs))
}

/// The cell with each warning in the book.
pub(crate) fn pairs_of_cell(alloc: Global, book: &Book, c: Cell) -> Result<Pairs, AllocError>
    ensures { IfOk result (ArePairs (is_of_cell c book.now)) }
{
    book.tell_soundness();
    let numbers = book.warnings()?;
    let pairs = pairs_of(alloc, &[c], numbers.as_slice())?;
    Ok(pairs)
}

/// The cells that this selector alone puts into the area, with each warning that names the area.
pub(crate) fn pairs_of_selector(
    alloc: Global,
    register: &Register,
    areas: &Areas,
    book: &Book,
    a: &Name,
    s: Selector,
) -> Result<Pairs, AllocError>
    ensures { IfOk result (ArePairs (is_of_selector register.now areas.now book.now a.now s)) }
{
    book.tell_soundness();
    let cells = cells_only_by(alloc, register, areas, a, s)?;
    let numbers = book.naming(a)?;
    let pairs = pairs_of(alloc, cells.as_slice(), numbers.as_slice())?;
    Ok(pairs)
}

/// The registered cells in one of the areas, with the warning.
pub(crate) fn pairs_of_areas(
    alloc: Global,
    register: &Register,
    areas: &Areas,
    names: &[Name],
    number: WarningId,
) -> Result<Pairs, AllocError>
    ensures { IfOk result (ArePairs (is_of_areas register.now areas.now names.now number)) }
{
    let cells = covered_cells(alloc, register, areas, names)?;
    let pairs = pairs_of(alloc, cells.as_slice(), &[number])?;
    Ok(pairs)
}
