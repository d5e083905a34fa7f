//! The list of the cells of a BSC.

ghost use Rattle.std.specs.Prelude.{◌≡◌, IfOk, map};
ghost use Rattle.centre_events.specs.Past.{Past};
ghost use Rattle.centre_past.specs.IsKept.{IsKept};
ghost use Rattle.centre_past.specs.Lists.{cell_row, cell_rows};

use cell_register::BscId;
use centre_past::kept::Kept;
use centre_past::lists::{CellRow, CellRows};
use common::Cell;
use std::alloc::{AllocError, Global};
use warning_book::Kind;

/// The row of a cell at the BSC.
fn cell_row(kept: &Kept, b: BscId, c: Cell) -> CellRow
    ensures { (past : Past) → IsKept past kept.now → result ≡ cell_row past b c }
{
    CellRow {
        cell: c,
        is_down: kept.tables.is_down(Kind::Cbs, b, c),
        is_down_for_emergency: kept.tables.is_down(Kind::Emergency, b, c),
    }
}

/// The rows of the cells at the BSC.
fn rows_of(alloc: Global, kept: &Kept, b: BscId, cells: &[Cell]) -> Result<Vec<CellRow>, AllocError>
    ensures { (past : Past) → IsKept past kept.now → IfOk result (λ rows. rows.items ≡ map (cell_row past b) cells.now) }
{
    let mut rows = Vec::with_capacity(alloc, cells.len())?;
    for cell in cells {
        rows.push(cell_row(kept, b, *cell))?;
    }
    Ok(rows)
}

/// The cells that are registered at the BSC, in ascending order: of each for which kinds of warnings it is down there.
pub fn cells(alloc: Global, kept: &Kept, b: BscId) -> Result<CellRows, AllocError>
    ensures { (past : Past) → IsKept past kept.now → IfOk result (λ rows. rows ≡ cell_rows past b) }
{
    kept.plan.tell_soundness();
    let cells = kept.plan.register().cells_of(b)?;
    let rows = rows_of(alloc, kept, b, cells.as_slice())?;
    Ok(CellRows::from_vec(rows))
}
