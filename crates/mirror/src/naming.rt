//! Which cells a report names.

ghost use Rattle.std.specs.Prelude.{◌≡◌, filter, IfOk};
ghost use Rattle.mirror.specs.Known.{are_of_cells, is_named, own_cell};

use crate::named_set::NamedSet;
use cbsp_ie::CellId;
use common::{Cell, Cells};
use std::alloc::{AllocError, Global};

/// The one cell that the identification can name, where it has a location area and a cell identity.
pub(crate) fn own_cell(id: &CellId) -> Option<Cell>
    ensures { result ≡ own_cell id.now }
{
    match id {
        CellId::Global { lac, ci, .. } => Some(Cell { lac: *lac, ci: *ci }),
        CellId::LacCi { lac, ci } => Some(Cell { lac: *lac, ci: *ci }),
        CellId::Ci { .. } => None,
        CellId::Lai { .. } => None,
        CellId::Lac { .. } => None,
        CellId::All => None,
    }
}

/// Whether each identification can name one cell alone.
pub(crate) fn are_of_cells(ids: &[CellId]) -> bool
    ensures { result ≡ are_of_cells ids.now }
{
    for id in ids {
        if own_cell(id).is_none() {
            return false;
        }
    }
    true
}

/// Those of the cells that one of the identifications names, in their order.
pub(crate) fn named(
    alloc: Global,
    network: [u8; 3],
    ids: &[CellId],
    cells: &[Cell],
) -> Result<Cells, AllocError>
    ensures { IfOk result (λ found. found ≡ filter (is_named network ids.now) cells.now) }
{
    let set = NamedSet::of(alloc, network, ids)?;
    let mut found = Vec::new(alloc);
    for c in cells {
        if set.has(*c) {
            found.push(*c)?;
        }
    }
    Ok(Cells::from_vec(found))
}
