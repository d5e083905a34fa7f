//! How many cells of a BSC are down.

ghost use Rattle.std.specs.Prelude.{◌≡◌};
ghost use Rattle.office_picture.specs.Pictures.{down_count, is_down};

use centre_past::lists::CellRow;

/// Whether the cell is down for some kind of warning.
fn is_down(cell: &CellRow) -> bool
    ensures { result ≡ is_down cell.now }
{
    cell.is_down || cell.is_down_for_emergency
}

/// How many of the cells are down for some kind of warning.
pub fn down_count(cells: &[CellRow]) -> u64
    ensures { result ≡ down_count cells.now }
{
    let count = cells.iter().filter(|cell| is_down(cell)).count();
    count as u64
}
