//! Which line it is.

ghost use Rattle.std.specs.Prelude.{◌≡◌};
ghost use Rattle.kept_tables.specs.View.{key_at, key_of};

use cell_register::BscId;
use common::Cell;
use kept_tables::Spot;
use mirror::LineKey;
use warning_book::WarningId;

/// The line of the BSC, the cell and the warning.
pub fn key_of(b: BscId, c: Cell, n: WarningId) -> LineKey
    ensures { result ≡ key_of b c n }
{
    LineKey {
        bsc: b,
        cell: c,
        warning: n,
    }
}

/// The line of the warning at the spot.
pub fn key_at(spot: &Spot, n: WarningId) -> LineKey
    ensures { result ≡ key_at spot.now n }
{
    key_of(spot.bsc, spot.cell, n)
}
