//! Whether areas cover a cell.

ghost use Rattle.std.specs.Prelude.{◌≡◌};
ghost use Rattle.coverage_plan.specs.Plan.{is_covered};

use areas::Areas;
use common::{Cell, Name};

/// Whether one of the names is that of an area that covers the cell.
pub(crate) fn is_covered(areas: &Areas, names: &[Name], c: Cell) -> bool
    ensures { result ≡ is_covered areas.now names.now c }
{
    names.iter().any(|name| areas.covers(name, c))
}
