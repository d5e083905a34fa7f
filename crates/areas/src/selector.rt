//! What an area selects.

ghost use Rattle.std.specs.Prelude.{◌≡◌};
ghost use Rattle.areas.specs.Selector.{lac_of, selector_eq, selector_lt};
ghost use Rattle.areas.specs.declared.selector.Selector.TheVariants as selector;

use common::{Cell, Ordered};

/// One cell, or all cells of a location area. It may name cells that are not registered.
#[derive(Clone, Copy, Debug, PartialEq, Eq)]
pub enum Selector {
    Cell(Cell),
    /// A location area code.
    Lac(u16),
}

impl Ordered for Selector {
    ghost use Rattle.areas.specs.Selector.{selector_lt};

    ghost before = { selector_lt };

    fn is_before(&self, other: &Selector) -> bool {
        match (self, other) {
            (Selector::Cell(cell), Selector::Cell(other)) => cell.is_before(other),
            (Selector::Cell(cell), Selector::Lac(lac)) => cell.lac < *lac,
            (Selector::Lac(lac), Selector::Cell(cell)) => *lac <= cell.lac,
            (Selector::Lac(lac), Selector::Lac(other)) => *lac < *other,
        }
    }
}

/// Whether the selector comes before that of the cell.
pub(crate) fn is_before_cell(s: Selector, c: Cell) -> bool
    ensures { result ≡ selector_lt s (selector.Cell c) }
{
    match s {
        Selector::Cell(d) => d.lac < c.lac || (d.lac == c.lac && d.ci < c.ci),
        Selector::Lac(lac) => lac <= c.lac,
    }
}

/// Whether the selector is the cell.
pub(crate) fn is_cell(s: Selector, c: Cell) -> bool
    ensures { result ≡ selector_eq s (selector.Cell c) }
{
    match s {
        Selector::Cell(d) => d.lac == c.lac && d.ci == c.ci,
        Selector::Lac(_) => false,
    }
}

/// Whether the selector comes before that of the location area.
pub(crate) fn is_before_lac(s: Selector, lac: u16) -> bool
    ensures { result ≡ selector_lt s (selector.Lac lac) }
{
    match s {
        Selector::Cell(c) => c.lac < lac,
        Selector::Lac(l) => l < lac,
    }
}

/// The selector's location area: that of its cell, or the whole one.
pub(crate) fn lac_of(s: Selector) -> u16
    ensures { result ≡ lac_of s }
{
    match s {
        Selector::Cell(c) => c.lac,
        Selector::Lac(lac) => lac,
    }
}
