//! An area, as a list shows it.

use common::Name;

/// An area.
#[derive(Debug, Drop)]
pub struct AreaRow {
    pub name: Name,
    /// How many selectors it has.
    pub selectors: usize,
}
