//! How many things a centre has.

/// How many there are of each thing.
#[derive(Clone, Copy, Debug, PartialEq, Eq)]
pub struct PlanCounts {
    /// Registered BSCs.
    pub bscs: usize,
    /// Registered BSCs whose link is up.
    pub links_up: usize,
    /// Registered cells.
    pub cells: usize,
    pub areas: usize,
    /// Warnings in the book, stopped ones too.
    pub warnings: usize,
    /// Warnings in the book that were not stopped.
    pub active: usize,
}
