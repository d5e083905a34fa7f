//! How far an office is.

/// How far an office is, for those who follow its journal.
#[derive(Clone, Copy, Debug, PartialEq, Eq)]
pub struct Progress {
    /// How many entries there are, those counted that are folded.
    pub position: u64,
    /// How often `Office::interrupt` was called. After 2^64 calls it begins at 0 again.
    pub interrupts: u64,
}
