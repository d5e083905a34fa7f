//! What a centre counts of its own work.

/// How often the lines of a centre were read or set, and how often entries of its journal were read.
#[derive(Clone, Copy, Debug, PartialEq, Eq)]
pub struct Meter {
    pub lines: u64,
    pub entries: u64,
}
