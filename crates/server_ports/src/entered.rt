//! A report that was submitted.

/// What was known of a report when it was let in.
#[derive(Clone, Copy, Debug, PartialEq, Eq)]
pub struct Entered {
    /// How many octets and cells are kept of it.
    pub kept: u64,
    /// It had the turn of the heavy reports.
    pub had_turn: bool,
    /// How many milliseconds are left to others before the next has the turn.
    pub pause_ms: u64,
}

impl Entered {
    /// None.
    pub(crate) fn none() -> Entered {
        Entered {
            kept: 0,
            had_turn: false,
            pause_ms: 0,
        }
    }
}
