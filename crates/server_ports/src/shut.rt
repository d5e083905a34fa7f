//! Why this program ended a link.

/// Why this program ended a link that was up.
#[derive(Clone, Copy, Debug, PartialEq, Eq)]
pub enum Shut {
    /// Another connection of its BSC took its place.
    Replaced,
    /// The operator cut it.
    Cut,
    /// An order or a query had no reply for so many seconds.
    Unanswered { seconds: u64 },
    /// A RESET had no answer for so many seconds.
    ResetUnanswered { seconds: u64 },
    /// Nothing came for so many seconds after a KEEP ALIVE.
    Silent { seconds: u64 },
    /// The list of peers doesn't name its address any more.
    Unnamed,
    /// The BSC answered the RESET, and not that it was done in all its cells.
    NotReset,
}
