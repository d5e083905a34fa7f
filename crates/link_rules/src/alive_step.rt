//! What is to be done about a BSC that says nothing.

/// What is to be done about a BSC that says nothing. `seconds` is for how long a KEEP ALIVE has been out, in whole seconds.
#[derive(Clone, Copy, Debug, PartialEq, Eq)]
pub enum AliveStep {
    /// Nothing.
    Wait,
    /// It is to be sent a KEEP ALIVE.
    Ask,
    /// It is to be said that nothing came after one.
    Tell { seconds: u64 },
    /// The link is to be cut.
    Cut { seconds: u64 },
}
