//! What a BSC says of being alive.

/// What of being alive stands among what a BSC sent.
#[derive(Clone, Copy, Debug, PartialEq, Eq)]
pub struct AliveSeen {
    /// A KEEP ALIVE of its own, which is to be answered.
    pub asks: bool,
    /// The answer to a KEEP ALIVE.
    pub answers: bool,
}
