//! What was found in a file.

/// How much stands in the file of a journal. `whole` and `torn` together are its octets.
#[derive(Clone, Copy, Debug, PartialEq, Eq)]
pub struct Loaded {
    /// How many lines have their end, the first line with them. 0: the file holds no journal yet.
    pub lines: u64,
    /// How many octets these lines are, with their ends. What stands behind them is torn.
    pub whole: u64,
    /// How many octets stand behind the last end of a line. They are what a crash left of a write that it interrupted.
    pub torn: u64,
}
