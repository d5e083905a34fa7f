//! What is known beside a survey.

use warning_book::WarningId;

/// What is known of a warning beside its board.
#[derive(Clone, Copy, Debug, PartialEq, Eq)]
pub struct WarningAir {
    pub warning: WarningId,
    /// In how many cells it is silent.
    pub silent: u64,
    /// Since when it is over by its period, in seconds after 1970-01-01T00:00:00Z.
    pub over: Option<u64>,
}

/// What is known of a server beside a survey of its office.
#[derive(Debug, Drop)]
pub struct Moments {
    /// When the survey was made, in seconds after 1970-01-01T00:00:00Z.
    pub taken: u64,
    /// When the program began, in the same way.
    pub begun: u64,
    /// Since when something is out to each BSC, that of BSC 1 first, in seconds after 1970-01-01T00:00:00Z.
    pub sinces: Vec<Option<u64>>,
    /// Since when a RESET is out to each BSC that isn't answered, in the same way.
    pub resets: Vec<Option<u64>>,
    /// When the link of each BSC ended that is down, or the program began where it had none since, in the same way.
    pub ends: Vec<Option<u64>>,
    /// How many cells of each BSC are down for some kind of warning, in the same way.
    pub downs: Vec<Option<u64>>,
    /// Where warnings are silent, and since when they are over; nothing is known of the others.
    pub airs: Vec<WarningAir>,
    /// The last entry that stands in the kept file.
    pub kept: Option<u64>,
    /// How much memory the program takes, in octets.
    pub memory: Option<u64>,
}
