//! What is told of the link of a BSC.

/// The link of a BSC: its generation, which is the number of the entry that brought the latest link up, and 0 where there
/// was none since the BSC was registered; whether it is up; and whether an order is pending for the BSC.
#[derive(Clone, Copy, Debug, PartialEq, Eq)]
pub struct LinkState {
    pub last: u64,
    pub is_up: bool,
    pub has_pending: bool,
}
