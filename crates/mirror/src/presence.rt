//! Whether a message is on air in a cell, as far as its BSC has reported.

/// What is known of a message in a cell. Nothing is known of the radio itself: only what its BSC answered.
#[derive(Clone, Copy, Debug, PartialEq, Eq)]
pub enum Presence {
    Absent,
    OnAir,
    /// An order for it went out and its answer will not come.
    Unknown,
}
