//! Whether an order is out again.

/// Whether an order may go out.
#[derive(Clone, Copy, Debug, PartialEq, Eq)]
pub enum Repeat {
    /// It goes out.
    Go,
    /// It goes out, the third time running: that is to be said.
    Tell,
    /// It has to wait until then, in milliseconds of the clock, and wasn't counted: ask again.
    Wait { until_ms: u64 },
}
