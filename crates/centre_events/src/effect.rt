//! What comes of an event at one key.

use cbsp_ie::Cause;
use mirror::Presence;

/// What an event does to a key.
#[derive(Clone, Copy, Debug, PartialEq, Eq)]
pub enum Effect {
    /// This is known of the message now, and nothing holds an order for it back.
    Sets(Presence),
    /// Orders for it are held back: its BSC refused the last one with this cause (TS 48.049, 8.2.13).
    Holds(Cause),
    /// Nothing holds an order for it back any more.
    Frees,
    /// Nothing changes.
    Leaves,
}
