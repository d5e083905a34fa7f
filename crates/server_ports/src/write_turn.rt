//! Who writes to the connection of a link.

/// Who writes to the connection of a link: frames of the link itself are never written into one that is half written.
#[derive(Clone, Copy, Debug, PartialEq, Eq)]
pub(crate) enum WriteTurn {
    Nobody,
    /// The write side: a frame has begun, and isn't written in full.
    Order,
    /// The side that reads: a KEEP ALIVE, or the answer to one.
    Alive,
}
