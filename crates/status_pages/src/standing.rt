//! How urgent a warning or a BSC is to somebody who looks.

/// How urgent a warning or a BSC is to somebody who looks.
#[derive(Clone, Copy, Debug, PartialEq, Eq)]
pub(crate) enum Standing {
    /// An emergency warning at which somebody has to look.
    Pressing,
    /// An active warning whose areas cover no registered cell: it reaches nobody.
    Unreached,
    /// A warning that isn't broadcast in some cell, though it is on air there.
    Silent,
    /// Somebody has to look at it.
    Wrong,
    /// Something is still to come.
    UnderWay,
    InOrder,
    /// A stopped warning that is off the air.
    Stopped,
}
