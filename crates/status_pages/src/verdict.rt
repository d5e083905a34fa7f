//! How a centre stands, in a word.

/// How a centre stands; the first that holds.
#[derive(Clone, Copy, Debug, PartialEq, Eq)]
pub(crate) enum Verdict {
    IsStale,
    IsFull,
    /// Somebody has to look at a warning or at a BSC.
    SomeWrong,
    /// No BSC is registered.
    IsEmpty,
    /// Something is still to come.
    SomeUnderWay,
    AllInOrder,
}
