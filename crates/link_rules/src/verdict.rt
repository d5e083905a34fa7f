//! What is done with a connection to a BSC's port.

/// What is done with a connection to a BSC's port.
#[derive(Clone, Copy, Debug, PartialEq, Eq)]
pub enum Verdict {
    /// It gets the link: none is up.
    Take,
    /// It gets the link, and the one that is up ends.
    TakePlace,
    /// It is closed, since a link from another address is up.
    CloseOther,
    /// It is closed, since its address isn't named for the BSC.
    CloseUnnamed,
}
