//! What ended a link.

use link_worker::End;
use thiserror::Error;

/// What ended a link.
#[derive(Clone, Copy, Debug, PartialEq, Eq, Error)]
pub enum LinkEnd {
    /// Another connection of its BSC took its place.
    #[error("another connection took its place")]
    Replaced,
    /// The operator cut it, or took its BSC out.
    #[error("cut by the operator")]
    Cut,
    /// An order or a query had no reply for so many seconds, after which links are cut.
    #[error("cut, since there was no reply for {seconds} s")]
    Unanswered { seconds: u64 },
    /// A RESET had no answer for so many seconds, after which links are cut.
    #[error("cut, since there was no answer to the RESET for {seconds} s")]
    ResetUnanswered { seconds: u64 },
    /// Nothing came for so many seconds after a KEEP ALIVE, and the BSC had answered one before.
    #[error("cut, since nothing came for {seconds} s after a KEEP ALIVE")]
    Silent { seconds: u64 },
    /// The list of peers doesn't name its address any more.
    #[error("cut, since its address isn't named for this BSC any more")]
    Unnamed,
    /// The BSC answered the RESET, and not that it was done in all its cells.
    #[error("cut, since the BSC didn't reset all its cells")]
    NotReset,
    /// The BSC reset the connection.
    #[error("the BSC reset the connection")]
    Reset,
    /// The BSC's machine didn't answer for so long that the system gave the connection up.
    #[error("the BSC can't be reached any more")]
    TimedOut,
    /// What ended one of its sides.
    #[error("{0}")]
    Side(End),
}
