//! Why nothing was sent over a link.

use centre_events::refusal::Refusal;

/// Why nothing was entered for the link of a BSC.
#[derive(Clone, Copy, Debug, PartialEq, Eq)]
pub enum Unsent {
    /// The link is not up: it was lost, or another has come up since.
    Ended,
    /// The centre is stale.
    StaleCentre,
    /// The Send or the Ask of what was due was refused.
    Refused(Refusal),
}
