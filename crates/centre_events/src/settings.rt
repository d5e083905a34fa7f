//! What a centre is set up with.

use crate::network::Network;

/// What a centre is set up with: its network, and how long its journal may get.
#[derive(Clone, Copy, Debug, PartialEq, Eq)]
pub struct Settings {
    /// How its messages name the network, and how many broadcasts they ask for.
    pub network: Network,
    /// The greatest number of entries of the journal.
    pub limit: u32,
}
