//! From where a list of peers is read again.

use crate::peers_file::{PeersError, load_peers};
use link_rules::Peers;
use std::alloc::Global;

/// What reads a file of peers, in any thread. `Files` can't stand for it: what its files and folders do is known of one thread alone.
pub trait PeersSource {
    /// The peers in the file of that name.
    fn load(&self, alloc: Global, name: &str) -> Result<Peers, PeersError>;
}

impl PeersSource for HostRuntime {
    fn load(&self, alloc: Global, name: &str) -> Result<Peers, PeersError> {
        load_peers(self, alloc, name)
    }
}
