//! Where links come from.

use cell_register::BscId;
use std::net::SocketAddr;
use std::sync::Wait;

/// What tells where links come from.
pub trait LinkPeers {
    /// Where the BSC's link came from that has this generation. `None` where that link has ended, or nobody knows.
    fn peer_of<R: Wait>(&self, rt: &R, bsc: BscId, generation: u64) -> Option<SocketAddr>;
}

/// Nobody knows where links come from.
#[derive(Clone, Copy, Debug)]
pub struct NoPeers;

impl LinkPeers for NoPeers {
    fn peer_of<R: Wait>(&self, _rt: &R, _bsc: BscId, _generation: u64) -> Option<SocketAddr> {
        None
    }
}
