//! Where the links of a server come from.

use crate::shared::Shared;
use cell_register::BscId;
use journal_office::LinkPeers;
use std::net::SocketAddr;
use std::sync::Wait;
use std::sync::ledger::Ledger;

impl<L: Ledger, E: Drop> LinkPeers for Shared<L, E> {
    fn peer_of<R: Wait>(&self, rt: &R, bsc: BscId, generation: u64) -> Option<SocketAddr> {
        let port = self.ports.iter().find(|port| port.bsc == bsc)?;
        port.peer_of(rt, generation)
    }
}
