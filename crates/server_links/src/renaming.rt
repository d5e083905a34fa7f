//! Another list of peers takes the place of the one before.

use crate::shared::Shared;
use link_rules::Peers;
use server_ports::{Port, Shut};
use std::sync::Wait;
use std::sync::ledger::Ledger;

/// What changed by another list of peers.
#[derive(Clone, Copy, Debug, PartialEq, Eq)]
pub struct Renamed {
    /// How many blocks of addresses it names, how many of them are new, and how many of those before are gone.
    pub named: usize,
    pub new: usize,
    pub gone: usize,
    /// How many links were cut, since it doesn't name their addresses.
    pub cut: usize,
}

impl<L: Ledger, E: Drop> Shared<L, E> {
    /// Cuts the link of a port where the list doesn't name its address. The answer is how many links that are.
    fn cut_unnamed<R: Wait>(&self, rt: &R, port: &Port<L>) -> usize {
        let Some(peer) = port.peer(rt) else {
            return 0;
        };
        let is_named = self.options.is_named(rt, port.bsc, peer.ip());
        if is_named == Some(false) && port.shut(rt, Shut::Unnamed) {
            1
        } else {
            0
        }
    }

    /// Puts the list in the place of the one before. The answer has the first three numbers.
    fn put_peers<R: Wait>(&self, rt: &R, peers: Peers) -> Renamed {
        let mut place = self.options.peers.lock(rt);
        let (new, gone) = match &*place {
            Some(before) => (peers.count_new(before), before.count_new(&peers)),
            None => (peers.count(), 0),
        };
        let named = peers.count();
        *place = Some(peers);
        Renamed {
            named,
            new,
            gone,
            cut: 0,
        }
    }

    /// Has BSCs come from the addresses of this list from now on, and cuts the links that it doesn't name. A connection that waits for
    /// its turn is looked at when that comes.
    pub fn rename<R: Wait>(&self, rt: &R, peers: Peers) -> Renamed {
        let mut renamed = self.put_peers(rt, peers);
        for port in self.ports.as_slice() {
            renamed.cut = renamed.cut.saturating_add(self.cut_unnamed(rt, port));
        }
        renamed
    }
}
