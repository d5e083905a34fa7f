//! By which rules links go on.

use cell_register::BscId;
use link_rules::Peers;
use std::net::IpAddr;
use std::sync::{Mutex, Wait};

/// By which rules links go on.
#[derive(Drop)]
pub struct LinkOptions {
    /// The network code, as TS 24.008 writes it in three octets.
    pub plmn: [u8; 3],
    /// Whether a BSC is sent a RESET of all its cells when it connects.
    pub reset: bool,
    /// After how many seconds it is said that an order has no reply; 0 for never.
    pub reply_seconds: u32,
    /// After how many seconds without a reply a link is cut, or without an answer to a RESET; 0 for never.
    pub cut_seconds: u32,
    /// After how many seconds without a word a BSC is sent a KEEP ALIVE, and whether one of its own is answered; 0 for never.
    pub alive_seconds: u32,
    /// How long after the last order, query or reply for a warning a BSC is asked about it without an operator's wish, in milliseconds; 0
    /// for never.
    pub query_ms: u64,
    /// How many such queries there are a second at most, over all BSCs.
    pub queries_per_second: u32,
    /// From which addresses each BSC may come. `None` where that isn't told.
    pub peers: Mutex<Option<Peers>>,
    /// The file that says it.
    pub peers_file: Option<String>,
}

impl LinkOptions {
    /// Whether the BSC may come from that address by the list of peers; `None` where there is none.
    pub(crate) fn is_named<R: Wait>(&self, rt: &R, b: BscId, from: IpAddr) -> Option<bool> {
        let peers = self.peers.lock(rt);
        match &*peers {
            Some(peers) => Some(peers.is_named(b, from)),
            None => None,
        }
    }
}
