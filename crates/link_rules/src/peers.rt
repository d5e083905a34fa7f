//! From which addresses the BSCs may come.

ghost use Rattle.std.specs.Prelude.{◌≡◌, [], IfErr, IfOk, OnOk, count_by, length};
ghost use Rattle.std.specs.List.{list_any};
ghost use Rattle.link_rules.specs.PeerLists.{AreNamedBy, IsFaultOf, IsListOfPeers, has_peer, is_new, lets_in};

use crate::peer::Peer;
use crate::peers_fault::PeersFault;
use crate::reading::read_line;
use crate::words::cut_line;
use cell_register::BscId;
use std::alloc::Global;
use std::marker::Model;
use std::net::IpAddr;

/// From which addresses the BSCs may come. A BSC that isn't named may come from none.
#[derive(Drop)]
pub struct Peers {
    all: Vec<Peer>,
}

impl Model for Peers {
    ghost use Rattle.std.specs.Prelude.{List};
    ghost use Rattle.link_rules.specs.declared.peer.Peer.{Peer};

    ghost Value = { List Peer };

    ghost view = { λ p. p.all.items };
}

impl Peers {
    /// Reads a list of peers. Each line has the number of a BSC, 1 to 65,535 in decimal digits, and one or more IPv4 or IPv6
    /// addresses that it may come from. Behind an address a slash and a number may stand: how many of its leading bits count, 0 to 32
    /// or 0 to 128; without them all do. Between these words stand spaces, tabs or carriage returns. A BSC may stand on several
    /// lines. A line without words, and one whose first word begins with `#`, says nothing. A line ends at a line feed, or where
    /// the text does.
    pub fn read(alloc: Global, text: &[u8]) -> Result<Peers, PeersFault>
        ensures read { OnOk result (IsListOfPeers text.now) }
        ensures named { IfOk result (AreNamedBy text.now) }
        ensures fault { IfErr result (IsFaultOf text.now) }
    {
        let mut all = Vec::new(alloc);
        let mut rest = text;
        let mut passed = 0;
        while let Some((line, behind)) = cut_line(rest) {
            passed += 1;
            if !read_line(&mut all, line)? {
                return Err(PeersFault::Line(passed));
            }
            rest = behind;
        }
        if read_line(&mut all, rest)? {
            Ok(Peers { all })
        } else {
            Err(PeersFault::Line(passed + 1))
        }
    }

    /// How many blocks of addresses the list names, each as often as it is named.
    pub fn count(&self) -> usize
        ensures { result ≡ length self.now }
    {
        self.all.len()
    }

    /// Whether the list names that block for that BSC.
    fn has(&self, other: &Peer) -> bool
        ensures { result ≡ has_peer self.now other.now }
    {
        self.all.iter().any(|peer| peer.bsc == other.bsc && peer.block.is_same(&other.block))
    }

    /// How many of its blocks the list before doesn't name.
    pub fn count_new(&self, before: &Peers) -> usize
        ensures { result ≡ count_by (is_new before.now) self.now }
    {
        self.all.iter().filter(|peer| !before.has(peer)).count()
    }

    /// Whether the list names the address for the BSC. An IPv4-mapped IPv6 address is another than the IPv4 address.
    pub fn is_named(&self, bsc: BscId, address: IpAddr) -> bool
        ensures { result ≡ list_any (lets_in bsc address) self.now }
    {
        self.all
            .iter()
            .any(|peer| peer.bsc == bsc && peer.block.has(address))
    }
}
