//! Where the links came from that are up at the end of a kept file.

use crate::comments::read_link_comment;
use cell_register::BscId;
use console_text::grammar::read_bsc;
use journal_file::{NotTaken, TakeLine};
use std::alloc::{AllocError, Global};
use std::net::SocketAddr;

/// The last link of a BSC.
#[derive(Clone, Copy)]
struct LastPeer {
    bsc: BscId,
    is_up: bool,
    /// Where it came from, where a comment says so.
    peer: Option<SocketAddr>,
}

/// What a line does to the last link of a BSC.
#[derive(Clone, Copy)]
enum Change {
    Up(BscId),
    Down(BscId),
    None,
}

fn change_of(line: &[u8]) -> Change {
    if let Some(word) = line.strip_prefix(b"up ".as_slice()) {
        return match read_bsc(word) {
            Some(bsc) => Change::Up(bsc),
            None => Change::None,
        };
    }
    let Some(word) = line.strip_prefix(b"down ".as_slice()) else {
        return Change::None;
    };
    match read_bsc(word) {
        Some(bsc) => Change::Down(bsc),
        None => Change::None,
    }
}

/// Takes the lines of a kept file, and keeps where the last link of each BSC came from, while it is up. It checks nothing: what is no
/// event is passed over.
#[derive(Drop)]
pub struct LastPeers {
    alloc: Global,
    peers: Vec<LastPeer>,
}

impl LastPeers {
    /// No link came up yet.
    pub fn new(alloc: Global) -> LastPeers {
        LastPeers {
            alloc,
            peers: Vec::new(alloc),
        }
    }

    /// Where the BSC's last link came from, where it is up and a comment says so.
    pub fn peer(&self, bsc: BscId) -> Option<SocketAddr> {
        let last = self.peers.iter().find(|last| last.bsc == bsc)?;
        if last.is_up { last.peer } else { None }
    }

    /// A link of the BSC came up. Nobody knows yet from where.
    fn bring_up(&mut self, bsc: BscId) -> Result<(), AllocError> {
        let up = LastPeer {
            bsc,
            is_up: true,
            peer: None,
        };
        match self.peers.iter().position(|last| last.bsc == bsc) {
            Some(place) => {
                if let Some(last) = self.peers.get_mut(place) {
                    *last = up;
                }
                Ok(())
            }
            None => {
                self.peers.push(up)?;
                Ok(())
            }
        }
    }

    /// The last link of the BSC is lost.
    fn lose(&mut self, bsc: BscId) {
        if let Some(place) = self.peers.iter().position(|last| last.bsc == bsc) {
            if let Some(last) = self.peers.get_mut(place) {
                last.is_up = false;
            }
        }
    }

    /// The last link of the BSC came from there.
    fn name(&mut self, bsc: BscId, peer: SocketAddr) {
        if let Some(place) = self.peers.iter().position(|last| last.bsc == bsc) {
            if let Some(last) = self.peers.get_mut(place) {
                last.peer = Some(peer);
            }
        }
    }
}

impl TakeLine for LastPeers {
    ghost use Rattle.std.specs.Prelude.{None};

    ghost taken = { λ _. None };

    fn take_line(&mut self, line: &[u8]) -> Result<(), NotTaken> {
        match change_of(line) {
            Change::Up(bsc) => match self.bring_up(bsc) {
                Ok(()) => Ok(()),
                Err(_) => Err(NotTaken::Memory),
            },
            Change::Down(bsc) => {
                self.lose(bsc);
                Ok(())
            }
            Change::None => Ok(()),
        }
    }

    fn take_comment(&mut self, line: &[u8]) {
        if let Ok(Some((bsc, peer))) = read_link_comment(self.alloc, line) {
            self.name(bsc, peer);
        }
    }
}
