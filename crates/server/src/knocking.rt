//! Where BSCs are knocked at when the server starts: those whose links were up when the centre ended.

use crate::journal::heading_of;
use crate::ports::plain_host;
use cell_register::BscId;
use framing::FromRead;
use journal_file::load;
use journal_office::LastPeers;
use link_rules::Peers;
use server_errors::{Errors, Level, tell_link_at};
use server_links::knock;
use server_options::ServeOptions;
use std::alloc::Global;
use std::fs::{Files, OpenOptions};
use std::io::Write;
use std::net::{Net, SocketAddr, ToSocketAddrs};
use std::sync::Wait;
use std::time::Clock;

const KNOCKED: &str = "knocked: its link was up when the centre ended";

/// Looks in the kept file for where the links came from that are up at its end. None are found where it can't be read as the journal:
/// what is wrong with it is said once it is entered. Simulated BSCs are not knocked at.
pub(crate) fn find_last_peers<R: Files>(
    rt: &R,
    alloc: Global,
    options: &ServeOptions,
) -> LastPeers {
    let mut found = LastPeers::new(alloc);
    let Some(path) = &options.keep else {
        return found;
    };
    if options.with_simulator {
        return found;
    }
    let Ok(file) = OpenOptions::new().read(true).open(rt, path.as_str()) else {
        return found;
    };
    let mut source = FromRead::new(file);
    match load(alloc, heading_of(options), &mut source, &mut found) {
        Ok(_) => found,
        Err(_) => LastPeers::new(alloc),
    }
}

/// Whom a start knocks at.
#[derive(Drop)]
pub(crate) struct Knocks<'a> {
    options: &'a ServeOptions,
    /// Where the links came from that were up.
    last: LastPeers,
    /// From which addresses each BSC may come, where that is told.
    named: Option<&'a Peers>,
}

impl<'a> Knocks<'a> {
    /// Those whose links are up at the end of the kept file.
    pub(crate) fn find<R: Files>(
        rt: &R,
        alloc: Global,
        options: &'a ServeOptions,
        named: Option<&'a Peers>,
    ) -> Knocks<'a> {
        Knocks {
            options,
            last: find_last_peers(rt, alloc, options),
            named,
        }
    }

    /// Where the BSC is knocked at: where its last link came from, unless the list of peers doesn't name that address for it.
    fn address(&self, b: BscId) -> Option<SocketAddr> {
        let peer = self.last.peer(b)?;
        match self.named {
            Some(named) if !named.is_named(b, peer.ip()) => None,
            _ => Some(peer),
        }
    }

    /// Knocks at the address from the port, by the first of the addresses to be listened on from which that can be done. The answer is
    /// whether a SYN goes out.
    fn knock_from<R: Net>(&self, rt: &R, port: u16, to: SocketAddr) -> bool {
        let host = plain_host(self.options.host.as_str());
        let Ok(listened) = (host, port).to_socket_addrs(rt) else {
            return false;
        };
        for from in listened {
            if knock(from, to) {
                return true;
            }
        }
        false
    }
}

/// Knocks at the BSC whose last link was up when the kept file ended, and says so. It comes before its port is listened on.
pub(crate) fn knock_at<R: Wait + Clock + Net, E: Write + Drop>(
    rt: &R,
    alloc: Global,
    errors: &Errors<E>,
    knocks: &Knocks<'_>,
    b: BscId,
    port: u16,
) {
    let Some(to) = knocks.address(b) else {
        return;
    };
    if knocks.knock_from(rt, port, to) {
        tell_link_at(rt, alloc, errors, Level::Notice, b, &to, KNOCKED);
    }
}
