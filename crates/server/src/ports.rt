//! The ports of a server: opened, given their desks, and the desks handed in.

use crate::knocking::{Knocks, knock_at};
use cell_register::BscId;
use console_text::ReplayFault;
use link_rules::Peers;
use office::desk::Desk;
use office::office::Office;
use server_errors::{Errors, say_of_centre, tell};
use server_options::{ServeFault, ServeOptions, peers_name, read_peers};
use server_ports::{Port, PortPace};
use std::alloc::Global;
use std::fs::Files;
use std::io;
use std::io::Write;
use std::net::{Net, TcpListener, TcpStream};
use std::sync::Wait;
use std::sync::ledger::Ledger;
use std::time::Clock;

/// The host without its brackets: an IPv6 address is written as in front of a port, `[::1]`, and may be without them.
pub(crate) fn plain_host(host: &str) -> &str {
    match host.strip_prefix("[") {
        Some(inner) => inner.strip_suffix("]").unwrap_or(host),
        None => host,
    }
}

/// Listens on the port of a BSC.
fn bind<R: Net<Stream = TcpStream, Listener = TcpListener>, L: Ledger>(
    rt: &R,
    alloc: Global,
    options: &ServeOptions,
    b: BscId,
    port: u16,
) -> io::Result<Port<L>> {
    let host = plain_host(options.host.as_str());
    let listener = TcpListener::bind(rt, (host, port))?;
    let address = listener.local_addr()?;
    let pace = PortPace::new(
        alloc,
        options.limits,
        options.reply_seconds,
        options.cut_seconds,
        options.alive_seconds,
        options.query_ms,
    );
    Ok(Port::new(alloc, b, listener, address, pace))
}

/// Listens on the port of each BSC, behind the knock at it. What can't be listened on is said.
fn bind_all<
    R: Wait + Clock + Net<Stream = TcpStream, Listener = TcpListener>,
    L: Ledger,
    E: Write + Drop,
>(
    rt: &R,
    alloc: Global,
    options: &ServeOptions,
    errors: &Errors<E>,
    knocks: &Knocks<'_>,
) -> Result<Vec<Port<L>>, ServeFault> {
    let mut ports = Vec::new(alloc);
    for k in 0..options.links {
        let Some(b) = BscId::new(k.saturating_add(1)) else {
            return Err(ServeFault::Listen);
        };
        let port = match options.base.checked_add(k) {
            Some(number) => {
                knock_at(rt, alloc, errors, knocks, b, number);
                bind(rt, alloc, options, b, number)
            }
            None => return Err(ServeFault::Listen),
        };
        match port {
            Ok(port) => push(&mut ports, port)?,
            Err(error) => {
                tell(rt, alloc, errors, b, error);
                return Err(ServeFault::Listen);
            }
        }
    }
    Ok(ports)
}

/// Says what is listened on: the address of the first port, and the number of the last.
fn tell_listening<R: Wait + Clock, L: Ledger, E: Write + Drop>(
    rt: &R,
    alloc: Global,
    ports: &[Port<L>],
    errors: &Errors<E>,
) {
    let (Some(first), Some(last)) = (ports.first(), ports.last()) else {
        return;
    };
    let text = if ports.len() == 1 {
        format!(in alloc; "listening: {}", first.address)
    } else {
        format!(in alloc; "listening: {} to {}", first.address, last.address.port())
    };
    if let Ok(text) = text {
        say_of_centre(rt, alloc, errors, text);
    }
}

/// Says how many BSCs and addresses stand in the file of peers, where there is one.
fn tell_peers<R: Wait + Clock, E: Write + Drop>(
    rt: &R,
    alloc: Global,
    options: &ServeOptions,
    errors: &Errors<E>,
    peers: Option<&Peers>,
) {
    let (Some(peers), Some(path)) = (peers, &options.peers) else {
        return;
    };
    let count = peers.count();
    if let Ok(text) = format!(in alloc;
        "peers: {count} blocks of addresses were read from {path}"
    ) {
        say_of_centre(rt, alloc, errors, text);
    }
}

/// What is there before a server's threads begin.
#[derive(Drop)]
pub(crate) struct Opened<L: Ledger> {
    pub(crate) ports: Vec<Port<L>>,
    pub(crate) peers: Option<Peers>,
    /// The file of the peers.
    pub(crate) peers_file: Option<String>,
}

/// Reads the file of peers, knocks at the BSCs whose links were up when the kept file ended, and listens on the port of each BSC. What
/// it listens on is said, or what is wrong.
pub(crate) fn open_ports<
    R: Files + Wait + Clock + Net<Stream = TcpStream, Listener = TcpListener>,
    L: Ledger,
    E: Write + Drop,
>(
    rt: &R,
    alloc: Global,
    options: &ServeOptions,
    errors: &Errors<E>,
) -> Result<Opened<L>, ServeFault> {
    let peers = read_peers(rt, alloc, options, errors)?;
    tell_peers(rt, alloc, options, errors, peers.as_ref());
    let Ok(peers_file) = peers_name(alloc, options) else {
        return Err(ServeFault::Lines(ReplayFault::Memory));
    };
    let knocks = Knocks::find(rt, alloc, options, peers.as_ref());
    let ports: Vec<Port<L>> = bind_all(rt, alloc, options, errors, &knocks)?;
    drop(knocks);
    tell_listening(rt, alloc, ports.as_slice(), errors);
    Ok(Opened {
        ports,
        peers,
        peers_file,
    })
}

pub(crate) fn push<T: Drop>(items: &mut Vec<T>, item: T) -> Result<(), ServeFault> {
    match items.push(item) {
        Ok(()) => Ok(()),
        Err(_) => Err(ServeFault::Lines(ReplayFault::Memory)),
    }
}

pub(crate) fn open_desk<L: Ledger, R: Wait>(
    rt: &R,
    office: &Office<L>,
) -> Result<Desk<L>, ServeFault> {
    match office.open_desk(rt) {
        Ok(desk) => Ok(desk),
        Err(_) => Err(ServeFault::Lines(ReplayFault::Memory)),
    }
}

/// Gives each port its two desks.
pub(crate) fn open_desks<L: Ledger, R: Wait>(
    rt: &R,
    office: &Office<L>,
    ports: &[Port<L>],
) -> Result<(), ServeFault> {
    for port in ports {
        *port.read_desk.lock(rt) = Some(open_desk(rt, office)?);
        *port.write_desk.lock(rt) = Some(open_desk(rt, office)?);
    }
    Ok(())
}

/// Hands in the desks of the ports.
pub(crate) fn hand_in<L: Ledger, R: Wait>(
    rt: &R,
    ports: &[Port<L>],
    desks: &mut Vec<Desk<L>>,
) -> Result<(), ServeFault> {
    for port in ports {
        if let Some(desk) = port.read_desk.lock(rt).take() {
            push(desks, desk)?;
        }
        if let Some(desk) = port.write_desk.lock(rt).take() {
            push(desks, desk)?;
        }
    }
    Ok(())
}
