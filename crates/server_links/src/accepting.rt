//! The thread of a port that takes connections.

ghost use Rattle.std.specs.Prelude.{◌≡◌};
ghost use Rattle.std.specs.Net.Addr.{IsCanonicalOf, MatchIp};
ghost use Rattle.std.specs.Net.Socket.{socket_ip, socket_port};

use crate::shared::{Shared, now_of};
use crate::tcp::watch_connection;
use link_rules::Verdict;
use server_errors::{tell, tell_link};
use server_ports::{Connection, Port};
use std::io::Write;
use std::net::{SocketAddr, TcpStream};
use std::sync::Wait;
use std::sync::ledger::Ledger;
use std::time::{Clock, Duration};
use std::{io, thread};

/// How long to wait, in milliseconds, where a connection can't be accepted.
const PAUSE: u64 = 50;

const NO_MEMORY: &str = "a connection is closed: out of memory";

const TOO_MANY: &str = "more connections are closed than is said";

pub(crate) const UNNAMED: &str = "a connection is closed: its address isn't named for this BSC";

/// Says that no connection can be taken, if it wasn't said since the last one that was.
fn tell_untaken<L: Ledger, E: Write + Drop, R: Wait + Clock>(
    rt: &R,
    shared: &Shared<L, E>,
    port: &Port<L>,
    error: &io::Error,
    was_told: bool,
) {
    if was_told {
        return;
    }
    if let Ok(text) = format!(in shared.alloc; "no connection can be taken: {error}") {
        tell(rt, shared.alloc, &shared.errors, port.bsc, text);
    }
}

/// Why a connection is closed, where one from another address has the link.
fn tell_other<L: Ledger, E: Write + Drop, R: Wait + Clock>(
    rt: &R,
    shared: &Shared<L, E>,
    port: &Port<L>,
    from: &SocketAddr,
) {
    let text = match port.peer(rt) {
        Some(up) => format!(in shared.alloc; "a connection is closed: that of {up} is up"),
        None => format!(in shared.alloc; "a connection is closed: another one was up"),
    };
    if let Ok(text) = text {
        shared.tell(rt, port, from, text);
    }
}

/// Says that a connection was closed, where that is said of so many.
fn tell_closed<L: Ledger, E: Write + Drop, R: Wait + Clock>(
    rt: &R,
    shared: &Shared<L, E>,
    port: &Port<L>,
    from: &SocketAddr,
    verdict: Verdict,
) {
    if !port.take_closed(rt, now_of(rt)) {
        if port.is_first_closed(rt) {
            tell(rt, shared.alloc, &shared.errors, port.bsc, TOO_MANY);
        }
        return;
    }
    match verdict {
        Verdict::CloseOther => tell_other(rt, shared, port, from),
        Verdict::CloseUnnamed => shared.tell(rt, port, from, UNNAMED),
        Verdict::Take | Verdict::TakePlace => {}
    }
}

/// Whether a connection is to be closed.
fn is_refused(verdict: Verdict) -> bool {
    matches!(verdict, Verdict::CloseOther | Verdict::CloseUnnamed)
}

/// Gives a connection to the reading thread as the next that gets the link, in the place of an earlier one that waits for its turn;
/// or closes it.
fn offer<L: Ledger, E: Write + Drop, R: Wait + Clock>(
    rt: &R,
    shared: &Shared<L, E>,
    port: &Port<L>,
    stream: TcpStream,
    from: &SocketAddr,
) {
    let is_named = shared.options.is_named(rt, port.bsc, from.ip());
    match Connection::new(shared.alloc, stream, *from) {
        Ok(connection) => {
            let verdict = port.offer(rt, connection, is_named);
            if is_refused(verdict) {
                tell_closed(rt, shared, port, from, verdict);
            }
        }
        Err(_) => tell_link(rt, shared.alloc, &shared.errors, port.bsc, from, NO_MEMORY),
    }
}

/// Decides which connection gets the link. Nobody is waited for here: so the newest connection is seen at once, however many came
/// before it.
fn take_stream<L: Ledger, E: Write + Drop, R: Wait + Clock>(
    rt: &R,
    shared: &Shared<L, E>,
    port: &Port<L>,
    stream: TcpStream,
    from: &SocketAddr,
) {
    let _ = stream.set_nodelay(true);
    watch_connection(&stream);
    let is_named = shared.options.is_named(rt, port.bsc, from.ip());
    let verdict = port.verdict(rt, from.ip(), is_named);
    if is_refused(verdict) {
        drop(stream);
        tell_closed(rt, shared, port, from, verdict);
    } else {
        offer(rt, shared, port, stream, from);
    }
}

/// Where a connection came from. A BSC that comes over IPv4 to a port that listens on `::` has an IPv4-mapped IPv6 address: that
/// counts as the IPv4 address, so that the BSC is known when it comes back, and may be named by it.
fn plain_address(mut from: SocketAddr) -> SocketAddr
    ensures ip { MatchIp (socket_ip from) (λ _. socket_ip result ≡ socket_ip from) (λ ip. IsCanonicalOf ip (socket_ip result)) }
    ensures port { socket_port result ≡ socket_port from }
{
    from.set_ip(from.ip().to_canonical());
    from
}

/// Takes connections to the port, and gives each that gets the link to the thread that reads, until the port is closing.
pub fn accept_links<L: Ledger, E: Write + Drop, R: Wait + Clock>(
    rt: &R,
    shared: &Shared<L, E>,
    port: &Port<L>,
) {
    let mut was_told = false;
    for _ in rt.forever() {
        let accepted = port.listener.accept();
        if port.is_closing(rt) {
            break;
        }
        match accepted {
            Ok((stream, from)) => {
                was_told = false;
                take_stream(rt, shared, port, stream, &plain_address(from));
            }
            Err(error) => {
                tell_untaken(rt, shared, port, &error, was_told);
                was_told = true;
                thread::sleep(rt, Duration::from_millis(PAUSE));
            }
        }
    }
}
