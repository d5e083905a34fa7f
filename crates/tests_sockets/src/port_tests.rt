//! What no clause says of a port: that nothing is out any more once its link has ended, and nothing of it counts for the next one; who
//! writes to its link, and why that failed; what reports cost; and that a connection which waits counts.

ghost use Rattle.std.specs.Prelude.{◌≡◌};

use crate::checks::{same, yes};
use cell_register::BscId;
use centre_events::network::Network;
use link_rules::{AliveStep, Cost, Query, Verdict, Version};
use link_worker::Load;
use office::office::Office;
use server_ports::{Broken, Connection, Entered, Figures, LinkLimits, Outgoing, Port, PortPace};
use std::alloc::Global;
use std::io::Write;
use std::marker::Brand;
use std::net::{Net, Shutdown, SocketAddr, TcpListener, TcpStream};
use std::process::Abort;
use std::sync::Wait;
use std::sync::ledger::{Blank, Ledger};
use std::thread;
use std::thread::Threads;
use std::time::{Clock, Duration};

/// The network of the office.
const NETWORK: Network = Network {
    plmn: [0x00, 0xf1, 0x10],
    broadcasts: 0,
};

/// After how many seconds without a word a BSC is asked whether it is alive, and after how many milliseconds about a warning.
const ALIVE_SECONDS: u32 = 1;

const QUERY_MS: u64 = 1_000;

/// The front of a WRITE-REPLACE.
const ORDER: &[u8] = b"\x01\x00\x00\x03\x0e\x11\x12";

/// A port to which nobody connects.
fn unused_port<L: Ledger, R: Abort + Net<Stream = TcpStream, Listener = TcpListener>>(
    rt: &R,
    alloc: Global,
) -> Port<L> {
    let bsc = BscId::new(1).expect(rt, "a number of a BSC");
    let listener = TcpListener::bind(rt, ("127.0.0.1", 0)).expect(rt, "a port");
    let address = listener.local_addr().expect(rt, "its address");
    let pace = PortPace::new(alloc, LinkLimits::usual(), 0, 0, ALIVE_SECONDS, QUERY_MS);
    Port::new(alloc, bsc, listener, address, pace)
}

/// Since when an order and a RESET are out over the port's link, before its end and after it.
fn outs<L: Ledger, R: Wait>(rt: &R, port: &Port<L>) -> [Option<u64>; 4] {
    port.name_link(rt, 6, 1_000);
    port.reset(rt, 2_000, 1_700_000_000);
    let _ = port.send(rt, ORDER, 3_000);
    let (order, reset) = (port.out_since(rt), port.reset_since(rt));
    let _ = port.end_read(rt, 4_000);
    [order, reset, port.out_since(rt), port.reset_since(rt)]
}

/// The same of a port of an office of its own.
fn found<L: Ledger, R: Wait + Abort + Net<Stream = TcpStream, Listener = TcpListener>>(
    rt: &R,
    alloc: Global,
    blank: Blank,
) -> [Option<u64>; 4]
    requires name { blank.name ≡ L.name }
    requires parts { blank.parts ≡ L.parts }
    requires desks { blank.parts ≡ 1025 }
{
    let office = Office::<L>::new(alloc, blank, NETWORK, 10);
    let port = unused_port::<L, R>(rt, alloc);
    let outs = outs(rt, &port);
    drop(port);
    drop(office);
    outs
}

#[test]
fn nothing_is_out_once_the_link_has_ended(rt: HostRuntime) {
    let found = found::<Brand, _>(&rt, rt.alloc(), Blank::new(1025));
    let want = [Some(3_000), Some(1_700_000_000), None, None];
    same(&rt, found, want, "what is out");
}

/// A frame of the link itself goes between two frames of the write side, and into none: not into one of which a part is written, but over
/// the next link, where that one never ended.
fn takes_turns<L: Ledger, R: Wait + Abort + Net<Stream = TcpStream, Listener = TcpListener>>(
    rt: &R,
    alloc: Global,
) {
    let port = unused_port::<L, R>(rt, alloc);
    port.begin_piece(rt);
    yes(rt, !port.begin_alive(rt), "a part is being written");
    port.end_piece(rt, false);
    yes(rt, !port.begin_alive(rt), "a part is written");
    port.begin_piece(rt);
    port.end_piece(rt, true);
    yes(rt, port.begin_alive(rt), "the frame is written");
    port.end_alive(rt);
    port.begin_piece(rt);
    port.end_piece(rt, false);
    port.finish(rt);
    yes(rt, port.begin_alive(rt), "the link has ended");
    drop(port);
}

#[test]
fn a_frame_of_the_link_itself_goes_between_two(rt: HostRuntime) {
    takes_turns::<Brand, _>(&rt, rt.alloc());
}

/// A frame of the link itself is written for a while.
fn writes_alive<L: Ledger, R: Wait + Clock>(rt: &R, port: &Port<L>) {
    thread::sleep(rt, Duration::from_millis(100));
    port.end_alive(rt);
}

/// The write side waits until that is done.
fn waits_for_alive<
    L: Ledger + Send + Sync,
    R: Wait + Abort + Clock + Threads + Sync + Net<Stream = TcpStream, Listener = TcpListener>,
>(rt: &R, alloc: Global) {
    let port = unused_port::<L, R>(rt, alloc);
    yes(rt, port.begin_alive(rt), "nobody writes");
    let shared = &port;
    thread::join(
        rt,
        move || writes_alive(rt, shared),
        move || shared.begin_piece(rt),
    );
    drop(port);
}

#[test]
fn an_order_goes_out_behind_a_frame_of_the_link_itself(rt: HostRuntime) {
    waits_for_alive::<Brand, _>(&rt, rt.alloc());
}

/// More octets than a socket takes at once.
const MORE: usize = 33_554_432;

/// The two ends of a connection.
fn connection<R: Abort + Net<Stream = TcpStream, Listener = TcpListener>>(
    rt: &R,
) -> (TcpStream, TcpStream) {
    let listener = TcpListener::bind(rt, ("127.0.0.1", 0)).expect(rt, "a port");
    let address = listener.local_addr().expect(rt, "its address");
    let far = TcpStream::connect(rt, address).expect(rt, "a connection");
    let (near, _) = listener.accept().expect(rt, "it is taken");
    (far, near)
}

/// What is written to a connection that takes a part of it counts as a part, and why a write failed is known: here that the connection is
/// closed.
fn writes_out<L: Ledger, R: Wait + Abort + Net<Stream = TcpStream, Listener = TcpListener>>(
    rt: &R,
    alloc: Global,
) {
    let port = unused_port::<L, R>(rt, alloc);
    let (far, near) = connection(rt);
    near.set_nonblocking(true).expect(rt, "it never waits");
    let mut octets: Vec<u8> = Vec::new(alloc);
    octets.resize(MORE, 0).expect(rt, "memory");
    let mut outgoing = Outgoing::new(rt, &port, &near);
    let count = outgoing.write(octets.as_slice()).expect(rt, "some");
    yes(rt, count < MORE, "a part is written");
    yes(rt, !port.begin_alive(rt), "the frame isn't written in full");
    near.shutdown(Shutdown::Write).expect(rt, "it is closed");
    yes(rt, outgoing.write(b"more").is_err(), "nothing is written");
    same(rt, outgoing.broken(), Some(Broken::Closed), "why");
    drop(outgoing);
    drop(far);
    drop(near);
    drop(port);
}

#[test]
fn a_part_of_a_frame_and_a_fault_are_noticed(rt: HostRuntime) {
    writes_out::<Brand, _>(&rt, rt.alloc());
}

/// A report of all cells of a BSC with ten, where there are three warnings, costs a line of each cell for itself and for each warning. Of
/// its octets and cells so many are kept. Its turn is given back once.
fn charges<L: Ledger, R: Wait + Abort + Net<Stream = TcpStream, Listener = TcpListener>>(
    rt: &R,
    alloc: Global,
) {
    let port = unused_port::<L, R>(rt, alloc);
    port.set_figures(
        rt,
        Figures {
            cells: 10,
            warnings: 3,
        },
    );
    let load = Load {
        octets: 100,
        cells: None,
    };
    let cost = Cost {
        octets: 100,
        lines: 40,
        kept: 110,
    };
    same(rt, port.begin_report(rt, load), cost, "what it costs");
    port.take_turn(rt);
    let entered = Entered {
        kept: 110,
        had_turn: true,
        pause_ms: 0,
    };
    same(rt, port.end_report(rt), entered, "it was submitted");
    let none = Entered {
        kept: 0,
        had_turn: false,
        pause_ms: 0,
    };
    same(rt, port.end_report(rt), none, "it was told");
    drop(port);
}

#[test]
fn a_report_is_charged_and_gives_back_its_turn(rt: HostRuntime) {
    charges::<Brand, _>(&rt, rt.alloc());
}

/// What becomes of a connection that came from there.
fn offered<L: Ledger, R: Wait + Abort>(
    rt: &R,
    alloc: Global,
    port: &Port<L>,
    stream: TcpStream,
    from: &[u8],
) -> Verdict {
    let peer = SocketAddr::parse_ascii(from).expect(rt, "an address");
    let connection = Connection::new(alloc, stream, peer).expect(rt, "memory");
    port.offer(rt, connection, None)
}

/// However many connections are closed, the next that may get the link gets it. One that waits counts as the link: another address doesn't
/// push it out.
fn offers<L: Ledger, R: Wait + Abort + Net<Stream = TcpStream, Listener = TcpListener>>(
    rt: &R,
    alloc: Global,
) {
    let port = unused_port::<L, R>(rt, alloc);
    for _ in 0..150 {
        port.take_closed(rt, 1_000);
    }
    yes(rt, port.take_connection(rt, 1_000), "it isn't held back");
    let (one, other) = connection(rt);
    let taken = offered(rt, alloc, &port, one, b"192.0.2.7:40001");
    same(rt, taken, Verdict::Take, "the first");
    let closed = offered(rt, alloc, &port, other, b"192.0.2.8:40002");
    same(rt, closed, Verdict::CloseOther, "another");
    drop(port);
}

#[test]
fn a_connection_that_waits_is_not_pushed_out(rt: HostRuntime) {
    offers::<Brand, _>(&rt, rt.alloc());
}

/// While a RESET is out nobody is asked whether the BSC is alive. A BSC that answered a KEEP ALIVE isn't cut on its next link, where it
/// answered none.
fn asks_alive<L: Ledger, R: Wait + Abort + Net<Stream = TcpStream, Listener = TcpListener>>(
    rt: &R,
    alloc: Global,
) {
    let port = unused_port::<L, R>(rt, alloc);
    port.name_link(rt, 6, 0);
    port.reset(rt, 0, 1_700_000_000);
    same(rt, port.look_alive(rt, 5_000), AliveStep::Wait, "a RESET");
    port.reset_done(rt);
    same(rt, port.look_alive(rt, 5_000), AliveStep::Ask, "no RESET");
    port.heard(rt, 5_100, true);
    let _ = port.end_read(rt, 6_000);
    port.name_link(rt, 8, 7_000);
    same(rt, port.look_alive(rt, 8_000), AliveStep::Ask, "a second");
    port.asked_alive(rt, 8_000);
    same(
        rt,
        port.look_alive(rt, 38_000),
        AliveStep::Tell { seconds: 30 },
        "thirty seconds",
    );
    drop(port);
}

#[test]
fn what_a_bsc_answered_counts_for_one_link(rt: HostRuntime) {
    asks_alive::<Brand, _>(&rt, rt.alloc());
}

/// A query that was wished for as the link ended is due over the next one, a period after it was.
fn asks_again<L: Ledger, R: Wait + Abort + Net<Stream = TcpStream, Listener = TcpListener>>(
    rt: &R,
    alloc: Global,
) {
    let port = unused_port::<L, R>(rt, alloc);
    let version = Version {
        message_id: 4370,
        serial: 0xc000,
    };
    let query = Some(Query {
        version,
        after: None,
    });
    port.name_link(rt, 6, 0);
    same(rt, port.next_query(rt, &[version], 0), None, "it is new");
    same(rt, port.next_query(rt, &[version], 1_000), query, "due");
    let _ = port.end_read(rt, 1_500);
    port.name_link(rt, 8, 1_600);
    same(rt, port.next_query(rt, &[version], 2_000), query, "again");
    drop(port);
}

#[test]
fn a_query_is_due_over_the_next_link(rt: HostRuntime) {
    asks_again::<Brand, _>(&rt, rt.alloc());
}

/// A link that has ended has, until another comes up.
fn ends_at<L: Ledger, R: Wait + Abort + Net<Stream = TcpStream, Listener = TcpListener>>(
    rt: &R,
    alloc: Global,
) {
    let port = unused_port::<L, R>(rt, alloc);
    same(rt, port.ended(rt), None, "no link yet");
    port.name_link(rt, 6, 1_000);
    same(rt, port.ended(rt), None, "the first link");
    let _ = port.end_read(rt, 4_000);
    same(rt, port.ended(rt), Some(4_000), "its end");
    port.name_link(rt, 8, 9_000);
    same(rt, port.ended(rt), None, "the second link");
    drop(port);
}

#[test]
fn it_is_known_when_a_link_ended(rt: HostRuntime) {
    ends_at::<Brand, _>(&rt, rt.alloc());
}
