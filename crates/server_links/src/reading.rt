//! The thread of a port that brings up its links and reads from them.

use crate::accepting::UNNAMED;
use crate::gate::LinkGate;
use crate::incoming::Incoming;
use crate::resetting::reset_cells;
use crate::shared::{Shared, now_of};
use centre_events::answer::Answer;
use centre_events::event::Event;
use centre_events::refusal::Refusal;
use framing::FromRead;
use link_worker::{End, read_side};
use office::desk::Desk;
use server_errors::{Level, tell};
use server_ports::{Connection, Ended, Job, Port, SideEnd, cause_of};
use std::io::Write;
use std::sync::Wait;
use std::sync::ledger::Ledger;
use std::thread;
use std::time::{Clock, Duration};

/// How long to wait, in milliseconds, where memory runs out, or a connection has to wait.
const PAUSE: u64 = 100;

const HELD: &str = "connections are held back: there were too many";

/// How often the loss of a link is submitted where memory runs out.
const MOST_TRIES: u32 = 100;

/// The generation of the link that the desk's last event brought up.
fn generation_of<L: Ledger>(desk: &Desk<L>) -> Option<u64> {
    match desk.receipts().last() {
        Some(receipt) => match &receipt.answer {
            Answer::Link(generation) => Some(*generation),
            _ => None,
        },
        None => None,
    }
}

/// Submits that the link is lost. A refusal is passed over: the link is no longer the latest, or nothing can be entered.
fn submit_loss<L: Ledger, E: Write + Drop, R: Wait + Clock>(
    rt: &R,
    shared: &Shared<L, E>,
    port: &Port<L>,
    desk: &mut Desk<L>,
    generation: u64,
) {
    for _ in 0..MOST_TRIES {
        let event = Event::LinkDown(port.bsc, generation);
        let result = shared.office.submit(rt, desk, event);
        shared.submitted(rt);
        match result {
            Err(Refusal::Memory) => thread::sleep(rt, Duration::from_millis(PAUSE)),
            _ => return,
        }
    }
}

/// Says how a link ended. Nothing is said of the links that end with the program.
fn tell_end<L: Ledger, E: Write + Drop, R: Wait + Clock>(
    rt: &R,
    shared: &Shared<L, E>,
    port: &Port<L>,
    connection: &Connection,
    generation: u64,
    read: SideEnd,
    ended: Ended,
) {
    if port.is_closing(rt) {
        return;
    }
    let cause = cause_of(ended.shut, read, ended.written);
    if let Ok(text) = format!(in shared.alloc; "link {generation} ended: {cause}") {
        shared.tell(rt, port, &connection.peer, text);
    }
}

/// Reads the reports of a link whose write side has begun, until it ends.
fn read_link<L: Ledger, E: Write + Drop, R: Wait + Clock>(
    incoming: Incoming<'_, L, E, R>,
    desk: &mut Desk<L>,
    generation: u64,
) -> SideEnd {
    let (rt, shared, port) = (incoming.rt, incoming.shared, incoming.port);
    let gate = LinkGate {
        rt,
        shared,
        port,
        peer: incoming.peer,
    };
    let mut source = FromRead::new(incoming);
    let end = read_side(
        rt,
        shared.alloc,
        &shared.office,
        desk,
        port.bsc,
        generation,
        &mut source,
        &gate,
    );
    shared.end_report(rt, port);
    SideEnd {
        end,
        broken: source.into_inner().broken(),
    }
}

/// Has the write side of a link begin, once the BSC has answered a RESET where one is to be sent. `Err` is how the link ends.
fn begin<L: Ledger, E: Write + Drop, R: Wait + Clock>(
    incoming: &mut Incoming<'_, L, E, R>,
    desk: &mut Desk<L>,
    connection: &Connection,
    generation: u64,
) -> Result<(), SideEnd> {
    if incoming.shared.options.reset {
        reset_cells(incoming, desk, generation)?;
    }
    let Ok(connection) = connection.shared() else {
        return Err(SideEnd::of(End::Refused(Refusal::Memory)));
    };
    let job = Job {
        generation,
        connection,
    };
    if incoming.port.begin(incoming.rt, job) {
        Ok(())
    } else {
        Err(SideEnd::of(End::GateShut))
    }
}

/// Serves a link that has come up, until it ends. The answer is how its read side ended.
fn run_link<L: Ledger, E: Write + Drop, R: Wait + Clock>(
    rt: &R,
    shared: &Shared<L, E>,
    port: &Port<L>,
    desk: &mut Desk<L>,
    connection: &Connection,
    generation: u64,
) -> SideEnd {
    let mut incoming = Incoming::new(rt, shared, port, connection);
    match begin(&mut incoming, desk, connection, generation) {
        Ok(()) => read_link(incoming, desk, generation),
        Err(end) => end,
    }
}

/// Serves a link that has come up, until both its sides have ended and its loss is submitted.
fn serve_link<L: Ledger, E: Write + Drop, R: Wait + Clock>(
    rt: &R,
    shared: &Shared<L, E>,
    port: &Port<L>,
    desk: &mut Desk<L>,
    connection: &Connection,
    generation: u64,
) {
    port.name_link(rt, generation, now_of(rt));
    if let Ok(text) = format!(in shared.alloc; "link {generation} is up") {
        shared.tell_at(rt, port, &connection.peer, Level::Notice, text);
    }
    let read = run_link(rt, shared, port, desk, connection, generation);
    let ended = port.end_read(rt, now_of(rt));
    submit_loss(rt, shared, port, desk, generation);
    tell_end(rt, shared, port, connection, generation, read, ended);
}

/// Whether the list of peers has changed since the connection was taken, and names its address no more.
fn is_unnamed<L: Ledger, E: Write + Drop, R: Wait + Clock>(
    rt: &R,
    shared: &Shared<L, E>,
    port: &Port<L>,
    connection: &Connection,
) -> bool {
    let from = connection.peer.ip();
    shared.options.is_named(rt, port.bsc, from) == Some(false)
}

/// Brings up the link of a connection, and serves it.
fn bring_up<L: Ledger, E: Write + Drop, R: Wait + Clock>(
    rt: &R,
    shared: &Shared<L, E>,
    port: &Port<L>,
    desk: &mut Desk<L>,
    connection: &Connection,
) {
    let result = shared.office.submit(rt, desk, Event::LinkUp(port.bsc));
    shared.submitted(rt);
    match result {
        Ok(()) => {
            if let Some(generation) = generation_of(desk) {
                serve_link(rt, shared, port, desk, connection, generation);
            }
        }
        Err(refusal) => {
            if let Ok(text) = format!(in shared.alloc; "link refused: {refusal}") {
                shared.tell(rt, port, &connection.peer, text);
            }
        }
    }
}

/// Brings up the link of a connection, and serves it, unless its address isn't named any more.
fn take_connection<L: Ledger, E: Write + Drop, R: Wait + Clock>(
    rt: &R,
    shared: &Shared<L, E>,
    port: &Port<L>,
    desk: &mut Desk<L>,
    connection: &Connection,
) {
    if is_unnamed(rt, shared, port, connection) {
        shared.tell(rt, port, &connection.peer, UNNAMED);
    } else {
        bring_up(rt, shared, port, desk, connection);
    }
    connection.shut();
    port.finish(rt);
}

/// Waits until the connection that waits may get the link: 100 get it at once, then one a second. One that is closed doesn't count, so
/// whoever isn't let in holds nobody back. `false` where the port is closing.
fn wait_turn<L: Ledger, E: Write + Drop, R: Wait + Clock>(
    rt: &R,
    shared: &Shared<L, E>,
    port: &Port<L>,
) -> bool {
    for _ in rt.forever() {
        if port.is_closing(rt) {
            return false;
        }
        if port.take_connection(rt, now_of(rt)) {
            return true;
        }
        if port.is_first_connection(rt) {
            tell(rt, shared.alloc, &shared.errors, port.bsc, HELD);
        }
        thread::sleep(rt, Duration::from_millis(PAUSE));
    }
    false
}

/// Serves the connections to the port that get the link, one after another, until it is closing.
pub fn read_links<L: Ledger, E: Write + Drop, R: Wait + Clock>(
    rt: &R,
    shared: &Shared<L, E>,
    port: &Port<L>,
) {
    let Some(mut desk) = port.read_desk.lock(rt).take() else {
        return;
    };
    for _ in rt.forever() {
        if !port.wait_connection(rt) || !wait_turn(rt, shared, port) {
            break;
        }
        if let Some(connection) = port.next_connection(rt) {
            take_connection(rt, shared, port, &mut desk, &connection);
            let _ = shared.office.release(rt, &mut desk);
        }
    }
    *port.read_desk.lock(rt) = Some(desk);
}
