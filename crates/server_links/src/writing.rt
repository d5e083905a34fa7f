//! The thread of a port that writes to its links.

use crate::gate::LinkGate;
use crate::shared::Shared;
use framing::FromWrite;
use link_worker::write_side;
use office::desk::Desk;
use server_ports::{Job, Outgoing, Port, SideEnd};
use std::io::Write;
use std::sync::Wait;
use std::sync::ledger::Ledger;
use std::time::Clock;

/// Writes the orders of one link, until it ends.
fn write_link<L: Ledger, E: Write + Drop, R: Wait + Clock>(
    rt: &R,
    shared: &Shared<L, E>,
    port: &Port<L>,
    desk: &mut Desk<L>,
    job: &Job,
) -> SideEnd {
    let gate = LinkGate {
        rt,
        shared,
        port,
        peer: job.connection.peer,
    };
    let mut sink = FromWrite::new(Outgoing::new(rt, port, &job.connection.stream));
    let end = write_side(
        rt,
        shared.alloc,
        &shared.office,
        desk,
        port.bsc,
        job.generation,
        &mut sink,
        &gate,
    );
    SideEnd {
        end,
        broken: sink.into_inner().broken(),
    }
}

/// Writes the orders of each link of the port, one link after another, until the port is closing.
pub fn write_links<L: Ledger, E: Write + Drop, R: Wait + Clock>(
    rt: &R,
    shared: &Shared<L, E>,
    port: &Port<L>,
) {
    let Some(mut desk) = port.write_desk.lock(rt).take() else {
        return;
    };
    for _ in rt.forever() {
        match port.next_job(rt) {
            Some(job) => {
                let end = write_link(rt, shared, port, &mut desk, &job);
                let _ = shared.office.release(rt, &mut desk);
                drop(job);
                port.end_write(rt, end);
            }
            None => break,
        }
    }
    *port.write_desk.lock(rt) = Some(desk);
}
