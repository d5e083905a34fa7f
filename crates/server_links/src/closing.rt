//! How ports are closed.

use crate::shared::Shared;
use server_errors::tell;
use server_ports::Port;
use std::io::Write;
use std::sync::Wait;
use std::sync::ledger::Ledger;
use std::time::Clock;

/// Has all ports take no further connections, and shuts those that are there.
pub fn close_all<L: Ledger, E: Drop, R: Wait>(rt: &R, shared: &Shared<L, E>) {
    shared.close(rt);
    for port in shared.ports.as_slice() {
        port.close(rt);
    }
}

/// Closes a port of which a thread can't be started, and says so.
pub fn close_port<L: Ledger, E: Write + Drop, R: Wait + Clock>(
    rt: &R,
    shared: &Shared<L, E>,
    port: &Port<L>,
) {
    port.close(rt);
    let why = "no thread can be started: its port is closed";
    tell(rt, shared.alloc, &shared.errors, port.bsc, why);
}
