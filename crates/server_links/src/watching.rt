//! The thread that looks for orders without a reply.

use crate::shared::{Shared, now_of};
use link_rules::{Overdue, QueryTurns};
use server_ports::{Port, Shut};
use std::io::Write;
use std::net::SocketAddr;
use std::sync::Wait;
use std::sync::ledger::Ledger;
use std::time::{Clock, Duration};

/// How often it is looked, in milliseconds.
const PERIOD: u64 = 1_000;

/// Sees to an order or a query that has no reply.
fn look_at_reply<L: Ledger, E: Write + Drop, R: Wait + Clock>(
    rt: &R,
    shared: &Shared<L, E>,
    port: &Port<L>,
    peer: &SocketAddr,
) {
    match port.look(rt, now_of(rt)) {
        Overdue::No => {}
        Overdue::Tell { seconds } => {
            if let Ok(text) = format!(in shared.alloc;
                "no reply to an order or a query for {seconds} s"
            ) {
                shared.tell(rt, port, peer, text);
            }
        }
        Overdue::Cut { seconds } => {
            port.shut(rt, Shut::Unanswered { seconds });
        }
    }
}

/// Sees to a RESET that has no answer.
fn look_at_reset<L: Ledger, E: Write + Drop, R: Wait + Clock>(
    rt: &R,
    shared: &Shared<L, E>,
    port: &Port<L>,
    peer: &SocketAddr,
) {
    match port.look_reset(rt, now_of(rt)) {
        Overdue::No => {}
        Overdue::Tell { seconds } => {
            if let Ok(text) = format!(in shared.alloc;
                "no answer to the RESET for {seconds} s: old messages may still be on air, and nothing is ordered"
            ) {
                shared.tell(rt, port, peer, text);
            }
        }
        Overdue::Cut { seconds } => {
            port.shut(rt, Shut::ResetUnanswered { seconds });
        }
    }
}

/// Looks at all ports once a second until the server ends: an order, a query or a RESET that has no reply is said, and a link is cut
/// where it has had none for too long. Each time it is looked by which figures reports are charged, and queries are entered that are due
/// without an operator's wish.
pub fn watch<L: Ledger, E: Write + Drop, R: Wait + Clock>(rt: &R, shared: &Shared<L, E>) {
    let mut turns = QueryTurns::new(shared.options.queries_per_second);
    for _ in rt.forever() {
        shared.look_at_figures(rt);
        if shared.is_closed_within(rt, Duration::from_millis(PERIOD)) {
            return;
        }
        for port in shared.ports.as_slice() {
            if let Some(peer) = port.peer(rt) {
                look_at_reply(rt, shared, port, &peer);
                look_at_reset(rt, shared, port, &peer);
            }
        }
        if shared.options.query_ms != 0 {
            shared.enter_queries(rt, &mut turns);
        }
    }
}
