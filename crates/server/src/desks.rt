//! The desks of a run, handed in at its end.

use crate::consoles::hand_in_consoles;
use crate::looking::{Looking, hand_in_looking};
use crate::ports::{hand_in, push};
use office::desk::Desk;
use server_consoles::Consoles;
use server_links::Shared;
use server_operator::Terminal;
use server_options::ServeFault;
use std::io::{BufRead, Write};
use std::sync::ledger::Ledger;
use std::sync::{Mutex, Wait};

/// Takes the desks of standard input, the ports, the consoles and the page.
fn take_desks<L: Ledger, I: BufRead + Drop, W: Write + Drop, E: Drop, R: Wait>(
    rt: &R,
    shared: &Shared<L, E>,
    looking: Option<&Looking<L>>,
    consoles: Option<&Consoles<L>>,
    terminal: &Mutex<Terminal<L, I, W>>,
    desks: &mut Vec<Desk<L>>,
) -> Result<(), ServeFault> {
    if let Some(desk) = terminal.lock(rt).desk.take() {
        push(desks, desk)?;
    }
    hand_in(rt, shared.ports.as_slice(), desks)?;
    hand_in_consoles(rt, consoles, desks)?;
    hand_in_looking(rt, looking, desks)
}

/// Hands in the desks.
pub(crate) fn desks_of<L: Ledger, I: BufRead + Drop, W: Write + Drop, E: Drop, R: Wait>(
    rt: &R,
    shared: &Shared<L, E>,
    looking: Option<&Looking<L>>,
    consoles: Option<&Consoles<L>>,
    terminal: &Mutex<Terminal<L, I, W>>,
) -> Result<Vec<Desk<L>>, ServeFault> {
    let mut desks = Vec::new(shared.alloc);
    match take_desks(rt, shared, looking, consoles, terminal, &mut desks) {
        Ok(()) => Ok(desks),
        Err(fault) => Err(fault),
    }
}
