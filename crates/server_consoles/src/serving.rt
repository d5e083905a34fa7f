//! The thread of a console.

use crate::connection::Connection;
use crate::console::Console;
use crate::console_input::ConsoleInput;
use crate::consoles::Consoles;
use crate::farewell::{last_words, part};
use crate::following::follow;
use crate::next::Next;
use crate::program::Program;
use console_text::ReplayFault;
use server_operator::{Leaving, Operator, Terminal, operate};
use std::io::BufReader;
use std::net::Shutdown;
use std::sync::ledger::Ledger;
use std::sync::{Mutex, Wait};
use std::time::Clock;

const SLOW: &str = "a console is closed: nothing more of its line came for too long";

/// Answers the lines of the connection, at the desk of the console. The answer is how they ended.
fn answer<L: Ledger, P: Program, R: Wait + Clock>(
    rt: &R,
    operator: &Operator<'_, L, P>,
    console: &Console<L>,
    connection: &Connection,
    most_silence: u64,
) -> Result<Leaving, ReplayFault> {
    let input = ConsoleInput::new(rt, connection, most_silence);
    let Ok(reader) = BufReader::new(operator.alloc, input) else {
        return Err(ReplayFault::Memory);
    };
    let desk = console.desk.lock(rt).take();
    let terminal = Mutex::new(Terminal {
        reader,
        writer: &connection.stream,
        desk,
    });
    let result = operate(rt, operator, &terminal);
    let Terminal {
        reader: _,
        writer: _,
        desk,
    } = terminal.into_inner();
    *console.desk.lock(rt) = desk;
    result
}

/// Serves a connection until its lines end. Their end ends nothing else, but for `shutdown`.
fn serve<L: Ledger, P: Program, R: Wait + Clock>(
    rt: &R,
    operator: &Operator<'_, L, P>,
    console: &Console<L>,
    connection: &Connection,
    most_silence: u64,
) {
    let ended = answer(rt, operator, console, connection, most_silence);
    if connection.was_slow() {
        operator.server.tell(rt, SLOW);
    }
    if ended == Ok(Leaving::Watch) {
        follow(rt, operator, connection);
    }
    if ended == Ok(Leaving::Shutdown) {
        operator.server.end(rt);
    }
    part(&connection.stream, last_words(ended));
}

/// The desk of the console lets go of its receipts of folded entries, where no connection is at it.
fn release<L: Ledger, P: Program, R: Wait>(
    rt: &R,
    operator: &Operator<'_, L, P>,
    console: &Console<L>,
) {
    let mut held = console.desk.lock(rt);
    if let Some(desk) = held.as_mut() {
        let _ = operator.office.release(rt, desk);
    }
}

/// Serves the connections that get this console, one after another, until the consoles are closing. The other end of a connection sees
/// its end once the console is free again. Before each wait, which has an end, the desk lets go of its receipts of folded entries.
pub fn serve_console<L: Ledger, P: Program, R: Wait + Clock>(
    rt: &R,
    operator: &Operator<'_, L, P>,
    consoles: &Consoles<L>,
    slot: usize,
) {
    let Some(console) = consoles.consoles.get(slot) else {
        return;
    };
    for _ in rt.forever() {
        release(rt, operator, console);
        match consoles.wait_connection(rt, slot) {
            Next::Connection(connection) => {
                serve(rt, operator, console, &connection, consoles.most_silence);
                consoles.give_back(rt, slot);
                connection.shut(Shutdown::Both);
                drop(connection);
            }
            Next::Nothing => {}
            Next::Closing => break,
        }
    }
}
