//! The threads of a run, in scopes one inside the other. The innermost answers the lines of the operators.

use crate::operators::run_operators;
use console_text::ReplayFault;
use journal_file::DiskFile;
use journal_keeper::Keeper;
use server_consoles::Consoles;
use server_errors::{Level, say_of_centre_at};
use server_links::{
    Shared, accept_links, close_all, close_port, keep, read_links, simulate, watch, write_links,
};
use server_operator::Terminal;
use server_options::PeersSource;
use server_ports::Port;
use std::io::{BufRead, Write};
use std::net::{Net, TcpListener, TcpStream};
use std::sync::ledger::Ledger;
use std::sync::{Mutex, Wait};
use std::thread;
use std::thread::Threads;
use std::time::Clock;

const UNWATCHED: &str =
    "no thread can be started: orders without a reply are neither said nor do they cut a link";

/// Answers the lines of the operators while simulated BSCs answer the centre, and has all ports close.
fn run_simulators<
    'x,
    L: Ledger + Send + Sync,
    R: PeersSource
        + Wait
        + Threads
        + Clock
        + Sync
        + Net<Stream = TcpStream, Listener = TcpListener>,
    I: BufRead + Send + Drop,
    W: Write + Send + Drop,
    E: Write + Send + Drop,
>(
    rt: &'x R,
    shared: &'x Shared<L, E>,
    ports: &'x [Port<L>],
    consoles: Option<&'x Consoles<L>>,
    terminal: &'x Mutex<Terminal<L, I, W>>,
) -> Result<(), ReplayFault> {
    thread::scope(thread::scope_env(), rt, move |scope| {
        for port in ports {
            if scope.spawn(move || simulate(rt, shared, port)).is_err() {
                close_port(rt, shared, port);
            }
        }
        let result = run_operators(rt, shared, consoles, terminal);
        close_all(rt, shared);
        result
    })
}

/// Answers the lines of the operator while a thread looks for orders without a reply, and ends these threads. Where that thread can't
/// be started, this is said.
fn run_watch<
    'x,
    L: Ledger + Send + Sync,
    R: PeersSource
        + Wait
        + Threads
        + Clock
        + Sync
        + Net<Stream = TcpStream, Listener = TcpListener>,
    I: BufRead + Send + Drop,
    W: Write + Send + Drop,
    E: Write + Send + Drop,
>(
    rt: &'x R,
    shared: &'x Shared<L, E>,
    ports: &'x [Port<L>],
    consoles: Option<&'x Consoles<L>>,
    terminal: &'x Mutex<Terminal<L, I, W>>,
) -> Result<(), ReplayFault> {
    thread::scope(thread::scope_env(), rt, move |scope| {
        if scope.spawn(move || watch(rt, shared)).is_err() {
            let level = Level::Warning;
            say_of_centre_at(rt, shared.alloc, &shared.errors, level, UNWATCHED);
        }
        run_simulators(rt, shared, ports, consoles, terminal)
    })
}

/// Answers the lines of the operator while the ports take connections, and ends these threads.
fn run_acceptors<
    'x,
    L: Ledger + Send + Sync,
    R: PeersSource
        + Wait
        + Threads
        + Clock
        + Sync
        + Net<Stream = TcpStream, Listener = TcpListener>,
    I: BufRead + Send + Drop,
    W: Write + Send + Drop,
    E: Write + Send + Drop,
>(
    rt: &'x R,
    shared: &'x Shared<L, E>,
    ports: &'x [Port<L>],
    consoles: Option<&'x Consoles<L>>,
    terminal: &'x Mutex<Terminal<L, I, W>>,
) -> Result<(), ReplayFault> {
    thread::scope(thread::scope_env(), rt, move |scope| {
        for port in ports {
            if scope.spawn(move || accept_links(rt, shared, port)).is_err() {
                close_port(rt, shared, port);
            }
        }
        run_watch(rt, shared, ports, consoles, terminal)
    })
}

/// Answers the lines of the operator while the ports write to their links, and ends these threads.
fn run_writers<
    'x,
    L: Ledger + Send + Sync,
    R: PeersSource
        + Wait
        + Threads
        + Clock
        + Sync
        + Net<Stream = TcpStream, Listener = TcpListener>,
    I: BufRead + Send + Drop,
    W: Write + Send + Drop,
    E: Write + Send + Drop,
>(
    rt: &'x R,
    shared: &'x Shared<L, E>,
    ports: &'x [Port<L>],
    consoles: Option<&'x Consoles<L>>,
    terminal: &'x Mutex<Terminal<L, I, W>>,
) -> Result<(), ReplayFault> {
    thread::scope(thread::scope_env(), rt, move |scope| {
        for port in ports {
            if scope.spawn(move || write_links(rt, shared, port)).is_err() {
                close_port(rt, shared, port);
            }
        }
        run_acceptors(rt, shared, ports, consoles, terminal)
    })
}

/// Answers the lines of the operator while the ports serve their links, and ends these threads.
fn run_readers<
    'x,
    L: Ledger + Send + Sync,
    R: PeersSource
        + Wait
        + Threads
        + Clock
        + Sync
        + Net<Stream = TcpStream, Listener = TcpListener>,
    I: BufRead + Send + Drop,
    W: Write + Send + Drop,
    E: Write + Send + Drop,
>(
    rt: &'x R,
    shared: &'x Shared<L, E>,
    ports: &'x [Port<L>],
    consoles: Option<&'x Consoles<L>>,
    terminal: &'x Mutex<Terminal<L, I, W>>,
) -> Result<(), ReplayFault> {
    thread::scope(thread::scope_env(), rt, move |scope| {
        for port in ports {
            if scope.spawn(move || read_links(rt, shared, port)).is_err() {
                close_port(rt, shared, port);
            }
        }
        run_writers(rt, shared, ports, consoles, terminal)
    })
}

/// Answers the lines of the operator while the ports serve their links, and what happens to links is said by a thread of its own,
/// or at the end, where that can't be started. Ends all threads.
fn run_threads<
    'x,
    L: Ledger + Send + Sync,
    R: PeersSource
        + Wait
        + Threads
        + Clock
        + Sync
        + Net<Stream = TcpStream, Listener = TcpListener>,
    I: BufRead + Send + Drop,
    W: Write + Send + Drop,
    E: Write + Send + Drop,
>(
    rt: &'x R,
    shared: &'x Shared<L, E>,
    ports: &'x [Port<L>],
    consoles: Option<&'x Consoles<L>>,
    terminal: &'x Mutex<Terminal<L, I, W>>,
) -> Result<(), ReplayFault> {
    thread::scope(thread::scope_env(), rt, move |scope| {
        let _ = scope.spawn(move || shared.errors.say_lines(rt, shared.alloc, shared));
        let result = run_readers(rt, shared, ports, consoles, terminal);
        shared.errors.close(rt);
        result
    })
}

/// Answers the lines of the operator while a thread keeps the journal in its file, and ends all threads. Where it couldn't be started,
/// nothing is answered.
fn run_kept<
    'x,
    L: Ledger + Send + Sync,
    R: PeersSource
        + Wait
        + Threads
        + Clock
        + Sync
        + Net<Stream = TcpStream, Listener = TcpListener>,
    I: BufRead + Send + Drop,
    W: Write + Send + Drop,
    E: Write + Send + Drop,
>(
    rt: &'x R,
    shared: &'x Shared<L, E>,
    is_kept: bool,
    consoles: Option<&'x Consoles<L>>,
    terminal: &'x Mutex<Terminal<L, I, W>>,
) -> Result<(), ReplayFault> {
    if !is_kept {
        return Err(ReplayFault::Memory);
    }
    let result = run_threads(rt, shared, shared.ports.as_slice(), consoles, terminal);
    shared.end_keeping(rt);
    result
}

/// Answers the lines of the operator while the journal is kept in its file, where it is, and ends all threads. Where no thread can be
/// started for that, nothing is answered.
pub(crate) fn run_keeper<
    'x,
    L: Ledger + Send + Sync,
    R: PeersSource
        + Wait
        + Threads
        + Clock
        + Sync
        + Net<Stream = TcpStream, Listener = TcpListener>,
    I: BufRead + Send + Drop,
    W: Write + Send + Drop,
    E: Write + Send + Drop,
>(
    rt: &'x R,
    shared: &'x Shared<L, E>,
    keeper: Option<Keeper<DiskFile>>,
    consoles: Option<&'x Consoles<L>>,
    terminal: &'x Mutex<Terminal<L, I, W>>,
) -> Result<(), ReplayFault> {
    let Some(keeper) = keeper else {
        return run_threads(rt, shared, shared.ports.as_slice(), consoles, terminal);
    };
    thread::scope(thread::scope_env(), rt, move |scope| {
        let is_kept = scope.spawn(move || keep(rt, shared, keeper)).is_ok();
        run_kept(rt, shared, is_kept, consoles, terminal)
    })
}
