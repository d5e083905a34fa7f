//! The page for those who only look: opened, and its thread.

use crate::picturing::RunningPictures;
use crate::ports::{open_desk, push};
use crate::threads::run_keeper;
use console_text::ReplayFault;
use journal_file::DiskFile;
use journal_keeper::Keeper;
use office::desk::Desk;
use office::office::Office;
use server_consoles::Consoles;
use server_errors::{Errors, Level, say_of_centre, say_of_centre_at};
use server_http::{HttpPort, serve_http};
use server_links::Shared;
use server_operator::Terminal;
use server_options::{PeersSource, ServeFault, ServeOptions};
use std::alloc::Global;
use std::fs::{File, Files, OpenOptions};
use std::io::{BufRead, Write};
use std::net::{Net, TcpListener, TcpStream};
use std::sync::ledger::Ledger;
use std::sync::{Mutex, Wait};
use std::thread;
use std::thread::Threads;
use std::time::Clock;

/// Where Linux says how much memory the program takes.
const STATUS: &str = "/proc/self/status";

const UNSERVED: &str = "no thread can be started: the page isn't served";

/// The page, where it is asked for.
#[derive(Drop)]
pub(crate) struct Looking<L: Ledger> {
    pub(crate) port: HttpPort,
    /// The desk whose questions are asked for the page. It submits nothing.
    pub(crate) desk: Mutex<Option<Desk<L>>>,
    /// Where the system says how much memory the program takes.
    pub(crate) status: Mutex<Option<File>>,
}

/// Listens for those who look, where they are asked for. It is said where, or what is wrong.
pub(crate) fn open_looking<
    L: Ledger,
    R: Files<File = File> + Wait + Clock + Net<Stream = TcpStream, Listener = TcpListener>,
    E: Write + Drop,
>(
    rt: &R,
    alloc: Global,
    options: &ServeOptions,
    errors: &Errors<E>,
) -> Result<Option<Looking<L>>, ServeFault> {
    let Some(address) = &options.http else {
        return Ok(None);
    };
    match HttpPort::open(rt, address.as_str()) {
        Ok(port) => {
            if let Ok(text) = format!(in alloc; "page: http://{}/", port.address) {
                say_of_centre(rt, alloc, errors, text);
            }
            let status = OpenOptions::new().read(true).open(rt, STATUS).ok();
            Ok(Some(Looking {
                port,
                desk: Mutex::new(None),
                status: Mutex::new(status),
            }))
        }
        Err(error) => {
            if let Ok(text) = format!(in alloc; "no page at {address}: {error}") {
                say_of_centre_at(rt, alloc, errors, Level::Error, text);
            }
            Err(ServeFault::Listen)
        }
    }
}

/// Gives the page its desk.
pub(crate) fn open_looking_desk<L: Ledger, R: Wait>(
    rt: &R,
    office: &Office<L>,
    looking: Option<&Looking<L>>,
) -> Result<(), ServeFault> {
    if let Some(looking) = looking {
        *looking.desk.lock(rt) = Some(open_desk(rt, office)?);
    }
    Ok(())
}

/// Hands in the desk of the page.
pub(crate) fn hand_in_looking<L: Ledger, R: Wait>(
    rt: &R,
    looking: Option<&Looking<L>>,
    desks: &mut Vec<Desk<L>>,
) -> Result<(), ServeFault> {
    if let Some(looking) = looking {
        if let Some(desk) = looking.desk.lock(rt).take() {
            push(desks, desk)?;
        }
    }
    Ok(())
}

/// Answers the lines of the operators while the page is served, where it is, and ends all threads.
pub(crate) fn run_looking<
    'x,
    L: Ledger + Send + Sync,
    R: PeersSource
        + Wait
        + Threads
        + Clock
        + Sync
        + Net<Stream = TcpStream, Listener = TcpListener>,
    I: BufRead + Send + Drop,
    W: Write + Send + Drop,
    E: Write + Send + Drop,
>(
    rt: &'x R,
    shared: &'x Shared<L, E>,
    looking: Option<&'x Looking<L>>,
    keeper: Option<Keeper<DiskFile>>,
    consoles: Option<&'x Consoles<L>>,
    terminal: &'x Mutex<Terminal<L, I, W>>,
) -> Result<(), ReplayFault> {
    let Some(looking) = looking else {
        return run_keeper(rt, shared, keeper, consoles, terminal);
    };
    thread::scope(thread::scope_env(), rt, move |scope| {
        if scope
            .spawn(move || serve_page(rt, shared, looking))
            .is_err()
        {
            let level = Level::Warning;
            say_of_centre_at(rt, shared.alloc, &shared.errors, level, UNSERVED);
        }
        let result = run_keeper(rt, shared, keeper, consoles, terminal);
        looking.port.close();
        result
    })
}

/// Serves the page until its port is closing.
fn serve_page<L: Ledger, E: Write + Drop, R: Wait + Clock>(
    rt: &R,
    shared: &Shared<L, E>,
    looking: &Looking<L>,
) {
    let pictures = RunningPictures {
        shared,
        desk: &looking.desk,
        status: &looking.status,
    };
    serve_http(rt, shared.alloc, &looking.port, &pictures);
}
