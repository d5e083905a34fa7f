//! A run of the server.

ghost use Rattle.std.specs.Prelude.{◌≡◌};

use crate::consoles::{close_consoles_file, open_console_desks, open_consoles};
use crate::desks::desks_of;
use crate::journal::{begin_journal, open_journal};
use crate::kept_file::tell_failed;
use crate::looking::{Looking, open_looking, open_looking_desk, run_looking};
use crate::occasions::tell_begin;
use crate::ports::{Opened, open_desks, open_ports};
use crate::settling::settle;
use console_text::{ReplayFault, fault_words};
use journal_file::DiskFile;
use journal_keeper::{Keeper, Kept};
use link_rules::FoldPace;
use office::desk::Desk;
use office::office::Office;
use server_consoles::Consoles;
use server_errors::Errors;
use server_links::{BroadcastWatch, HeavyTurn, LinkOptions, Shared, second_of};
use server_operator::Terminal;
use server_options::{OptionsFault, PeersSource, ServeFault, ServeOptions, read_options};
use std::alloc::Global;
use std::fs::{File, Files};
use std::io::{BufRead, Write};
use std::marker::Brand;
use std::net::{Net, TcpListener, TcpStream};
use std::sync::ledger::{Blank, Ledger};
use std::sync::{Condvar, Mutex, Wait};
use std::thread::Threads;
use std::time::Clock;

/// Serves until the lines of the operators end, from desks of the ports and the consoles.
fn run_from_desks<
    L: Ledger + Send + Sync,
    R: Files
        + PeersSource
        + Wait
        + Threads
        + Clock
        + Sync
        + Net<Stream = TcpStream, Listener = TcpListener>,
    I: BufRead + Send + Drop,
    W: Write + Send + Drop,
    E: Write + Send + Drop,
>(
    rt: &R,
    shared: &Shared<L, E>,
    keeper: Option<Keeper<DiskFile>>,
    looking: Option<&Looking<L>>,
    consoles: Option<&Consoles<L>>,
    terminal: &Mutex<Terminal<L, I, W>>,
) -> Result<(), ServeFault> {
    open_desks(rt, &shared.office, shared.ports.as_slice())?;
    open_console_desks(rt, &shared.office, consoles)?;
    open_looking_desk(rt, &shared.office, looking)?;
    match run_looking(rt, shared, looking, keeper, consoles, terminal) {
        Ok(()) => {}
        Err(fault) => return Err(ServeFault::Lines(fault)),
    }
    if shared.has_failed(rt) {
        return Err(ServeFault::Journal);
    }
    Ok(())
}

/// Opens the desks, goes on from the file of the journal, where one is given, serves until the lines of the operators end, and hands in
/// the desks.
fn run_desks<
    L: Ledger + Send + Sync,
    R: Files
        + PeersSource
        + Wait
        + Threads
        + Clock
        + Sync
        + Net<Stream = TcpStream, Listener = TcpListener>,
    I: BufRead + Send + Drop,
    W: Write + Send + Drop,
    E: Write + Send + Drop,
>(
    rt: &R,
    options: &ServeOptions,
    shared: &Shared<L, E>,
    file: Option<DiskFile>,
    looking: Option<&Looking<L>>,
    consoles: Option<&Consoles<L>>,
    terminal: &Mutex<Terminal<L, I, W>>,
) -> Result<Vec<Desk<L>>, ServeFault> {
    let keeper = begin_journal(rt, options, shared, file, terminal)?;
    let ran = run_from_desks(rt, shared, keeper, looking, consoles, terminal);
    tell_failed(rt, options, shared);
    ran?;
    desks_of(rt, shared, looking, consoles, terminal)
}

/// What is open before the threads of a run begin.
#[derive(Drop)]
struct Begun<L: Ledger> {
    file: Option<DiskFile>,
    opened: Opened<L>,
    looking: Option<Looking<L>>,
    consoles: Option<Consoles<L>>,
}

/// Opens the file of the journal, the ports, that of the page and the socket file of the consoles, in this order.
fn open_all<
    L: Ledger,
    R: Files<File = File> + Wait + Clock + Net<Stream = TcpStream, Listener = TcpListener>,
    E: Write + Drop,
>(
    rt: &R,
    alloc: Global,
    options: &ServeOptions,
    errors: &Errors<E>,
) -> Result<Begun<L>, ServeFault> {
    tell_begin(rt, alloc, options, errors);
    let file = open_journal(rt, alloc, options, errors)?;
    let opened = open_ports(rt, alloc, options, errors)?;
    let looking = open_looking(rt, alloc, options, errors)?;
    let consoles = open_consoles(rt, alloc, options, errors)?;
    Ok(Begun {
        file,
        opened,
        looking,
        consoles,
    })
}

/// Settles the office once its threads have ended, and writes how many entries there are. Where there are consoles, nothing comes of a
/// standard output that can't be written. At a fault it hands back where to say it.
fn end<L: Ledger, R: Wait, I: BufRead + Drop, W: Write + Drop, E: Write + Drop>(
    rt: &R,
    options: &ServeOptions,
    shared: Shared<L, E>,
    terminal: &Mutex<Terminal<L, I, W>>,
    ended: Result<Vec<Desk<L>>, ServeFault>,
) -> Result<(), (Errors<E>, ServeFault)> {
    let Shared {
        alloc,
        office,
        ports,
        errors,
        options: _,
        folds: _,
        heavy_turn: _,
        broadcasts: _,
        kept: _,
        with_simulator: _,
        closing: _,
        closed: _,
    } = shared;
    drop(ports);
    let settled = match ended {
        Ok(desks) => settle(alloc, office, desks, &mut terminal.lock(rt).writer),
        Err(fault) => Err(fault),
    };
    match settled {
        Ok(()) => Ok(()),
        Err(ServeFault::Lines(ReplayFault::WriteFault)) if options.console.is_some() => Ok(()),
        Err(fault) => Err((errors, fault)),
    }
}

/// What the threads of a server share.
fn shared_of<L: Ledger, E: Drop>(
    blank: Blank,
    options: &ServeOptions,
    opened: Opened<L>,
    errors: Errors<E>,
    alloc: Global,
    begun: u64,
) -> Shared<L, E>
    requires name { blank.name ≡ L.name }
    requires parts { blank.parts ≡ L.parts }
    requires desks { blank.parts ≡ 1025 }
{
    let Opened {
        ports,
        peers,
        peers_file,
    } = opened;
    Shared {
        alloc,
        office: Office::new(alloc, blank, options.network, options.journal_limit),
        ports,
        errors,
        options: LinkOptions {
            plmn: options.network.plmn,
            reset: options.reset,
            reply_seconds: options.reply_seconds,
            cut_seconds: options.cut_seconds,
            alive_seconds: options.alive_seconds,
            query_ms: options.query_ms,
            queries_per_second: options.queries_per_second,
            peers: Mutex::new(peers),
            peers_file,
        },
        folds: Mutex::new(FoldPace::new(options.fold, options.journal_limit)),
        heavy_turn: HeavyTurn::new(),
        broadcasts: BroadcastWatch::new(alloc, options.network, begun),
        kept: options.keep.as_ref().map(|_file| Kept::new()),
        with_simulator: options.with_simulator,
        closing: Mutex::new(false),
        closed: Condvar::new(),
    }
}

/// Serves over an office of what is open, and settles it.
fn run_begun<
    L: Ledger + Send + Sync,
    R: Files
        + PeersSource
        + Wait
        + Threads
        + Clock
        + Sync
        + Net<Stream = TcpStream, Listener = TcpListener>,
    I: BufRead + Send + Drop,
    W: Write + Send + Drop,
    E: Write + Send + Drop,
>(
    rt: &R,
    blank: Blank,
    options: &ServeOptions,
    begun: Begun<L>,
    reader: I,
    writer: W,
    errors: Errors<E>,
    alloc: Global,
) -> Result<(), (Errors<E>, ServeFault)>
    requires name { blank.name ≡ L.name }
    requires parts { blank.parts ≡ L.parts }
    requires desks { blank.parts ≡ 1025 }
{
    let Begun {
        file,
        opened,
        looking,
        consoles,
    } = begun;
    let shared = shared_of(blank, options, opened, errors, alloc, second_of(rt));
    let terminal: Mutex<Terminal<L, I, W>> = Mutex::new(Terminal {
        reader,
        writer,
        desk: None,
    });
    let (looked, consoled) = (looking.as_ref(), consoles.as_ref());
    let ended = run_desks(rt, options, &shared, file, looked, consoled, &terminal);
    close_consoles_file(rt, options);
    drop(looking);
    drop(consoles);
    end(rt, options, shared, &terminal, ended)
}

/// Serves over an office, settles it, and writes how many entries there are. At a fault it hands back where to say it.
fn run<
    L: Ledger + Send + Sync,
    R: Files<File = File>
        + PeersSource
        + Wait
        + Threads
        + Clock
        + Sync
        + Net<Stream = TcpStream, Listener = TcpListener>,
    I: BufRead + Send + Drop,
    W: Write + Send + Drop,
    E: Write + Send + Drop,
>(
    rt: &R,
    alloc: Global,
    blank: Blank,
    options: &ServeOptions,
    reader: I,
    writer: W,
    errors: Errors<E>,
) -> Result<(), (Errors<E>, ServeFault)>
    requires name { blank.name ≡ L.name }
    requires parts { blank.parts ≡ L.parts }
    requires desks { blank.parts ≡ 1025 }
{
    let begun: Result<Begun<L>, ServeFault> = open_all(rt, alloc, options, &errors);
    match begun {
        Ok(begun) => run_begun(rt, blank, options, begun, reader, writer, errors, alloc),
        Err(fault) => Err((errors, fault)),
    }
}

/// Serves over an office of its own.
fn run_office<
    R: Files<File = File>
        + PeersSource
        + Wait
        + Threads
        + Clock
        + Sync
        + Net<Stream = TcpStream, Listener = TcpListener>,
    I: BufRead + Send + Drop,
    W: Write + Send + Drop,
    E: Write + Send + Drop,
>(
    rt: &R,
    alloc: Global,
    options: &ServeOptions,
    reader: I,
    writer: W,
    errors: Errors<E>,
) -> Result<(), (Errors<E>, ServeFault)> {
    run::<Brand, R, I, W, E>(rt, alloc, Blank::new(1025), options, reader, writer, errors)
}

/// Answers the lines that the reader gives, one after another, while BSCs connect to the ports, until `quit` or the
/// end of the input. Then the links are closed, and `settled N` is written, N the number of entries.
///
/// `errors` gets a line that says what is listened on, and one for each link that comes up, is refused or ends, for a BSC whose
/// orders are held back, for each BSC that has no port or is down while a warning that it may have on air is stopped or updated, and
/// for each port that can't be listened on or is closed since a thread of it can't be started. Each line begins with the UTC time.
/// The answer is the exit status: 0, or that of a fault, which is said there as `cbc: ` and its words. 3 is `peers fault`, where the
/// file of peers can't be read or has a bad line, `not a journal` and `journal line N`. 4 is `journal of another network` and
/// `journal of N broadcasts, not of M`. 5 is `journal read fault` or `journal fault`, where the file of the journal can't be read or
/// fails, and `listen fault`, where a port can't be listened on. 1 is `journal in use`, `settle fault`, or what ended the lines: `read
/// fault`, `write fault`, `line too long` or `out of memory`.
pub fn serve<
    R: Files<File = File>
        + PeersSource
        + Wait
        + Threads
        + Clock
        + Sync
        + Net<Stream = TcpStream, Listener = TcpListener>,
    I: BufRead + Send + Drop,
    W: Write + Send + Drop,
    E: Write + Send + Drop,
>(rt: &R, alloc: Global, options: &ServeOptions, reader: I, writer: W, errors: E) -> u8 {
    match run_office(
        rt,
        alloc,
        options,
        reader,
        writer,
        Errors::with_levels(alloc, errors, options.has_levels),
    ) {
        Ok(()) => 0,
        Err((errors, fault)) => {
            errors.say_last(rt, alloc, fault.words());
            fault.status()
        }
    }
}

/// Runs the server with the options in the words of a command line, as `serve` does. The words are to ask for the server:
/// `console::run` answers `None` for them. `has_levels` is whether a system log reads standard error, so that each line begins with its
/// level. Of other words it says `cbc: out of memory`, and the status is 1. The status is 2
/// where the network, the ports or the address of the page are bad: `cbc: bad plmn`, `cbc: bad ports` or `cbc: bad http` is said then.
pub fn serve_words<
    R: Files<File = File>
        + PeersSource
        + Wait
        + Threads
        + Clock
        + Sync
        + Net<Stream = TcpStream, Listener = TcpListener>,
    I: BufRead + Send + Drop,
    W: Write + Send + Drop,
    E: Write + Send + Drop,
>(
    rt: &R,
    alloc: Global,
    words: &[String],
    has_levels: bool,
    reader: I,
    writer: W,
    mut errors: E,
) -> u8 {
    let (status, text) = match read_options(alloc, words) {
        Ok(mut options) => {
            options.has_levels = has_levels;
            return serve(rt, alloc, &options, reader, writer, errors);
        }
        Err(OptionsFault::BadPlmn) => (2, b"cbc: bad plmn\n".as_slice()),
        Err(OptionsFault::BadPorts) => (2, b"cbc: bad ports\n".as_slice()),
        Err(OptionsFault::BadHttp) => (2, b"cbc: bad http\n".as_slice()),
        Err(OptionsFault::Memory) => (1, fault_words(ReplayFault::Memory)),
    };
    let _ = errors.write_all(text);
    status
}
