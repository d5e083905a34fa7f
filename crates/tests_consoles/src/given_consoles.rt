//! Consoles that are served while a script is played.

ghost use Rattle.std.specs.Prelude.{◌≡◌};

use crate::checks::yes;
use crate::given_program::GivenProgram;
use crate::scripts::{MOST, Script, Step, plays};
use centre_events::network::Network;
use office::desk::Desk;
use office::fault::Fault;
use office::office::Office;
use server_consoles::{
    Consoles, Program, accept_consoles, close_socket, open_socket, serve_console,
};
use server_operator::Operator;
use std::alloc::Global;
use std::fs::Files;
use std::marker::Brand;
use std::net::Net;
use std::os::unix::net::UnixStream;
use std::process::Abort;
use std::sync::Wait;
use std::sync::ledger::{Blank, Ledger};
use std::thread::Threads;
use std::time::Clock;
use std::{fs, thread};

const NETWORK: Network = Network {
    plmn: [0x00, 0xf1, 0x10],
    broadcasts: 0,
};

/// Serves one of the consoles.
pub(crate) fn serves<L: Ledger, R: Wait + Clock>(
    rt: &R,
    alloc: Global,
    office: &Office<L>,
    program: &GivenProgram,
    consoles: &Consoles<L>,
    slot: usize,
) {
    let operator = Operator {
        alloc,
        office,
        server: program,
        may_watch: true,
    };
    serve_console(rt, &operator, consoles, slot);
}

/// Takes their connections.
fn accepts<L: Ledger, R: Wait + Clock>(
    rt: &R,
    alloc: Global,
    office: &Office<L>,
    program: &GivenProgram,
    consoles: &Consoles<L>,
) {
    let operator = Operator {
        alloc,
        office,
        server: program,
        may_watch: true,
    };
    accept_consoles(rt, &operator, consoles);
}

/// The script is played, and then all threads are to end. The answer is the connections that are open still.
fn plays_on<L: Ledger, R: Wait + Clock + Net + Abort>(
    rt: &R,
    office: &Office<L>,
    program: &GivenProgram,
    consoles: &Consoles<L>,
    path: &str,
    steps: &[Step],
) -> [Option<UnixStream>; MOST] {
    let streams = plays(rt, path, steps);
    program.end(rt);
    consoles.close(rt);
    office.interrupt(rt);
    consoles.finish(rt);
    streams
}

/// Serves the consoles, and takes their connections, until they are closed.
pub(crate) fn serves_all<'x, L: Ledger + Send + Sync, R: Wait + Threads + Clock + Sync>(
    rt: &'x R,
    alloc: Global,
    office: &'x Office<L>,
    program: &'x GivenProgram,
    consoles: &'x Consoles<L>,
) {
    thread::scope(thread::scope_env(), rt, move |scope| {
        for slot in 0..consoles.consoles.len() {
            let is_started = scope
                .spawn(move || serves(rt, alloc, office, program, consoles, slot))
                .is_ok();
            if !is_started || consoles.begin(rt).is_err() {
                break;
            }
        }
        accepts(rt, alloc, office, program, consoles);
    });
}

/// Serves the consoles while the script is played. The connections that it leaves open are closed once all threads have ended.
fn runs<'x, L: Ledger + Send + Sync, R: Wait + Threads + Clock + Net + Abort + Sync>(
    rt: &'x R,
    alloc: Global,
    office: &'x Office<L>,
    program: &'x GivenProgram,
    consoles: &'x Consoles<L>,
    path: &'x str,
    steps: &'x [Step],
) {
    let streams = thread::scope(thread::scope_env(), rt, move |scope| {
        let is_started = scope
            .spawn(move || serves_all(rt, alloc, office, program, consoles))
            .is_ok();
        yes(rt, is_started, "consoles are served");
        plays_on(rt, office, program, consoles, path, steps)
    });
    drop(streams);
}

/// Takes the desks of the consoles.
pub(crate) fn desks_of<L: Ledger, R: Wait + Abort>(
    rt: &R,
    alloc: Global,
    consoles: &Consoles<L>,
) -> Vec<Desk<L>> {
    let mut desks = Vec::new(alloc);
    for console in &consoles.consoles {
        let desk = console.desk.lock(rt).take();
        desks
            .push(desk.expect(rt, "the desk is there again"))
            .expect(rt, "memory");
    }
    desks
}

/// The number of entries, where the desks settle; else the fault.
fn settled<L: Ledger>(office: Office<L>, desks: Vec<Desk<L>>) -> Result<u64, Fault> {
    match office.settle(desks) {
        Ok(centre) => {
            let position = centre.position();
            drop(centre);
            Ok(position)
        }
        Err(unsettled) => {
            let fault = unsettled.fault;
            drop(unsettled);
            Err(fault)
        }
    }
}

/// So many consoles at that socket file, each with its desk.
pub(crate) fn opened<L: Ledger, R: Wait + Files + Net + Abort>(
    rt: &R,
    alloc: Global,
    office: &Office<L>,
    path: &str,
    count: u32,
) -> Consoles<L> {
    let _ = fs::remove_file(rt, path);
    let listener = open_socket(rt, path).expect(rt, "the socket file is made");
    let consoles = Consoles::new(alloc, listener, count).expect(rt, "memory");
    for console in &consoles.consoles {
        let desk = office.open_desk(rt).expect(rt, "a desk");
        *console.desk.lock(rt) = Some(desk);
    }
    consoles
}

/// Consoles are served while the script is played. The answer is their desks.
fn desks_after<L: Ledger + Send + Sync, R: Wait + Threads + Clock + Files + Net + Abort + Sync>(
    rt: &R,
    alloc: Global,
    office: &Office<L>,
    script: &Script,
) -> Vec<Desk<L>> {
    let mut consoles = opened(rt, alloc, office, script.path, script.count);
    consoles.limit_silence(script.most_silence);
    let program = GivenProgram::new();
    runs(
        rt,
        alloc,
        office,
        &program,
        &consoles,
        script.path,
        script.steps,
    );
    close_socket(rt, script.path);
    let desks = desks_of(rt, alloc, &consoles);
    drop(consoles);
    desks
}

/// Consoles are served while the script is played. The answer is how many entries there are once the desks are settled.
fn served<L: Ledger + Send + Sync, R: Wait + Threads + Clock + Files + Net + Abort + Sync>(
    rt: &R,
    alloc: Global,
    blank: Blank,
    script: &Script,
) -> u64
    requires name { blank.name ≡ L.name }
    requires parts { blank.parts ≡ L.parts }
    requires desks { blank.parts ≡ 1025 }
{
    let office: Office<L> = Office::new(alloc, blank, NETWORK, 1000);
    let desks = desks_after(rt, alloc, &office, script);
    let entries = settled(office, desks);
    entries.expect(
        rt,
        "the receipts of the desks are the entries of the journal",
    )
}

/// The same at an office of its own.
pub(crate) fn entries_of<R: Wait + Threads + Clock + Files + Net + Abort + Sync>(
    rt: &R,
    alloc: Global,
    script: &Script,
) -> u64 {
    served::<Brand, R>(rt, alloc, Blank::new(1025), script)
}
