//! What no clause says of a console that follows the journal while the program ends: that it ends too, whatever it is at.

ghost use Rattle.std.specs.Prelude.{◌≡◌};

use crate::checks::yes;
use crate::given_consoles::{desks_of, opened, serves_all};
use crate::given_office::{bsc, edits, opens};
use crate::given_program::GivenProgram;
use centre_events::network::Network;
use coverage_plan::Edit;
use office::desk::Desk;
use office::office::Office;
use server_consoles::{Consoles, Program, close_socket};
use std::alloc::Global;
use std::fs::Files;
use std::io::Write;
use std::marker::Brand;
use std::net::Net;
use std::os::unix::net::UnixStream;
use std::process::Abort;
use std::sync::Wait;
use std::sync::ledger::{Blank, Ledger};
use std::thread;
use std::thread::Threads;
use std::time::{Clock, Duration};

const PATH: &str = "consoles-that-follow";

/// The network of the office.
const NETWORK: Network = Network {
    plmn: [0x00, 0xf1, 0x10],
    broadcasts: 0,
};

/// The most BSCs that are registered until the console is told of one.
const MOST_BSCS: u16 = 250;

/// Registers BSCs until the console is to be told of one, which waits since that isn't kept. The answer is the number of the last.
fn enters_until_asked<L: Ledger, R: Wait + Clock + Abort>(
    rt: &R,
    office: &Office<L>,
    desk: &mut Desk<L>,
    program: &GivenProgram,
) -> u16 {
    for number in 1..MOST_BSCS {
        edits(rt, office, desk, Edit::AddBsc(bsc(rt, number)));
        thread::sleep(rt, Duration::from_millis(100));
        if program.is_asked() {
            return number;
        }
    }
    MOST_BSCS
}

/// A console follows the journal. While it waits for an entry to be kept another is entered, and the program is told to end.
fn ends_meanwhile<L: Ledger, R: Wait + Clock + Net + Abort>(
    rt: &R,
    office: &Office<L>,
    desk: &mut Desk<L>,
    program: &GivenProgram,
    consoles: &Consoles<L>,
) -> UnixStream {
    program.hold(rt, true);
    let mut stream = UnixStream::connect(rt, PATH).expect(rt, "it is connected");
    stream.write_all(b"watch\n").expect(rt, "it is sent");
    let last = enters_until_asked(rt, office, desk, program);
    yes(rt, last < MOST_BSCS, "the console is told of an entry");
    let next = bsc(rt, last.saturating_add(1));
    edits(rt, office, desk, Edit::AddBsc(next));
    program.end(rt);
    office.interrupt(rt);
    program.hold(rt, false);
    consoles.close(rt);
    consoles.finish(rt);
    stream
}

/// The console is served meanwhile, until it has ended.
fn serves_meanwhile<'x, L: Ledger + Send + Sync, R: Wait + Threads + Clock + Net + Abort + Sync>(
    rt: &'x R,
    alloc: Global,
    office: &'x Office<L>,
    desk: &'x mut Desk<L>,
    program: &'x GivenProgram,
    consoles: &'x Consoles<L>,
) {
    let stream = thread::scope(thread::scope_env(), rt, move |scope| {
        let is_started = scope
            .spawn(move || serves_all(rt, alloc, office, program, consoles))
            .is_ok();
        yes(rt, is_started, "consoles are served");
        ends_meanwhile(rt, office, desk, program, consoles)
    });
    drop(stream);
}

/// The same over an office.
fn follows<L: Ledger + Send + Sync, R: Wait + Threads + Clock + Files + Net + Abort + Sync>(
    rt: &R,
    alloc: Global,
    blank: Blank,
)
    requires name { blank.name ≡ L.name }
    requires parts { blank.parts ≡ L.parts }
    requires desks { blank.parts ≡ 1025 }
{
    let office: Office<L> = Office::new(alloc, blank, NETWORK, 1000);
    let consoles = opened(rt, alloc, &office, PATH, 1);
    let mut desk = opens(rt, &office);
    let program = GivenProgram::new();
    serves_meanwhile(rt, alloc, &office, &mut desk, &program, &consoles);
    close_socket(rt, PATH);
    drop(desks_of(rt, alloc, &consoles));
    drop(consoles);
    drop(desk);
    drop(office);
}

#[test]
fn a_console_that_follows_ends_with_the_program(rt: HostRuntime) {
    follows::<Brand, _>(&rt, rt.alloc(), Blank::new(1025));
}
