//! What no clause says of the desks of operators: that they let go of their receipts of folded entries.

ghost use Rattle.std.specs.Prelude.{◌≡◌};

use crate::checks::same;
use crate::given_consoles::{desks_of, opened, serves};
use crate::given_office::{bsc, edits, opens};
use crate::given_program::GivenProgram;
use centre_events::network::Network;
use console_text::ReplayFault;
use coverage_plan::Edit;
use office::desk::Desk;
use office::office::Office;
use server_consoles::{Consoles, close_socket};
use server_operator::{Leaving, Operator, Terminal, operate};
use std::alloc::Global;
use std::fs::Files;
use std::marker::Brand;
use std::net::Net;
use std::process::Abort;
use std::sync::ledger::{Blank, Ledger};
use std::sync::{Mutex, Wait};
use std::time::Clock;

/// The network of the offices.
const NETWORK: Network = Network {
    plmn: [0x00, 0xf1, 0x10],
    broadcasts: 0,
};

/// Three BSCs are registered at the desk, and these entries are folded.
fn folds_three<L: Ledger, R: Wait + Abort>(rt: &R, office: &Office<L>, desk: &mut Desk<L>) {
    for number in 1..4 {
        edits(rt, office, desk, Edit::AddBsc(bsc(rt, number)));
    }
    same(rt, office.checkpoint(rt), Ok(3), "they are folded");
    same(rt, desk.receipts().len(), 3, "the desk has their receipts");
}

/// Answers a line at the desk that enters a fourth, and one that enters nothing. The answer is how many receipts the desk has then.
fn held_after_lines<L: Ledger, R: Wait + Clock + Abort>(
    rt: &R,
    alloc: Global,
    office: &Office<L>,
    desk: Desk<L>,
) -> usize {
    let server = GivenProgram::new();
    let operator = Operator {
        alloc,
        office,
        server: &server,
        may_watch: false,
    };
    let terminal = Mutex::new(Terminal {
        reader: b"bsc add 9\nbsc add 9\n".as_slice(),
        writer: Vec::new(alloc),
        desk: Some(desk),
    });
    let ended: Result<Leaving, ReplayFault> = operate(rt, &operator, &terminal);
    same(rt, ended, Ok(Leaving::Ended), "its lines end");
    let terminal = terminal.lock(rt);
    match terminal.desk.as_ref() {
        Some(desk) => desk.receipts().len(),
        None => usize::MAX,
    }
}

/// The same after three entries that are folded.
fn answers<L: Ledger, R: Wait + Clock + Abort>(rt: &R, alloc: Global, blank: Blank) -> usize
    requires name { blank.name ≡ L.name }
    requires parts { blank.parts ≡ L.parts }
    requires desks { blank.parts ≡ 1025 }
{
    let office: Office<L> = Office::new(alloc, blank, NETWORK, 1000);
    let mut desk = opens(rt, &office);
    folds_three(rt, &office, &mut desk);
    let held = held_after_lines(rt, alloc, &office, desk);
    drop(office);
    held
}

#[test]
fn the_desk_of_an_operator_lets_go_of_folded_receipts(rt: HostRuntime) {
    let held = answers::<Brand, _>(&rt, rt.alloc(), Blank::new(1025));
    same(&rt, held, 1, "the receipt of the fourth alone");
}

/// The desk of the console gets the receipts of three entries, which are folded.
fn fills<L: Ledger, R: Wait + Abort>(rt: &R, office: &Office<L>, consoles: &Consoles<L>) {
    for console in &consoles.consoles {
        let mut held = console.desk.lock(rt);
        if let Some(desk) = held.as_mut() {
            folds_three(rt, office, desk);
        }
    }
}

/// How many receipts the desks have.
fn receipts_in<L: Ledger>(desks: &[Desk<L>]) -> usize {
    let mut count = 0usize;
    for desk in desks {
        count = count.saturating_add(desk.receipts().len());
    }
    count
}

/// A console whose thread begins when the consoles are closing already. The answer is how many receipts its desk has then.
fn held_when_idle<L: Ledger, R: Wait + Clock + Files + Net + Abort>(
    rt: &R,
    alloc: Global,
    office: &Office<L>,
) -> usize {
    let path = "consoles-at-rest";
    let consoles = opened(rt, alloc, office, path, 1);
    let program = GivenProgram::new();
    fills(rt, office, &consoles);
    consoles.close(rt);
    serves(rt, alloc, office, &program, &consoles, 0);
    close_socket(rt, path);
    let desks = desks_of(rt, alloc, &consoles);
    drop(consoles);
    receipts_in(desks.as_slice())
}

/// The same at an office of its own.
fn rests<L: Ledger, R: Wait + Clock + Files + Net + Abort>(
    rt: &R,
    alloc: Global,
    blank: Blank,
) -> usize
    requires name { blank.name ≡ L.name }
    requires parts { blank.parts ≡ L.parts }
    requires desks { blank.parts ≡ 1025 }
{
    let office: Office<L> = Office::new(alloc, blank, NETWORK, 1000);
    let held = held_when_idle(rt, alloc, &office);
    drop(office);
    held
}

#[test]
fn the_desk_of_a_console_lets_go_of_folded_receipts(rt: HostRuntime) {
    let held = rests::<Brand, _>(&rt, rt.alloc(), Blank::new(1025));
    same(&rt, held, 0, "no receipt");
}
