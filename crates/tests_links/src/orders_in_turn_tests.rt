//! What no clause says of the side of a link that writes: an order that a reply makes due is written, though nothing but the reply is
//! submitted. 1,001 cells take two orders.

ghost use Rattle.std.specs.Prelude.{◌≡◌};

use crate::checks::{same, yes};
use crate::given_events::{coast, issue};
use crate::given_link::{edits, enters, first_bsc, new_office, opens};
use areas::Selector;
use cbsp_messages::read;
use cell_register::BscId;
use centre_events::event::Event;
use centre_events::in_flight::InFlight;
use common::Cell;
use coverage_plan::Edit;
use framing::FromWrite;
use link_worker::{End, OpenGate, write_side};
use office::desk::Desk;
use office::office::Office;
use office::question::Question;
use office::seen::SeenValue;
use std::alloc::Global;
use std::marker::Brand;
use std::process::Abort;
use std::rt::Clock;
use std::sync::Wait;
use std::sync::ledger::{Blank, Ledger};
use std::thread;
use std::thread::Threads;
use std::time::Duration;

/// The generation of the link, which comes up in that entry: a BSC, its cells, an area, its one selector, and a warning come before.
const WIDE_LINK: u64 = 1006;

/// The body of a WRITE-REPLACE COMPLETE without a list: the order is done in all its cells.
const DONE: [u8; 6] = [0x0e, 0x11, 0x12, 0x03, 0xc0, 0x00];

/// How the frame of 1,000 cells begins.
const FIRST: [u8; 14] = [
    0x01, 0x00, 0x10, 0x0c, 0x0e, 0x11, 0x12, 0x03, 0xc0, 0x00, 0x04, 0x0f, 0xa1, 0x01,
];

/// How that of the last cell begins, (200, 1001).
const SECOND: [u8; 18] = [
    0x01, 0x00, 0x00, 0x70, 0x0e, 0x11, 0x12, 0x03, 0xc0, 0x00, 0x04, 0x00, 0x05, 0x01, 0x00, 0xc8,
    0x03, 0xe9,
];

/// How many octets the two frames have.
const LENGTHS: (usize, usize) = (4112, 116);

/// The cells of a location area are registered at the BSC, a warning is issued there, and the link of the BSC comes up.
fn links<L: Ledger, R: Wait + Abort>(
    rt: &R,
    alloc: Global,
    office: &Office<L>,
    desk: &mut Desk<L>,
    b: BscId,
) {
    edits(rt, office, desk, Edit::AddBsc(b));
    for ci in 1..=1001 {
        edits(rt, office, desk, Edit::AddCell(Cell { lac: 200, ci }, b));
    }
    let put = Edit::Put(coast(rt, alloc), Selector::Lac(200));
    edits(rt, office, desk, Edit::AddArea(coast(rt, alloc)));
    edits(rt, office, desk, put);
    enters(rt, office, desk, issue(rt, alloc));
    enters(rt, office, desk, Event::LinkUp(b));
}

/// How many cells the order in flight has, 0 where none is.
fn cells_in(value: &SeenValue) -> usize {
    match value {
        SeenValue::InFlight(Some(InFlight::Order(order))) => order.cells.as_slice().len(),
        _ => 0,
    }
}

/// Whether an order of so many cells comes in flight, while nothing is submitted.
fn comes<L: Ledger, R: Wait + Clock + Abort>(
    rt: &R,
    office: &Office<L>,
    desk: &Desk<L>,
    b: BscId,
    cells: usize,
) -> bool {
    for _turn in 0..30_000 {
        let seen = office
            .look(rt, desk, Question::InFlight(b))
            .expect(rt, "what is in flight");
        let found = cells_in(&seen.value);
        drop(seen);
        if found == cells {
            return true;
        }
        thread::sleep(rt, Duration::from_millis(1));
    }
    false
}

/// The BSC answers the first order, and once the second has come the link is lost. The answer is whether both came.
fn answers<L: Ledger, R: Wait + Clock + Abort>(
    rt: &R,
    alloc: Global,
    office: &Office<L>,
    mut desk: Desk<L>,
    b: BscId,
) -> (Desk<L>, bool) {
    let first = comes(rt, office, &desk, b, 1000);
    let done = read(alloc, 0x02, &DONE).expect(rt, "a message");
    enters(rt, office, &mut desk, Event::Report(b, WIDE_LINK, done));
    let second = comes(rt, office, &desk, b, 1);
    enters(rt, office, &mut desk, Event::LinkDown(b, WIDE_LINK));
    (desk, first && second)
}

/// How the side ends, and its desk and what it wrote.
fn writes<L: Ledger, R: Wait>(
    rt: &R,
    alloc: Global,
    office: &Office<L>,
    mut desk: Desk<L>,
    b: BscId,
) -> (Desk<L>, Vec<u8>, End) {
    let mut sink = FromWrite::new(Vec::new(alloc));
    let end = write_side(
        rt, alloc, office, &mut desk, b, WIDE_LINK, &mut sink, &OpenGate,
    );
    (desk, sink.into_inner(), end)
}

/// A BSC answers what the side writes, in another thread. Whether both orders came, how the side ends, and what it wrote.
fn at_once<L: Ledger + Send + Sync, R: Threads + Wait + Clock + Abort + Sync>(
    rt: &R,
    alloc: Global,
    blank: Blank,
) -> (bool, End, Vec<u8>)
    requires name { blank.name ≡ L.name }
    requires parts { blank.parts ≡ L.parts }
    requires desks { blank.parts ≡ 1025 }
{
    let b = first_bsc(rt);
    let office = new_office::<L>(alloc, blank, 2000);
    let mut desk = opens(rt, &office);
    links(rt, alloc, &office, &mut desk, b);
    let writing = opens(rt, &office);
    let shared = &office;
    let (written, answered) = thread::join(
        rt,
        move || writes(rt, alloc, shared, writing, b),
        move || answers(rt, alloc, shared, desk, b),
    );
    (answered.1, written.2, written.1)
}

/// Whether the octets are the two frames.
fn are_both(octets: &[u8]) -> bool {
    let (first, second) = LENGTHS;
    match octets.get(first..) {
        Some(rest) => {
            octets.starts_with(&FIRST) && rest.starts_with(&SECOND) && rest.len() == second
        }
        None => false,
    }
}

#[test]
fn a_reply_makes_the_next_order_due(rt: HostRuntime) {
    let (came, end, octets) = at_once::<Brand, _>(&rt, rt.alloc(), Blank::new(1025));
    yes(&rt, came, "an order doesn't come");
    same(&rt, end, End::Superseded, "another end");
    yes(&rt, are_both(&octets), "other octets");
}
