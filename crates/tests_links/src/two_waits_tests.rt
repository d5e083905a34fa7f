//! What no clause says of an office: that of two sides that wait at the same time each is woken, at two BSCs and at one.

ghost use Rattle.std.specs.Prelude.{◌≡◌};

use crate::checks::yes;
use crate::given_events::{EIGHT, SEVEN, bsc, coast, content, first_warning, issue};
use crate::given_link::{LINK, edits, enters, first_bsc, linked, opens};
use areas::Selector;
use cbsp_messages::read;
use cell_register::BscId;
use centre_events::event::Event;
use coverage_plan::Edit;
use office::desk::Desk;
use office::office::Office;
use office::wake::Wake;
use std::alloc::Global;
use std::marker::Brand;
use std::process::Abort;
use std::rt::Clock;
use std::sync::Wait;
use std::sync::atomic::{AtomicU64, Ordering};
use std::sync::ledger::{Blank, Ledger};
use std::thread;
use std::thread::Threads;
use std::time::Duration;

/// The generation of the second BSC's link, which comes up in the twelfth entry.
const SECOND_LINK: u64 = 12;

/// The body of a WRITE-REPLACE COMPLETE without a list: the order is done in all its cells.
const DONE: [u8; 6] = [0x0e, 0x11, 0x12, 0x03, 0xc0, 0x00];

/// What is done while two sides wait.
#[derive(Clone, Copy)]
enum Change {
    /// The warning is updated, which is on air at both BSCs.
    Update,
    /// It is stopped.
    Stop,
    /// Another warning is issued at both BSCs.
    Issue,
    /// Both cells are taken out of the area.
    Cut,
    /// The link of the first BSC is lost.
    Loss,
}

/// What is done while one side waits for the first BSC, and another for the BSC of that number and its link.
#[derive(Clone, Copy)]
struct Case {
    change: Change,
    bsc: u16,
    generation: u64,
    /// Both go on for an order; else since their link has ended.
    is_order: bool,
}

/// The order that is pending over the link is sent, and done.
fn is_done<L: Ledger, R: Wait + Abort>(
    rt: &R,
    alloc: Global,
    office: &Office<L>,
    desk: &mut Desk<L>,
    b: BscId,
    generation: u64,
) {
    enters(rt, office, desk, Event::Send(b, generation));
    let done = read(alloc, 0x02, &DONE).expect(rt, "a message");
    enters(rt, office, desk, Event::Report(b, generation, done));
}

/// An office of two BSCs, whose links are up. The warning is on air in a cell of each, and nothing is to do.
fn both_idle<L: Ledger, R: Wait + Abort>(
    rt: &R,
    alloc: Global,
    blank: Blank,
) -> (Office<L>, Desk<L>)
    requires name { blank.name ≡ L.name }
    requires parts { blank.parts ≡ L.parts }
    requires desks { blank.parts ≡ 1025 }
{
    let (first, second) = (first_bsc(rt), bsc(rt, 2));
    let (office, mut desk) = linked::<L, R>(rt, alloc, blank, 1000);
    is_done(rt, alloc, &office, &mut desk, first, LINK);
    let put = Edit::Put(coast(rt, alloc), Selector::Cell(EIGHT));
    edits(rt, &office, &mut desk, Edit::AddBsc(second));
    edits(rt, &office, &mut desk, Edit::AddCell(EIGHT, second));
    edits(rt, &office, &mut desk, put);
    enters(rt, &office, &mut desk, Event::LinkUp(second));
    is_done(rt, alloc, &office, &mut desk, second, SECOND_LINK);
    (office, desk)
}

/// The change comes about.
fn changes<L: Ledger, R: Wait + Abort>(
    rt: &R,
    alloc: Global,
    office: &Office<L>,
    desk: &mut Desk<L>,
    change: Change,
) {
    let first = first_warning();
    match change {
        Change::Update => edits(rt, office, desk, Edit::Update(first, content(rt, alloc))),
        Change::Stop => edits(rt, office, desk, Edit::Stop(first)),
        Change::Issue => enters(rt, office, desk, issue(rt, alloc)),
        Change::Cut => {
            let one = Edit::Cut(coast(rt, alloc), Selector::Cell(SEVEN));
            let other = Edit::Cut(coast(rt, alloc), Selector::Cell(EIGHT));
            edits(rt, office, desk, one);
            edits(rt, office, desk, other);
        }
        Change::Loss => enters(rt, office, desk, Event::LinkDown(first_bsc(rt), LINK)),
    }
}

/// Whether both sides went on soon.
fn are_awake<R: Clock>(rt: &R, awake: &AtomicU64) -> bool {
    for _turn in 0..10_000 {
        if awake.load(Ordering::SeqCst) == 2 {
            return true;
        }
        thread::sleep(rt, Duration::from_millis(1));
    }
    false
}

/// The change comes about once both sides wait. The answer is whether both went on soon. Where one didn't, it is woken by the loss of
/// both links and a checkpoint.
fn changes_later<L: Ledger, R: Wait + Clock + Abort>(
    rt: &R,
    alloc: Global,
    office: &Office<L>,
    mut desk: Desk<L>,
    change: Change,
    awake: &AtomicU64,
) -> bool {
    let (first, second) = (first_bsc(rt), bsc(rt, 2));
    thread::sleep(rt, Duration::from_millis(100));
    changes(rt, alloc, office, &mut desk, change);
    let is_soon = are_awake(rt, awake);
    let _ = office.submit(rt, &mut desk, Event::LinkDown(first, LINK));
    let _ = office.submit(rt, &mut desk, Event::LinkDown(second, SECOND_LINK));
    let _ = office.checkpoint(rt);
    is_soon
}

/// For what a side goes on.
fn waits<L: Ledger, R: Wait>(
    rt: &R,
    office: &Office<L>,
    mut desk: Desk<L>,
    b: BscId,
    generation: u64,
    awake: &AtomicU64,
) -> Wake {
    let wake = office.wait_pending(rt, &mut desk, b, generation);
    awake.fetch_add(1, Ordering::SeqCst);
    drop(desk);
    wake
}

/// Whether two sides that wait at the same time, one for the first BSC and one for the BSC of that number and its link, both go on for
/// an order, or else both since their link has ended.
fn both_wait<L: Ledger + Send + Sync, R: Threads + Wait + Abort + Sync>(
    rt: &R,
    office: &Office<L>,
    awake: &AtomicU64,
    number: u16,
    generation: u64,
    is_order: bool,
) -> bool {
    let (first, second) = (first_bsc(rt), bsc(rt, number));
    let (one, other) = (opens(rt, office), opens(rt, office));
    let (of_one, of_other) = thread::join(
        rt,
        move || waits(rt, office, one, first, LINK, awake),
        move || waits(rt, office, other, second, generation, awake),
    );
    let wake = if is_order { Wake::Order } else { Wake::Ended };
    of_one == wake && of_other == wake
}

/// Whether both sides go on soon, if the change comes about while they wait, and for what they are to.
fn woken<L: Ledger + Send + Sync, R: Threads + Wait + Clock + Abort + Sync>(
    rt: &R,
    alloc: Global,
    office: &Office<L>,
    awake: &AtomicU64,
    desk: Desk<L>,
    case: Case,
) -> (bool, bool) {
    let (change, number, generation, is_order) = (
        case.change,
        case.bsc,
        case.generation,
        case.is_order,
    );
    thread::join(
        rt,
        move || changes_later(rt, alloc, office, desk, change, awake),
        move || both_wait(rt, office, awake, number, generation, is_order),
    )
}

/// The same, of an office of its own.
fn both_woken<L: Ledger + Send + Sync, R: Threads + Wait + Clock + Abort + Sync>(
    rt: &R,
    alloc: Global,
    blank: Blank,
    case: Case,
) -> (bool, bool)
    requires name { blank.name ≡ L.name }
    requires parts { blank.parts ≡ L.parts }
    requires desks { blank.parts ≡ 1025 }
{
    let (office, desk) = both_idle::<L, R>(rt, alloc, blank);
    let awake = AtomicU64::new(0);
    woken(rt, alloc, &office, &awake, desk, case)
}

/// What is done that makes an order due at both BSCs, and what is looked at.
const ROWS: [(Change, &str); 4] = [
    (Change::Update, "an update"),
    (Change::Stop, "a stop"),
    (Change::Issue, "another warning"),
    (Change::Cut, "cells that are taken out of an area"),
];

#[test]
fn sides_of_two_bscs_are_woken(rt: HostRuntime) {
    for (change, at) in &ROWS {
        let case = Case {
            change: *change,
            bsc: 2,
            generation: SECOND_LINK,
            is_order: true,
        };
        let (is_soon, is_right) = both_woken::<Brand, _>(&rt, rt.alloc(), Blank::new(1025), case);
        yes(&rt, is_soon, at);
        yes(&rt, is_right, at);
    }
}

#[test]
fn both_sides_of_a_bsc_are_woken(rt: HostRuntime) {
    let case = Case {
        change: Change::Loss,
        bsc: 1,
        generation: LINK,
        is_order: false,
    };
    let (is_soon, is_right) = both_woken::<Brand, _>(&rt, rt.alloc(), Blank::new(1025), case);
    yes(&rt, is_soon, "a side isn't woken");
    yes(&rt, is_right, "a side goes on for something else");
}
