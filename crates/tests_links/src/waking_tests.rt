//! What no clause says of an office: that a side that waits is woken, and where its journal is full; that a query that was wished for is
//! asked once; that an office has the network and the limit that it is given; and that it is rebuilt.

ghost use Rattle.std.specs.Prelude.{◌≡◌};

use crate::checks::{same, yes};
use crate::given_events::{EIGHT, SEVEN, bsc, coast, first_warning, issue};
use crate::given_link::{COMPLETE, LINK, edits, enters, first_bsc, linked, opens};
use areas::Selector;
use cbsp_messages::read;
use cell_register::BscId;
use centre_events::answer::Answer;
use centre_events::event::Event;
use centre_events::refusal::Refusal;
use common::Cell;
use coverage_plan::Edit;
use framing::FromWrite;
use framing::faulty::FailsAfter;
use link_worker::{End, OpenGate, write_side};
use office::desk::Desk;
use office::office::Office;
use office::wake::Wake;
use std::alloc::Global;
use std::marker::Brand;
use std::process::Abort;
use std::rt::Clock;
use std::sync::Wait;
use std::sync::atomic::{AtomicBool, Ordering};
use std::sync::ledger::{Blank, Ledger};
use std::thread;
use std::thread::Threads;
use std::time::Duration;

/// What is done while the side of the first BSC's link waits.
#[derive(Clone, Copy)]
enum Change {
    /// The cell of the first BSC is moved to another.
    Move,
    /// It is taken out.
    Remove,
    /// Another cell is registered at the first BSC.
    Add,
    /// A query is wished for.
    Wish,
    /// The cell has lost its messages.
    Restart,
    /// The link is lost.
    Loss,
    /// Another link comes up.
    Link,
    /// A BSC is taken out.
    RemoveBsc,
}

/// The body of a RESTART in which all cells have lost their messages.
const RESTARTED: [u8; 8] = [0x04, 0x00, 0x01, 0x06, 0x16, 0x00, 0x0d, 0x01];

/// The body of the MESSAGE STATUS QUERY COMPLETE: the first version was broadcast five times.
const COUNTED: [u8; 17] = [
    0x0e, 0x11, 0x12, 0x02, 0xc0, 0x00, 0x08, 0x00, 0x08, 0x01, 0x00, 0x64, 0x00, 0x07, 0x00, 0x05,
    0x00,
];

/// The BSC of the first link reports.
fn reports<L: Ledger, R: Wait + Abort>(
    rt: &R,
    alloc: Global,
    office: &Office<L>,
    desk: &mut Desk<L>,
    kind: u8,
    body: &[u8],
) {
    let message = read(alloc, kind, body).expect(rt, "a message");
    enters(
        rt,
        office,
        desk,
        Event::Report(first_bsc(rt), LINK, message),
    );
}

/// An office whose journal holds so many entries, and has ten. The first order was sent and answered, so that nothing is to do for
/// the first BSC, and there is another BSC. The area covers another cell too.
fn idle<L: Ledger, R: Wait + Abort>(
    rt: &R,
    alloc: Global,
    blank: Blank,
    journal_limit: u32,
) -> (Office<L>, Desk<L>)
    requires name { blank.name ≡ L.name }
    requires parts { blank.parts ≡ L.parts }
    requires desks { blank.parts ≡ 1025 }
{
    let (office, mut desk) = linked::<L, R>(rt, alloc, blank, journal_limit);
    let put = Edit::Put(coast(rt, alloc), Selector::Cell(EIGHT));
    enters(rt, &office, &mut desk, Event::Send(first_bsc(rt), LINK));
    reports(rt, alloc, &office, &mut desk, 0x02, &COMPLETE[4..]);
    edits(rt, &office, &mut desk, Edit::AddBsc(bsc(rt, 2)));
    edits(rt, &office, &mut desk, put);
    (office, desk)
}

/// What a side waits for comes about.
fn changes<L: Ledger, R: Wait + Abort>(
    rt: &R,
    alloc: Global,
    office: &Office<L>,
    desk: &mut Desk<L>,
    change: Change,
) {
    let (b, other) = (first_bsc(rt), bsc(rt, 2));
    match change {
        Change::Move => edits(rt, office, desk, Edit::MoveCell(SEVEN, other)),
        Change::Remove => edits(rt, office, desk, Edit::RemoveCell(SEVEN)),
        Change::Add => edits(rt, office, desk, Edit::AddCell(EIGHT, b)),
        Change::Wish => {
            let wished = office.wish(rt, b, first_warning(), Some(SEVEN));
            same(rt, wished, Ok(()), "a wish");
        }
        Change::Restart => reports(rt, alloc, office, desk, 0x13, &RESTARTED),
        Change::Loss => enters(rt, office, desk, Event::LinkDown(b, LINK)),
        Change::Link => enters(rt, office, desk, Event::LinkUp(b)),
        Change::RemoveBsc => edits(rt, office, desk, Edit::RemoveBsc(other)),
    }
}

/// It comes about once the side waits. The answer is whether the side went on soon. Where it didn't, it is woken by the loss of the link.
fn changes_later<L: Ledger, R: Wait + Clock + Abort>(
    rt: &R,
    alloc: Global,
    office: &Office<L>,
    mut desk: Desk<L>,
    change: Change,
    is_awake: &AtomicBool,
) -> bool {
    thread::sleep(rt, Duration::from_millis(100));
    changes(rt, alloc, office, &mut desk, change);
    for _turn in 0..10_000 {
        if is_awake.load(Ordering::SeqCst) {
            return true;
        }
        thread::sleep(rt, Duration::from_millis(1));
    }
    let _ = office.submit(rt, &mut desk, Event::LinkDown(first_bsc(rt), LINK));
    false
}

/// For what the side goes on, whose desk is handed back.
fn waits<L: Ledger, R: Wait>(
    rt: &R,
    office: &Office<L>,
    mut desk: Desk<L>,
    b: BscId,
    is_awake: &AtomicBool,
) -> (Desk<L>, Wake) {
    let wake = office.wait_pending(rt, &mut desk, b, LINK);
    is_awake.store(true, Ordering::SeqCst);
    (desk, wake)
}

/// Whether the side goes on soon, if the change comes about while it waits, and for what.
fn woken<L: Ledger + Send + Sync, R: Threads + Wait + Clock + Abort + Sync>(
    rt: &R,
    alloc: Global,
    office: &Office<L>,
    is_awake: &AtomicBool,
    desk: Desk<L>,
    change: Change,
) -> (bool, Wake) {
    let b = first_bsc(rt);
    let waiting = opens(rt, office);
    let (is_soon, waited) = thread::join(
        rt,
        move || changes_later(rt, alloc, office, desk, change, is_awake),
        move || waits(rt, office, waiting, b, is_awake),
    );
    (is_soon, waited.1)
}

/// For what the side of an idle link goes on, at an office whose journal holds so many entries.
fn woken_by<L: Ledger + Send + Sync, R: Threads + Wait + Clock + Abort + Sync>(
    rt: &R,
    alloc: Global,
    blank: Blank,
    journal_limit: u32,
    change: Change,
) -> (bool, Wake)
    requires name { blank.name ≡ L.name }
    requires parts { blank.parts ≡ L.parts }
    requires desks { blank.parts ≡ 1025 }
{
    let (office, desk) = idle::<L, R>(rt, alloc, blank, journal_limit);
    let is_awake = AtomicBool::new(false);
    woken(rt, alloc, &office, &is_awake, desk, change)
}

/// What is done, how many entries the journal holds, for what the side goes on, and what is looked at.
const ROWS: [(Change, u32, Wake, &str); 8] = [
    (Change::Move, 1000, Wake::Order, "a cell that is moved away"),
    (
        Change::Remove,
        1000,
        Wake::Order,
        "a cell that is taken out",
    ),
    (Change::Add, 1000, Wake::Order, "a cell that is registered"),
    (Change::Restart, 1000, Wake::Order, "a restart"),
    (Change::Loss, 1000, Wake::Ended, "a link that is lost"),
    (Change::Link, 1000, Wake::Ended, "another link"),
    (Change::RemoveBsc, 11, Wake::Order, "a full journal"),
    (
        Change::Loss,
        11,
        Wake::Ended,
        "a loss that fills the journal",
    ),
];

#[test]
fn a_side_that_waits_is_woken(rt: HostRuntime) {
    for (change, limit, want, at) in &ROWS {
        let (is_soon, wake) = woken_by::<Brand, _>(
            &rt,
            rt.alloc(),
            Blank::new(1025),
            *limit,
            *change,
        );
        yes(&rt, is_soon, at);
        same(&rt, wake, *want, at);
    }
}

#[test]
fn a_wish_is_asked_at_once(rt: HostRuntime) {
    let (is_soon, wake) = woken_by::<Brand, _>(
        &rt,
        rt.alloc(),
        Blank::new(1025),
        1000,
        Change::Wish,
    );
    yes(&rt, is_soon, "it isn't woken");
    let query = Wake::Query(first_warning(), Some(SEVEN));
    same(&rt, wake, query, "a wish");
}

/// A query is wished for, asked, and answered.
fn is_asked<L: Ledger, R: Wait + Abort>(
    rt: &R,
    alloc: Global,
    office: &Office<L>,
    desk: &mut Desk<L>,
) {
    let (b, first) = (first_bsc(rt), first_warning());
    let wished = office.wish(rt, b, first, None);
    same(rt, wished, Ok(()), "a wish");
    let wake = office.wait_pending(rt, desk, b, LINK);
    same(rt, wake, Wake::Query(first, None), "a query");
    enters(rt, office, desk, Event::Ask(b, LINK, first, None));
    reports(rt, alloc, office, desk, 0x0b, &COUNTED);
}

/// For what the side goes on after a query was answered.
fn woken_after_query<L: Ledger + Send + Sync, R: Threads + Wait + Clock + Abort + Sync>(
    rt: &R,
    alloc: Global,
    blank: Blank,
) -> (bool, Wake)
    requires name { blank.name ≡ L.name }
    requires parts { blank.parts ≡ L.parts }
    requires desks { blank.parts ≡ 1025 }
{
    let (office, mut desk) = idle::<L, R>(rt, alloc, blank, 1000);
    is_asked(rt, alloc, &office, &mut desk);
    let is_awake = AtomicBool::new(false);
    woken(rt, alloc, &office, &is_awake, desk, Change::Loss)
}

#[test]
fn a_query_that_was_answered_is_not_asked_again(rt: HostRuntime) {
    let (is_soon, wake) = woken_after_query::<Brand, _>(&rt, rt.alloc(), Blank::new(1025));
    yes(&rt, is_soon, "it isn't woken");
    same(&rt, wake, Wake::Ended, "it is asked again");
}

/// For what the side goes on at an office whose journal holds seven entries, the last of which is the loss of the link.
fn ends_full<L: Ledger, R: Wait + Abort>(rt: &R, alloc: Global, blank: Blank)
    requires name { blank.name ≡ L.name }
    requires parts { blank.parts ≡ L.parts }
    requires desks { blank.parts ≡ 1025 }
{
    let b = first_bsc(rt);
    let (office, mut desk) = linked::<L, R>(rt, alloc, blank, 7);
    enters(rt, &office, &mut desk, Event::LinkDown(b, LINK));
    let lost = office.wait_pending(rt, &mut desk, b, LINK);
    same(rt, lost, Wake::Ended, "a link that is lost");
    let unknown = office.wait_pending(rt, &mut desk, bsc(rt, 2), LINK);
    same(rt, unknown, Wake::Ended, "a BSC that isn't there");
    let refused = office.submit(rt, &mut desk, Event::LinkUp(b));
    same(rt, refused, Err(Refusal::JournalFull), "an eighth entry");
}

#[test]
fn a_full_journal_does_not_hide_that_a_link_is_lost(rt: HostRuntime) {
    ends_full::<Brand, _>(&rt, rt.alloc(), Blank::new(1025));
}

/// The frame of a query for the first version in the second cell alone, but for its last octet.
const QUERY_AFTER: [u8; 19] = [
    0x0a, 0x00, 0x00, 0x10, 0x0e, 0x11, 0x12, 0x02, 0xc0, 0x00, 0x04, 0x00, 0x05, 0x01, 0x00, 0x64,
    0x00, 0x08, 0x12,
];

/// A WRITE-REPLACE COMPLETE of the first version that names no cell.
const COMPLETE_ALL: [u8; 6] = [0x0e, 0x11, 0x12, 0x03, 0xc0, 0x00];

/// What the side writes for a wish for the cells after the first, of two, over a connection that takes 19 octets.
fn asks_after<L: Ledger, R: Wait + Abort>(rt: &R, alloc: Global, blank: Blank) -> (End, Vec<u8>)
    requires name { blank.name ≡ L.name }
    requires parts { blank.parts ≡ L.parts }
    requires desks { blank.parts ≡ 1025 }
{
    let b = first_bsc(rt);
    let (office, mut desk) = idle::<L, R>(rt, alloc, blank, 1000);
    edits(rt, &office, &mut desk, Edit::AddCell(EIGHT, b));
    enters(rt, &office, &mut desk, Event::Send(b, LINK));
    reports(rt, alloc, &office, &mut desk, 0x02, &COMPLETE_ALL);
    let wished = office.wish(rt, b, first_warning(), Some(SEVEN));
    same(rt, wished, Ok(()), "a wish");
    let mut sink = FailsAfter::new(FromWrite::new(Vec::new(alloc)), 19);
    let end = write_side(rt, alloc, &office, &mut desk, b, LINK, &mut sink, &OpenGate);
    (end, sink.into_inner().into_inner())
}

#[test]
fn a_wish_with_a_cell_asks_for_later_cells(rt: HostRuntime) {
    let (end, octets) = asks_after::<Brand, _>(&rt, rt.alloc(), Blank::new(1025));
    same(&rt, end, End::WriteFault, "another end");
    yes(
        &rt,
        octets.as_slice() == QUERY_AFTER.as_slice(),
        "other octets",
    );
}

/// The body of a FAILURE that names the first cell by its global identification, in the network 001-01.
const FAILED_HERE: [u8; 14] = [
    0x09, 0x00, 0x09, 0x00, 0x00, 0xf1, 0x10, 0x00, 0x64, 0x00, 0x07, 0x0a, 0x16, 0x00,
];

/// The same in the network 001-02.
const FAILED_THERE: [u8; 14] = [
    0x09, 0x00, 0x09, 0x00, 0x00, 0xf1, 0x20, 0x00, 0x64, 0x00, 0x07, 0x0a, 0x16, 0x00,
];

/// Whether the desk's latest receipt lists these cells.
fn lists<L: Ledger>(desk: &Desk<L>, want: &[Cell]) -> bool {
    match desk.receipts().last() {
        Some(receipt) => match &receipt.answer {
            Answer::Listed(cells) => cells.as_slice() == want,
            _ => false,
        },
        None => false,
    }
}

/// A cell is named by a global identification of the office's network, and of no other. The journal holds so many entries and no
/// more.
fn is_of_its_network<L: Ledger, R: Wait + Abort>(rt: &R, alloc: Global, blank: Blank)
    requires name { blank.name ≡ L.name }
    requires parts { blank.parts ≡ L.parts }
    requires desks { blank.parts ≡ 1025 }
{
    let (office, mut desk) = linked::<L, R>(rt, alloc, blank, 8);
    reports(rt, alloc, &office, &mut desk, 0x14, &FAILED_HERE);
    yes(rt, lists(&desk, &[SEVEN]), "a cell of the network");
    reports(rt, alloc, &office, &mut desk, 0x14, &FAILED_THERE);
    yes(rt, lists(&desk, &[]), "a cell of another network");
    let refused = office.submit(rt, &mut desk, issue(rt, alloc));
    same(rt, refused, Err(Refusal::JournalFull), "a ninth entry");
}

#[test]
fn an_office_has_the_network_and_the_limit_that_it_is_given(rt: HostRuntime) {
    is_of_its_network::<Brand, _>(&rt, rt.alloc(), Blank::new(1025));
}

/// How often entries of an office's journal of six were read once its desk was settled. A rebuild reads each once, and so does a
/// comparison with the receipts.
fn reads<L: Ledger, R: Wait + Abort>(rt: &R, alloc: Global, blank: Blank, is_rebuilt: bool) -> u64
    requires name { blank.name ≡ L.name }
    requires parts { blank.parts ≡ L.parts }
    requires desks { blank.parts ≡ 1025 }
{
    let (office, desk) = linked::<L, R>(rt, alloc, blank, 1000);
    if is_rebuilt {
        let rebuilt = office.rebuild(rt, &desk);
        rebuilt.expect(rt, "the centre is rebuilt");
    }
    let desks = vec![in alloc; desk].expect(rt, "memory");
    match office.settle(desks) {
        Ok(centre) => {
            let entries = centre.meter().entries;
            drop(centre);
            entries
        }
        Err(unsettled) => {
            drop(unsettled);
            0
        }
    }
}

#[test]
fn an_office_is_rebuilt_from_its_journal(rt: HostRuntime) {
    for (is_rebuilt, want, at) in [(false, 6, "no rebuild"), (true, 12, "a rebuild")] {
        let entries = reads::<Brand, _>(&rt, rt.alloc(), Blank::new(1025), is_rebuilt);
        same(&rt, entries, want, at);
    }
}
