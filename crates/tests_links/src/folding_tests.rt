//! What no clause says of a checkpoint: that it can succeed, that desks hold no more receipts than came since, that a side that
//! waits or reads lets go of its own, and that a full journal has room again.

ghost use Rattle.std.specs.Prelude.{◌≡◌};

use crate::checks::{same, yes};
use crate::given_events::bsc;
use crate::given_link::{LINK, ORDER, edits, enters, first_bsc, linked, new_office, opens};
use cell_register::BscId;
use centre_events::event::Event;
use centre_events::refusal::Refusal;
use coverage_plan::Edit;
use framing::faulty::FailsAfter;
use framing::{FromRead, FromWrite};
use link_worker::{End, OpenGate, read_side, write_side};
use office::desk::Desk;
use office::office::Office;
use office::wake::Wake;
use std::alloc::Global;
use std::marker::Brand;
use std::process::Abort;
use std::rt::Clock;
use std::sync::Wait;
use std::sync::ledger::{Blank, Ledger};
use std::thread;
use std::thread::Threads;
use std::time::Duration;

/// So many BSCs are registered, from that number on.
fn adds<L: Ledger, R: Wait + Abort>(
    rt: &R,
    office: &Office<L>,
    desk: &mut Desk<L>,
    first: u16,
    count: u16,
) {
    for more in 0..count {
        let b = bsc(rt, first.saturating_add(more));
        edits(rt, office, desk, Edit::AddBsc(b));
    }
}

/// The entries are folded, and there were so many.
fn folds<L: Ledger, R: Wait + Abort>(rt: &R, office: &Office<L>, count: u64) {
    same(rt, office.checkpoint(rt), Ok(count), "a checkpoint");
}

/// How many receipts the desk holds once it let go of what it may, and the place of the first, 0 where it holds none.
fn held<L: Ledger, R: Wait>(rt: &R, office: &Office<L>, desk: &mut Desk<L>) -> (usize, u64) {
    office.release(rt, desk);
    let receipts = desk.receipts();
    let place = match receipts.first() {
        Some(receipt) => receipt.place,
        None => 0,
    };
    (receipts.len(), place)
}

/// A desk has seven entries, of which the first four are folded, then two, and the last isn't.
fn lets_go<L: Ledger, R: Wait + Abort>(rt: &R, alloc: Global, blank: Blank)
    requires name { blank.name ≡ L.name }
    requires parts { blank.parts ≡ L.parts }
    requires desks { blank.parts ≡ 1025 }
{
    let office = new_office::<L>(alloc, blank, 1000);
    let mut desk = opens(rt, &office);
    adds(rt, &office, &mut desk, 1, 4);
    same(rt, held(rt, &office, &mut desk), (4, 1), "nothing folded");
    folds(rt, &office, 4);
    same(rt, held(rt, &office, &mut desk), (0, 0), "all folded");
    adds(rt, &office, &mut desk, 5, 2);
    same(rt, held(rt, &office, &mut desk), (2, 5), "what came since");
    folds(rt, &office, 2);
    adds(rt, &office, &mut desk, 7, 1);
    same(rt, held(rt, &office, &mut desk), (1, 7), "the last");
    folds(rt, &office, 1);
    folds(rt, &office, 0);
    let desks = vec![in alloc; desk].expect(rt, "memory");
    let settled = office.settle(desks).map(|centre| centre.position());
    yes(
        rt,
        settled.is_ok_and(|at| at == 7),
        "the desk isn't settled",
    );
}

#[test]
fn a_desk_holds_what_came_since_a_checkpoint(rt: HostRuntime) {
    lets_go::<Brand, _>(&rt, rt.alloc(), Blank::new(1025));
}

/// The side of the link goes on where its link is lost. Its desk is handed back.
fn waits<L: Ledger, R: Wait>(
    rt: &R,
    office: &Office<L>,
    mut desk: Desk<L>,
    b: BscId,
) -> (Desk<L>, Wake) {
    let wake = office.wait_pending(rt, &mut desk, b, LINK);
    (desk, wake)
}

/// The entries are folded once the side waits, and the link is lost some time later.
fn folds_later<L: Ledger, R: Wait + Clock + Abort>(
    rt: &R,
    office: &Office<L>,
    mut desk: Desk<L>,
    b: BscId,
) -> Desk<L> {
    thread::sleep(rt, Duration::from_millis(100));
    folds(rt, office, 7);
    thread::sleep(rt, Duration::from_millis(2000));
    enters(rt, office, &mut desk, Event::LinkDown(b, LINK));
    desk
}

/// How many receipts the desk of the side holds that waited while entries were folded, of one that it had before.
fn held_after_wait<L: Ledger + Send + Sync, R: Threads + Wait + Clock + Abort + Sync>(
    rt: &R,
    alloc: Global,
    blank: Blank,
) -> usize
    requires name { blank.name ≡ L.name }
    requires parts { blank.parts ≡ L.parts }
    requires desks { blank.parts ≡ 1025 }
{
    let b = first_bsc(rt);
    let (office, desk) = linked::<L, R>(rt, alloc, blank, 1000);
    let shared = &office;
    let mut writing = opens(rt, shared);
    enters(rt, shared, &mut writing, Event::Send(b, LINK));
    let (_, waited) = thread::join(
        rt,
        move || folds_later(rt, shared, desk, b),
        move || waits(rt, shared, writing, b),
    );
    same(rt, waited.1, Wake::Ended, "the side isn't told of the loss");
    waited.0.receipts().len()
}

#[test]
fn a_side_that_waits_lets_go_of_folded_receipts(rt: HostRuntime) {
    let held = held_after_wait::<Brand, _>(&rt, rt.alloc(), Blank::new(1025));
    same(&rt, held, 0, "receipts are held");
}

/// How the side ends over a connection that takes 19 octets, and those that it took.
fn writes<L: Ledger, R: Wait + Abort>(
    rt: &R,
    alloc: Global,
    office: &Office<L>,
    desk: &mut Desk<L>,
) -> (End, Vec<u8>) {
    let mut sink = FailsAfter::new(FromWrite::new(Vec::new(alloc)), 19);
    let b = first_bsc(rt);
    let end = write_side(rt, alloc, office, desk, b, LINK, &mut sink, &OpenGate);
    (end, sink.into_inner().into_inner())
}

/// An order is pending, and the journal full, until the entries are folded.
fn goes_on<L: Ledger, R: Wait + Abort>(rt: &R, alloc: Global, blank: Blank)
    requires name { blank.name ≡ L.name }
    requires parts { blank.parts ≡ L.parts }
    requires desks { blank.parts ≡ 1025 }
{
    let (office, mut desk) = linked::<L, R>(rt, alloc, blank, 6);
    let (end, octets) = writes(rt, alloc, &office, &mut desk);
    same(
        rt,
        end,
        End::Refused(Refusal::JournalFull),
        "a full journal",
    );
    yes(rt, octets.is_empty(), "octets of a refused order");
    folds(rt, &office, 6);
    let (end, octets) = writes(rt, alloc, &office, &mut desk);
    same(rt, end, End::WriteFault, "a journal with room");
    yes(rt, octets.as_slice() == &ORDER[..19], "other octets");
}

#[test]
fn a_full_journal_has_room_after_a_checkpoint(rt: HostRuntime) {
    goes_on::<Brand, _>(&rt, rt.alloc(), Blank::new(1025));
}

/// How the side ends over a connection over which nothing comes.
fn reads_nothing<L: Ledger, R: Wait + Abort>(
    rt: &R,
    alloc: Global,
    office: &Office<L>,
    desk: &mut Desk<L>,
) -> End {
    let mut source = FromRead::new(b"".as_slice());
    let b = first_bsc(rt);
    read_side(rt, alloc, office, desk, b, LINK, &mut source, &OpenGate)
}

/// How many receipts a desk holds after a side read over it, of six that are folded.
fn held_after_reading<L: Ledger, R: Wait + Abort>(rt: &R, alloc: Global, blank: Blank) -> usize
    requires name { blank.name ≡ L.name }
    requires parts { blank.parts ≡ L.parts }
    requires desks { blank.parts ≡ 1025 }
{
    let (office, mut desk) = linked::<L, R>(rt, alloc, blank, 1000);
    folds(rt, &office, 6);
    let end = reads_nothing(rt, alloc, &office, &mut desk);
    same(rt, end, End::PeerEnded, "the side ends");
    let count = desk.receipts().len();
    drop(desk);
    drop(office);
    count
}

#[test]
fn a_side_that_reads_lets_go_of_folded_receipts(rt: HostRuntime) {
    let held = held_after_reading::<Brand, _>(&rt, rt.alloc(), Blank::new(1025));
    same(&rt, held, 0, "receipts are held");
}
