//! What no clause says of an office that enters what is due for a link: that it can succeed, for an order and for a query, and why it
//! doesn't.

ghost use Rattle.std.specs.Prelude.{◌≡◌};

use crate::checks::{same, yes};
use crate::given_events::{bsc, first_warning, issue};
use crate::given_link::{COMPLETE, LINK, edits, enters, first_bsc, linked, opens};
use cbsp_messages::read;
use cell_register::BscId;
use centre_events::answer::Answer;
use centre_events::event::Event;
use centre_events::refusal::Refusal;
use coverage_plan::Edit;
use office::desk::Desk;
use office::office::Office;
use office::question::Question;
use office::unsent::Unsent;
use std::alloc::Global;
use std::marker::Brand;
use std::process::Abort;
use std::rt::Clock;
use std::sync::Wait;
use std::sync::atomic::{AtomicBool, Ordering};
use std::sync::ledger::{Blank, Ledger};
use std::thread;
use std::thread::Threads;
use std::time::Duration;

/// The generation of the second BSC's link, which comes up in the eighth entry.
const SECOND_LINK: u64 = 8;

/// What the desk's last receipt is for.
#[derive(Clone, Copy, Debug, PartialEq, Eq)]
enum Last {
    Order,
    Query,
    Other,
}

fn entered_last<L: Ledger>(desk: &Desk<L>) -> Last {
    match desk.receipts().last() {
        Some(receipt) => match &receipt.answer {
            Answer::Sent { .. } => Last::Order,
            Answer::Asked { .. } => Last::Query,
            _ => Last::Other,
        },
        None => Last::Other,
    }
}

/// What is due for the link of that generation is entered, and the desk's last receipt is for that.
fn sends<L: Ledger, R: Wait + Abort>(
    rt: &R,
    office: &Office<L>,
    desk: &mut Desk<L>,
    want: (Result<(), Unsent>, Last),
    at: &str,
) {
    let count = desk.receipts().len();
    let sent = office.send_due(rt, desk, first_bsc(rt), LINK);
    same(rt, sent, want.0, at);
    let more = if sent.is_ok() { 1 } else { 0 };
    same(rt, desk.receipts().len(), count.saturating_add(more), at);
    same(rt, entered_last(desk), want.1, at);
}

/// The first order is answered.
fn is_answered<L: Ledger, R: Wait + Abort>(
    rt: &R,
    alloc: Global,
    office: &Office<L>,
    desk: &mut Desk<L>,
    b: BscId,
) {
    let complete = read(alloc, 0x02, &COMPLETE[4..]).expect(rt, "a message");
    enters(rt, office, desk, Event::Report(b, LINK, complete));
}

/// An order is sent, and once it is answered a query, for the second of two wishes; the link is lost, and an older one is over.
fn turns<L: Ledger, R: Wait + Abort>(rt: &R, alloc: Global, blank: Blank)
    requires name { blank.name ≡ L.name }
    requires parts { blank.parts ≡ L.parts }
    requires desks { blank.parts ≡ 1025 }
{
    let b = first_bsc(rt);
    let (office, mut desk) = linked::<L, R>(rt, alloc, blank, 1000);
    let is_sent = (Ok(()), Last::Order);
    sends(rt, &office, &mut desk, is_sent, "an order");
    is_answered(rt, alloc, &office, &mut desk, b);
    let wished = office.wish(rt, b, first_warning(), None);
    same(rt, wished, Ok(()), "a wish");
    sends(rt, &office, &mut desk, (Ok(()), Last::Query), "a query");
    enters(rt, &office, &mut desk, Event::LinkDown(b, LINK));
    let is_over = (Err(Unsent::Ended), Last::Other);
    sends(rt, &office, &mut desk, is_over, "a link that is lost");
}

#[test]
fn what_is_due_is_entered(rt: HostRuntime) {
    turns::<Brand, _>(&rt, rt.alloc(), Blank::new(1025));
}

/// A wish for a warning that was never on air is refused, and an order that comes after it isn't.
fn asks_in_vain<L: Ledger, R: Wait + Abort>(rt: &R, alloc: Global, blank: Blank)
    requires name { blank.name ≡ L.name }
    requires parts { blank.parts ≡ L.parts }
    requires desks { blank.parts ≡ 1025 }
{
    let b = first_bsc(rt);
    let (office, mut desk) = linked::<L, R>(rt, alloc, blank, 1000);
    edits(rt, &office, &mut desk, Edit::Stop(first_warning()));
    let wished = office.wish(rt, b, first_warning(), None);
    same(rt, wished, Ok(()), "a wish");
    let nothing = Err(Unsent::Refused(Refusal::NothingToAsk));
    sends(rt, &office, &mut desk, (nothing, Last::Other), "a wish");
    enters(rt, &office, &mut desk, issue(rt, alloc));
    let is_sent = (Ok(()), Last::Order);
    sends(rt, &office, &mut desk, is_sent, "an order after it");
}

#[test]
fn a_wish_in_vain_is_refused(rt: HostRuntime) {
    asks_in_vain::<Brand, _>(&rt, rt.alloc(), Blank::new(1025));
}

/// The journal is full.
fn fills<L: Ledger, R: Wait + Abort>(rt: &R, alloc: Global, blank: Blank)
    requires name { blank.name ≡ L.name }
    requires parts { blank.parts ≡ L.parts }
    requires desks { blank.parts ≡ 1025 }
{
    let (office, mut desk) = linked::<L, R>(rt, alloc, blank, 6);
    let is_full = Err(Unsent::Refused(Refusal::JournalFull));
    let want = (is_full, Last::Other);
    sends(rt, &office, &mut desk, want, "a full journal");
}

#[test]
fn a_full_journal_is_told_at_once(rt: HostRuntime) {
    fills::<Brand, _>(&rt, rt.alloc(), Blank::new(1025));
}

/// Another warning is issued while an order is pending, for which memory may run out in the middle. Then the centre is stale.
fn sends_after_issue<L: Ledger, R: Wait + Abort>(rt: &R, alloc: Global, blank: Blank)
    requires name { blank.name ≡ L.name }
    requires parts { blank.parts ≡ L.parts }
    requires desks { blank.parts ≡ 1025 }
{
    let b = first_bsc(rt);
    let (office, mut desk) = linked::<L, R>(rt, alloc, blank, 1000);
    drop(office.submit(rt, &mut desk, issue(rt, alloc)));
    let question = office.look(rt, &desk, Question::InFlight(b)).err();
    let is_stale = question == Some(Refusal::Stale);
    let sent = office.send_due(rt, &mut desk, b, LINK);
    let is_told = sent == Err(Unsent::StaleCentre);
    same(rt, is_told, is_stale, "a stale centre");
    yes(rt, is_stale || sent.is_ok(), "a whole centre");
}

/// With ample memory the centre is whole all the time.
#[test]
fn a_stale_centre_is_told(rt: HostRuntime) {
    sends_after_issue::<Brand, _>(&rt, rt.alloc(), Blank::new(1025));
}

/// Waits for what is due for the link of that generation. The desk is handed back.
fn waits<L: Ledger, R: Wait>(
    rt: &R,
    office: &Office<L>,
    mut desk: Desk<L>,
    b: BscId,
    generation: u64,
) -> (Desk<L>, Result<(), Unsent>) {
    let sent = office.send_due(rt, &mut desk, b, generation);
    (desk, sent)
}

/// The entries are folded once the side waits, and the link is lost some time later.
fn folds_later<L: Ledger, R: Wait + Clock + Abort>(
    rt: &R,
    office: &Office<L>,
    mut desk: Desk<L>,
    b: BscId,
) {
    thread::sleep(rt, Duration::from_millis(100));
    let folded = office.checkpoint_after(rt, 7).expect(rt, "memory");
    same(rt, folded.count, 7, "the entries");
    drop(folded);
    thread::sleep(rt, Duration::from_millis(1000));
    enters(rt, office, &mut desk, Event::LinkDown(b, LINK));
}

/// How many receipts the desk of the side holds that waited while entries were folded, of one that it had before.
fn held_after_wait<L: Ledger + Send + Sync, R: Threads + Wait + Clock + Abort + Sync>(
    rt: &R,
    alloc: Global,
    blank: Blank,
) -> usize
    requires name { blank.name ≡ L.name }
    requires parts { blank.parts ≡ L.parts }
    requires desks { blank.parts ≡ 1025 }
{
    let b = first_bsc(rt);
    let (office, desk) = linked::<L, R>(rt, alloc, blank, 1000);
    let shared = &office;
    let mut writing = opens(rt, shared);
    enters(rt, shared, &mut writing, Event::Send(b, LINK));
    let (_, waited) = thread::join(
        rt,
        move || folds_later(rt, shared, desk, b),
        move || waits(rt, shared, writing, b, LINK),
    );
    same(
        rt,
        waited.1,
        Err(Unsent::Ended),
        "it isn't told of the loss",
    );
    waited.0.receipts().len()
}

#[test]
fn a_side_that_waits_to_send_lets_go_of_folded_receipts(rt: HostRuntime) {
    let held = held_after_wait::<Brand, _>(&rt, rt.alloc(), Blank::new(1025));
    same(&rt, held, 0, "receipts are held");
}

/// The first BSC's order is sent once the other side waits, and its link is lost some time later where it wasn't told yet.
fn sends_later<L: Ledger, R: Wait + Clock + Abort>(
    rt: &R,
    office: &Office<L>,
    mut desk: Desk<L>,
    is_told: &AtomicBool,
) -> bool {
    thread::sleep(rt, Duration::from_millis(100));
    let is_sent = (Ok(()), Last::Order);
    sends(rt, office, &mut desk, is_sent, "an order");
    for _turn in 0..10_000 {
        if is_told.load(Ordering::SeqCst) {
            return true;
        }
        thread::sleep(rt, Duration::from_millis(1));
    }
    let _ = office.checkpoint(rt);
    enters(
        rt,
        office,
        &mut desk,
        Event::LinkDown(bsc(rt, 2), SECOND_LINK),
    );
    false
}

/// Notes that the side went on.
fn waits_and_notes<L: Ledger, R: Wait>(
    rt: &R,
    office: &Office<L>,
    desk: Desk<L>,
    b: BscId,
    is_told: &AtomicBool,
) -> Result<(), Unsent> {
    let (desk, sent) = waits(rt, office, desk, b, SECOND_LINK);
    drop(desk);
    is_told.store(true, Ordering::SeqCst);
    sent
}

/// The order of the first BSC takes the last of nine entries, while the side of the second waits. Whether that goes on soon, and for
/// what.
fn filled_by_order<L: Ledger + Send + Sync, R: Threads + Wait + Clock + Abort + Sync>(
    rt: &R,
    alloc: Global,
    blank: Blank,
) -> (bool, Result<(), Unsent>)
    requires name { blank.name ≡ L.name }
    requires parts { blank.parts ≡ L.parts }
    requires desks { blank.parts ≡ 1025 }
{
    let second = bsc(rt, 2);
    let (office, mut desk) = linked::<L, R>(rt, alloc, blank, 9);
    edits(rt, &office, &mut desk, Edit::AddBsc(second));
    enters(rt, &office, &mut desk, Event::LinkUp(second));
    let is_told = AtomicBool::new(false);
    let (shared, told) = (&office, &is_told);
    let waiting = opens(rt, shared);
    thread::join(
        rt,
        move || sends_later(rt, shared, desk, told),
        move || waits_and_notes(rt, shared, waiting, second, told),
    )
}

#[test]
fn an_order_that_fills_the_journal_is_told_to_all(rt: HostRuntime) {
    let (is_soon, sent) = filled_by_order::<Brand, _>(&rt, rt.alloc(), Blank::new(1025));
    yes(&rt, is_soon, "it isn't woken");
    let full = Err(Unsent::Refused(Refusal::JournalFull));
    same(&rt, sent, full, "a full journal");
}
