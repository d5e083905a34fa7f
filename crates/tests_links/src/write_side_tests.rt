//! What no clause says of the side of a link that writes: that orders and queries are written as they become due, what a failed write
//! leaves, how the side ends where the link is over, cut or refused, and what an operator reads of an end.

ghost use Rattle.std.specs.Prelude.{◌≡◌};

use crate::checks::{same, yes};
use crate::given_events::{MESSAGE_ID, SEVEN, first_serial, first_warning};
use crate::given_link::{COMPLETE, LINK, ORDER, ShutAt, enters, first_bsc, linked, opens};
use cbsp_ie::ElementId;
use cbsp_messages::{MessageFault, read};
use cell_register::BscId;
use centre_events::answer::Answer;
use centre_events::event::Event;
use centre_events::refusal::Refusal;
use framing::FromWrite;
use framing::faulty::{FailsAfter, InPieces};
use link_worker::{End, OpenGate, Step, write_side};
use mirror::Presence;
use office::desk::Desk;
use office::office::Office;
use office::question::Question;
use office::seen::SeenValue;
use order_maker::{Order, OrderKind};
use std::alloc::Global;
use std::marker::Brand;
use std::process::Abort;
use std::rt::Clock;
use std::sync::ledger::{Blank, Ledger};
use std::sync::{Mutex, Wait};
use std::thread;
use std::thread::Threads;
use std::time::Duration;

/// Takes so many octets at each write.
type Memory = InPieces<FromWrite<Vec<u8>>>;

fn memory(alloc: Global, size: usize) -> Memory {
    InPieces::new(FromWrite::new(Vec::new(alloc)), size.max(1))
}

/// Whether it is the order of the first version in its one cell.
fn is_first_order(order: &Order) -> bool {
    order.kind == OrderKind::Write
        && order.message_id == MESSAGE_ID
        && order.serial == first_serial()
        && order.cells.as_slice() == [SEVEN].as_slice()
}

/// Whether the first order is pending, and alone; or the first version may be on air, and nothing else.
fn is_first(value: &SeenValue) -> bool {
    match value {
        SeenValue::Pending(orders) => match orders.as_slice() {
            [order] => is_first_order(order),
            _ => false,
        },
        SeenValue::Table(keys) => match keys.as_slice() {
            [key] => {
                key.cell == SEVEN
                    && key.message_id == MESSAGE_ID
                    && key.serial == first_serial()
                    && key.presence == Presence::Unknown
            }
            _ => false,
        },
        _ => false,
    }
}

/// The answer to the question is the first order, or the first version, alone.
fn answers_first<L: Ledger, R: Wait + Abort>(
    rt: &R,
    office: &Office<L>,
    desk: &Desk<L>,
    question: Question,
    at: &str,
) {
    let seen = office.look(rt, desk, question).expect(rt, at);
    let is_right = is_first(&seen.value);
    drop(seen);
    yes(rt, is_right, at);
}

/// Whether the desk has one receipt, that of an order.
fn has_sent<L: Ledger>(desk: &Desk<L>) -> bool {
    match desk.receipts() {
        [receipt] => match &receipt.answer {
            Answer::Sent { .. } => true,
            _ => false,
        },
        _ => false,
    }
}

/// The order is in flight, and after the loss of the link it is pending again.
fn is_in_flight<L: Ledger, R: Wait + Abort>(rt: &R, office: &Office<L>, desk: &mut Desk<L>) {
    let b = first_bsc(rt);
    let again = office.submit(rt, desk, Event::Send(b, LINK));
    same(rt, again, Err(Refusal::InFlight), "it is not in flight");
    enters(rt, office, desk, Event::LinkDown(b, LINK));
    answers_first(rt, office, desk, Question::Table(b), "it is not unknown");
    answers_first(rt, office, desk, Question::Pending(b), "it is not pending");
}

/// How the side ends over a writer that takes so many octets, of which so many at each write, and those that it took. The order is in
/// flight then.
fn breaks<L: Ledger, R: Wait + Abort>(
    rt: &R,
    alloc: Global,
    blank: Blank,
    size: usize,
    room: usize,
    gate: &ShutAt,
) -> (End, Vec<u8>)
    requires name { blank.name ≡ L.name }
    requires parts { blank.parts ≡ L.parts }
    requires desks { blank.parts ≡ 1025 }
{
    let b = first_bsc(rt);
    let (office, mut desk) = linked::<L, R>(rt, alloc, blank, 1000);
    let mut writing = opens(rt, &office);
    let mut sink = FailsAfter::new(memory(alloc, size), room);
    let end = write_side(rt, alloc, &office, &mut writing, b, LINK, &mut sink, gate);
    yes(rt, has_sent(&writing), "it has sent another order");
    is_in_flight(rt, &office, &mut desk);
    (end, sink.into_inner().into_inner().into_inner())
}

#[test]
fn each_octet_of_an_order_may_be_the_last_that_is_written(rt: HostRuntime) {
    for room in 0..116 {
        breaks_after(&rt, rt.alloc(), 116, room);
        breaks_after(&rt, rt.alloc(), 1, room);
    }
}

/// A write fails after so many octets of the order, of which so many are taken at each write.
fn breaks_after<R: Wait + Abort>(rt: &R, alloc: Global, size: usize, room: usize) {
    let gate = ShutAt {
        step: Step::AfterReport,
    };
    let (end, octets) = breaks::<Brand, _>(rt, alloc, Blank::new(1025), size, room, &gate);
    same(rt, end, End::WriteFault, "another end");
    let is_prefix = ORDER.as_slice().get(..room) == Some(octets.as_slice());
    yes(rt, is_prefix, "other octets");
}

#[test]
fn a_gate_may_cut_the_link_before_a_write(rt: HostRuntime) {
    let gate = ShutAt {
        step: Step::BeforeWrite,
    };
    let (end, octets) = breaks::<Brand, _>(&rt, rt.alloc(), Blank::new(1025), 116, 116, &gate);
    same(&rt, end, End::GateShut, "another end");
    yes(&rt, octets.is_empty(), "something was written");
}

/// How the side of a link of that generation ends, at an office whose journal holds so many entries.
fn refused<L: Ledger, R: Wait + Abort>(
    rt: &R,
    alloc: Global,
    blank: Blank,
    journal_limit: u32,
    generation: u64,
) -> End
    requires name { blank.name ≡ L.name }
    requires parts { blank.parts ≡ L.parts }
    requires desks { blank.parts ≡ 1025 }
{
    let b = first_bsc(rt);
    let (office, mut desk) = linked::<L, R>(rt, alloc, blank, journal_limit);
    let mut sink = memory(alloc, 116);
    write_side(
        rt, alloc, &office, &mut desk, b, generation, &mut sink, &OpenGate,
    )
}

#[test]
fn a_refusal_ends_the_side(rt: HostRuntime) {
    let full = End::Refused(Refusal::JournalFull);
    for (limit, generation, want) in [(6, LINK, full), (1000, LINK - 1, End::Superseded)] {
        let end = refused::<Brand, _>(&rt, rt.alloc(), Blank::new(1025), limit, generation);
        same(&rt, end, want, "a refusal");
    }
}

/// The BSC reports, as soon as the report is accepted. The answer is whether it was.
fn reports<L: Ledger, R: Wait + Clock + Abort>(
    rt: &R,
    alloc: Global,
    office: &Office<L>,
    desk: &mut Desk<L>,
    b: BscId,
    frame: (u8, &[u8]),
) -> bool {
    for _turn in 0..30_000 {
        let message = read(alloc, frame.0, frame.1).expect(rt, "a message");
        if office
            .submit(rt, desk, Event::Report(b, LINK, message))
            .is_ok()
        {
            return true;
        }
        thread::sleep(rt, Duration::from_millis(1));
    }
    false
}

/// The body of the MESSAGE STATUS QUERY COMPLETE: the first version was broadcast five times.
const COUNTED: [u8; 17] = [
    0x0e, 0x11, 0x12, 0x02, 0xc0, 0x00, 0x08, 0x00, 0x08, 0x01, 0x00, 0x64, 0x00, 0x07, 0x00, 0x05,
    0x00,
];

/// The frame of the query for it.
const QUERY: [u8; 20] = [
    0x0a, 0x00, 0x00, 0x10, 0x0e, 0x11, 0x12, 0x02, 0xc0, 0x00, 0x04, 0x00, 0x05, 0x01, 0x00, 0x64,
    0x00, 0x07, 0x12, 0x00,
];

/// The BSC answers the first order and then a query that is wished for, and the link is lost.
fn answers<L: Ledger, R: Wait + Clock + Abort>(
    rt: &R,
    alloc: Global,
    office: &Office<L>,
    mut desk: Desk<L>,
    b: BscId,
) -> Desk<L> {
    let is_written = reports(rt, alloc, office, &mut desk, b, (0x02, &COMPLETE[4..]));
    let wished = office.wish(rt, b, first_warning(), None);
    let is_asked = reports(rt, alloc, office, &mut desk, b, (0x0b, &COUNTED));
    enters(rt, office, &mut desk, Event::LinkDown(b, LINK));
    same(rt, wished, Ok(()), "a wish");
    yes(rt, is_written && is_asked, "a report is not accepted");
    desk
}

/// How the side ends, and its desk and its writer.
fn writes<L: Ledger, R: Wait>(
    rt: &R,
    alloc: Global,
    office: &Office<L>,
    mut desk: Desk<L>,
    b: BscId,
) -> (Desk<L>, Memory, End) {
    let mut sink = memory(alloc, 1);
    let end = write_side(rt, alloc, office, &mut desk, b, LINK, &mut sink, &OpenGate);
    (desk, sink, end)
}

/// After how many entries the desks settle, 0 where they don't.
fn entries<L: Ledger>(office: Office<L>, desks: Vec<Desk<L>>) -> u64 {
    match office.settle(desks) {
        Ok(centre) => {
            let position = centre.position();
            drop(centre);
            position
        }
        Err(unsettled) => {
            drop(unsettled);
            0
        }
    }
}

/// A BSC answers what the side writes, an octet at each write, in another thread, until the link is lost. How the side ends, what it
/// wrote, and after how many entries.
fn at_once<L: Ledger + Send + Sync, R: Threads + Wait + Clock + Abort + Sync>(
    rt: &R,
    alloc: Global,
    blank: Blank,
) -> (End, Vec<u8>, u64)
    requires name { blank.name ≡ L.name }
    requires parts { blank.parts ≡ L.parts }
    requires desks { blank.parts ≡ 1025 }
{
    let b = first_bsc(rt);
    let (office, desk) = linked::<L, R>(rt, alloc, blank, 1000);
    let writing = opens(rt, &office);
    let shared = &office;
    let (written, desk) = thread::join(
        rt,
        move || writes(rt, alloc, shared, writing, b),
        move || answers(rt, alloc, shared, desk, b),
    );
    let desks = vec![in alloc; desk, written.0].expect(rt, "memory");
    let entries = entries(office, desks);
    (written.2, written.1.into_inner().into_inner(), entries)
}

/// Whether the octets are the one frame and then the other.
fn are_both(octets: &[u8], first: &[u8], second: &[u8]) -> bool {
    octets.strip_prefix(first) == Some(second)
}

#[test]
fn an_order_and_a_query_are_written_until_the_link_is_lost(rt: HostRuntime) {
    let (end, octets, entries) = at_once::<Brand, _>(&rt, rt.alloc(), Blank::new(1025));
    same(&rt, end, End::Superseded, "another end");
    let is_right = are_both(octets.as_slice(), &ORDER, &QUERY);
    yes(&rt, is_right, "other octets");
    same(&rt, entries, 11, "the entries");
}

/// Waits until it is noted that the side has ended.
fn waits_for<R: Wait + Clock + Abort>(rt: &R, has_ended: &Mutex<bool>) {
    for _turn in 0..30_000 {
        if *has_ended.lock(rt) {
            return;
        }
        thread::sleep(rt, Duration::from_millis(1));
    }
    yes(rt, false, "the side doesn't end");
}

/// How the side ends, which is noted, and what it wrote.
fn writes_and_notes<L: Ledger, R: Wait>(
    rt: &R,
    alloc: Global,
    office: &Office<L>,
    desk: Desk<L>,
    has_ended: &Mutex<bool>,
    b: BscId,
) -> (End, Memory) {
    let (desk, sink, end) = writes(rt, alloc, office, desk, b);
    drop(desk);
    *has_ended.lock(rt) = true;
    (end, sink)
}

/// How the side ends at a journal in which the first order takes the last entry, and what it wrote.
fn at_the_last_entry<L: Ledger + Send + Sync, R: Threads + Wait + Clock + Abort + Sync>(
    rt: &R,
    alloc: Global,
    blank: Blank,
) -> (End, Vec<u8>)
    requires name { blank.name ≡ L.name }
    requires parts { blank.parts ≡ L.parts }
    requires desks { blank.parts ≡ 1025 }
{
    let b = first_bsc(rt);
    let (office, desk) = linked::<L, R>(rt, alloc, blank, 7);
    let has_ended = Mutex::new(false);
    let (shared, noted) = (&office, &has_ended);
    let (written, _) = thread::join(
        rt,
        move || writes_and_notes(rt, alloc, shared, desk, noted, b),
        move || waits_for(rt, noted),
    );
    (written.0, written.1.into_inner().into_inner())
}

/// Nobody waits for the reply to an order in a journal that can't take it.
#[test]
fn a_full_journal_ends_the_side_once_its_order_is_written(rt: HostRuntime) {
    let (end, octets) = at_the_last_entry::<Brand, _>(&rt, rt.alloc(), Blank::new(1025));
    let full = End::Refused(Refusal::JournalFull);
    same(&rt, end, full, "another end");
    yes(&rt, octets.as_slice() == ORDER.as_slice(), "other octets");
}

/// Ends, and what is said of them.
const SAID: [(End, &str); 3] = [
    (
        End::BadMessage(MessageFault::Missing {
            id: ElementId::MessageIdentifier,
        }),
        "a message of the BSC can't be read: MessageIdentifier is missing",
    ),
    (
        End::Refused(Refusal::JournalFull),
        "the centre refused to go on: the journal is full",
    ),
    (End::WriteFault, "writing to the BSC failed"),
];

#[test]
fn an_operator_reads_why_a_side_ended(rt: HostRuntime) {
    for (end, text) in &SAID {
        let said = format!(in rt.alloc(); "{end}").expect(&rt, "memory");
        same(&rt, said.as_str(), *text, text);
    }
}
