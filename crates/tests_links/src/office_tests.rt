//! What no clause says of an office: that each call can succeed, that desks in threads of their own can submit at the same
//! time, that a desk is answered by the centre of its own office, and that a missing desk was opened.

ghost use Rattle.std.specs.Prelude.{◌≡◌};

use crate::checks::{same, yes};
use crate::given_events::{SEVEN, coast, first_warning};
use crate::given_link::{edits, first_bsc, new_office, opens};
use cell_register::BscId;
use centre_events::answer::Answer;
use centre_events::event::Event;
use centre_events::refusal::{Limit, Refusal};
use common::Cell;
use coverage_plan::Edit;
use office::desk::Desk;
use office::fault::Fault;
use office::office::Office;
use office::question::Question;
use office::receipt::Receipt;
use office::seen::{Seen, SeenValue};
use std::alloc::Global;
use std::marker::Brand;
use std::process::Abort;
use std::sync::Wait;
use std::sync::ledger::{Blank, Ledger};
use std::thread;
use std::thread::Threads;

/// How many desks an office opens.
const DESKS: u32 = 1024;

/// Whether it is the answer that a cell is registered at the BSC.
fn is_place(seen: &Seen, b: BscId) -> bool {
    match &seen.value {
        SeenValue::Place(place) => *place == Some(b),
        _ => false,
    }
}

/// Whether the office answers the desk that the cell is registered at the BSC.
fn finds<L: Ledger, R: Wait>(
    rt: &R,
    office: &Office<L>,
    desk: &Desk<L>,
    cell: Cell,
    b: BscId,
) -> bool {
    match office.look(rt, desk, Question::Place(cell)) {
        Ok(seen) => {
            let found = is_place(&seen, b);
            drop(seen);
            found
        }
        Err(_) => false,
    }
}

/// Registers so many cells of a location area at the BSC. Hands back the desk, and whether all are registered and the last is
/// found there.
fn registers<L: Ledger, R: Wait>(
    rt: &R,
    office: &Office<L>,
    mut desk: Desk<L>,
    b: BscId,
    lac: u16,
    count: u16,
) -> (Desk<L>, bool) {
    for ci in 0..count {
        let event = Event::Edit(Edit::AddCell(Cell { lac, ci }, b));
        if office.submit(rt, &mut desk, event).is_err() {
            return (desk, false);
        }
    }
    let ci = count.saturating_sub(1);
    let found = finds(rt, office, &desk, Cell { lac, ci }, b);
    (desk, found)
}

/// Two desks register cells of two location areas at the same time, each so many. Hands back the desks, and whether all is as
/// it has to be.
fn both_register<L: Ledger + Send + Sync, R: Threads + Wait + Abort + Sync>(
    rt: &R,
    office: &Office<L>,
    desks: (Desk<L>, Desk<L>),
    b: BscId,
    lac: u16,
    counts: (u16, u16),
) -> (Desk<L>, Desk<L>, bool) {
    let (first, second) = desks;
    let (count, other_count) = counts;
    let other_lac = lac.saturating_add(1);
    let (one, two) = thread::join(
        rt,
        move || registers(rt, office, first, b, lac, count),
        move || registers(rt, office, second, b, other_lac, other_count),
    );
    (one.0, two.0, one.1 && two.1)
}

/// The number of entries, where the desks settle; else the fault.
fn settled<L: Ledger>(office: Office<L>, desks: Vec<Desk<L>>) -> Result<u64, Fault> {
    match office.settle(desks) {
        Ok(centre) => {
            let position = centre.position();
            drop(centre);
            Ok(position)
        }
        Err(unsettled) => {
            let fault = unsettled.fault;
            drop(unsettled);
            Err(fault)
        }
    }
}

/// Four desks in threads of their own submit 25 events each.
fn four_desks<L: Ledger + Send + Sync, R: Threads + Wait + Abort + Sync>(
    rt: &R,
    alloc: Global,
    blank: Blank,
)
    requires name { blank.name ≡ L.name }
    requires parts { blank.parts ≡ L.parts }
    requires desks { blank.parts ≡ 1025 }
{
    let b = first_bsc(rt);
    let office = new_office::<L>(alloc, blank, 1000);
    let shared = &office;
    let mut first = opens(rt, shared);
    let (second, third, fourth) = (opens(rt, shared), opens(rt, shared), opens(rt, shared));
    edits(rt, shared, &mut first, Edit::AddBsc(b));
    let (one, two) = thread::join(
        rt,
        move || both_register(rt, shared, (first, second), b, 100, (24, 25)),
        move || both_register(rt, shared, (third, fourth), b, 200, (25, 25)),
    );
    yes(rt, one.2 && two.2, "a cell is not registered");
    let desks = vec![in alloc; one.0, one.1, two.0, two.1].expect(rt, "memory");
    same(rt, settled(office, desks), Ok(100), "the entries");
}

#[test]
fn four_desks_submit_at_the_same_time(rt: HostRuntime) {
    four_desks::<Brand, _>(&rt, rt.alloc(), Blank::new(1025));
}

/// Opens every desk, each by its number, and says what one more is answered.
fn every_desk<L: Ledger, R: Wait + Abort>(rt: &R, alloc: Global, blank: Blank)
    requires name { blank.name ≡ L.name }
    requires parts { blank.parts ≡ L.parts }
    requires desks { blank.parts ≡ 1025 }
{
    let office = new_office::<L>(alloc, blank, 1000);
    for before in 0..DESKS {
        let desk = opens(rt, &office);
        same(rt, desk.number(), before + 1, "the number of a desk");
    }
    let limit = Refusal::Limit {
        which: Limit::Desks,
    };
    let refused = office.open_desk(rt).err();
    same(rt, refused, Some(limit), "one desk more");
}

#[test]
fn an_office_opens_1024_desks(rt: HostRuntime) {
    every_desk::<Brand, _>(&rt, rt.alloc(), Blank::new(1025));
}

/// Settles without desk 2 of two.
fn without_a_desk<L: Ledger, R: Wait + Abort>(rt: &R, alloc: Global, blank: Blank)
    requires name { blank.name ≡ L.name }
    requires parts { blank.parts ≡ L.parts }
    requires desks { blank.parts ≡ 1025 }
{
    let office = new_office::<L>(alloc, blank, 1000);
    let first = opens(rt, &office);
    drop(opens(rt, &office));
    let desks = vec![in alloc; first].expect(rt, "memory");
    let missing = Fault::MissingDesk { desk: 2 };
    same(rt, settled(office, desks), Err(missing), "a missing desk");
}

#[test]
fn a_missing_desk_is_named(rt: HostRuntime) {
    without_a_desk::<Brand, _>(&rt, rt.alloc(), Blank::new(1025));
}

/// Whether it is the receipt of the first entry, of which nothing more is told.
fn is_first(receipt: &Receipt) -> bool {
    receipt.place == 1 && receipt.answer.same(&Answer::Done)
}

/// The receipt of an event is lent, and the same event is refused the next time.
fn lends<L: Ledger, R: Wait + Abort>(rt: &R, office: &Office<L>, desk: &mut Desk<L>, b: BscId) {
    let receipt = desk.submit(rt, office, Event::Edit(Edit::AddBsc(b)));
    let is_lent = is_first(receipt.expect(rt, "the event is entered"));
    yes(rt, is_lent, "another receipt");
    let again = desk.submit(rt, office, Event::Edit(Edit::AddBsc(b))).err();
    same(rt, again, Some(Refusal::BscExists), "the same event");
}

/// Whether it is an answer without orders or keys, or that nothing is in flight.
fn is_without(value: &SeenValue) -> bool {
    match value {
        SeenValue::Pending(orders) => orders.as_slice().is_empty(),
        SeenValue::Table(keys) => keys.as_slice().is_empty(),
        SeenValue::InFlight(flight) => flight.is_none(),
        _ => false,
    }
}

/// The answer to the question comes after one entry, and has nothing in it.
fn answers_nothing<L: Ledger, R: Wait + Abort>(
    rt: &R,
    office: &Office<L>,
    desk: &Desk<L>,
    question: Question,
    at: &str,
) {
    let seen = office.look(rt, desk, question).expect(rt, at);
    let is_right = seen.position == 1 && is_without(&seen.value);
    drop(seen);
    yes(rt, is_right, at);
}

/// Each question is answered as it has to be, at a BSC without a cell.
fn answers<L: Ledger, R: Wait + Abort>(
    rt: &R,
    alloc: Global,
    office: &Office<L>,
    desk: &Desk<L>,
    b: BscId,
) {
    answers_nothing(rt, office, desk, Question::Pending(b), "orders");
    answers_nothing(rt, office, desk, Question::Table(b), "keys");
    answers_nothing(rt, office, desk, Question::InFlight(b), "in flight");
    let first = first_warning();
    let total = office.look(rt, desk, Question::Total(first)).err();
    same(rt, total, Some(Refusal::NoSuchWarning), "a warning");
    let area = Question::Area(first, coast(rt, alloc));
    let area = office.look(rt, desk, area).err();
    same(rt, area, Some(Refusal::NoSuchArea), "an area");
}

/// Each call of an office and of a desk.
fn calls<L: Ledger, R: Wait + Abort>(rt: &R, alloc: Global, blank: Blank)
    requires name { blank.name ≡ L.name }
    requires parts { blank.parts ≡ L.parts }
    requires desks { blank.parts ≡ 1025 }
{
    let b = first_bsc(rt);
    let office = new_office::<L>(alloc, blank, 1000);
    let mut desk = opens(rt, &office);
    lends(rt, &office, &mut desk, b);
    answers(rt, alloc, &office, &desk, b);
    let rebuilt = office.rebuild(rt, &desk);
    rebuilt.expect(rt, "the centre is rebuilt");
    edits(rt, &office, &mut desk, Edit::AddCell(SEVEN, b));
    let found = finds(rt, &office, &desk, SEVEN, b);
    yes(rt, found, "the cell isn't found");
    same(rt, desk.receipts().len(), 2, "the receipts");
}

#[test]
fn every_call_answers(rt: HostRuntime) {
    calls::<Brand, _>(&rt, rt.alloc(), Blank::new(1025));
}

/// Two desks submit 50 events each at the same time. Between its own, the first has the entries folded.
fn two_desks<L: Ledger + Send + Sync, R: Threads + Wait + Abort + Sync>(
    rt: &R,
    alloc: Global,
    blank: Blank,
)
    requires name { blank.name ≡ L.name }
    requires parts { blank.parts ≡ L.parts }
    requires desks { blank.parts ≡ 1025 }
{
    let b = first_bsc(rt);
    let office = new_office::<L>(alloc, blank, 1000);
    let shared = &office;
    let mut first = opens(rt, shared);
    let second = opens(rt, shared);
    edits(rt, shared, &mut first, Edit::AddBsc(b));
    let (one, two) = thread::join(
        rt,
        move || registers_and_folds(rt, shared, first, b),
        move || registers(rt, shared, second, b, 200, 50),
    );
    yes(rt, one.1 && two.1, "a cell is not registered");
    let desks = vec![in alloc; one.0, two.0].expect(rt, "memory");
    same(rt, settled(office, desks), Ok(100), "the entries");
}

/// Registers 24 cells of a location area at the BSC, folds the entries, and registers 25 cells of another. Hands back the desk,
/// and whether all is as it has to be.
fn registers_and_folds<L: Ledger, R: Wait>(
    rt: &R,
    office: &Office<L>,
    desk: Desk<L>,
    b: BscId,
) -> (Desk<L>, bool) {
    let (desk, is_first) = registers(rt, office, desk, b, 100, 24);
    let is_folded = office.checkpoint(rt).is_ok_and(|folded| folded >= 25);
    let (desk, is_second) = registers(rt, office, desk, b, 101, 25);
    (desk, is_first && is_folded && is_second)
}

#[test]
fn two_desks_settle_after_a_checkpoint(rt: HostRuntime) {
    two_desks::<Brand, _>(&rt, rt.alloc(), Blank::new(1025));
}
