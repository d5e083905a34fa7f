//! What no clause says of a centre that is rebuilt or for which memory ran out: that a rebuild succeeds and leaves all
//! as it was, what the meter counts, and that an event that isn't entered leaves the centre as it was or stale. With ample
//! memory each event is entered at once; `rt try --test --fail-alloc N` refuses the Nth allocation of each test.

use crate::checks::{same, yes};
use crate::day::{DAY, NOT_THERE, WRITE_FAILURE, after};
use crate::steps::{EIGHT, NETWORK, SEVEN, Step, bsc, event_of, first_id, refusal, takes};
use cbsp_ie::Cause;
use cell_register::BscId;
use centre_core::centre::Centre;
use centre_events::answer::Answer;
use centre_events::entry::Entry;
use centre_events::event::Event;
use centre_events::outcome::Outcome;
use centre_events::refusal::Refusal;
use centre_events::reply::Reply;
use common::Cell;
use std::alloc::Global;
use std::process::Abort;

/// The numbers of the first warning, none where it isn't in the book.
fn board(centre: &Centre) -> Result<[u64; 4], Refusal> {
    match centre.board_total(first_id()) {
        Ok(n) => Ok([n.awaited, n.on_air, n.failed, n.left]),
        Err(Refusal::NoSuchWarning) => Ok([0, 0, 0, 0]),
        Err(refusal) => Err(refusal),
    }
}

/// How many orders are pending for the BSC, none where it isn't registered.
fn pending(centre: &Centre, b: BscId) -> Result<u64, Refusal> {
    match centre.pending_of(b) {
        Ok(orders) => Ok(orders.as_slice().len() as u64),
        Err(Refusal::NoSuchBsc) => Ok(0),
        Err(refusal) => Err(refusal),
    }
}

/// How many keys it has reported.
fn reported(centre: &mut Centre, b: BscId) -> Result<u64, Refusal> {
    match centre.table_of(b) {
        Ok(keys) => Ok(keys.as_slice().len() as u64),
        Err(Refusal::NoSuchBsc) => Ok(0),
        Err(refusal) => Err(refusal),
    }
}

/// All of these.
fn state(centre: &mut Centre, b: BscId) -> Result<[u64; 6], Refusal> {
    let [awaited, on_air, failed, left] = board(centre)?;
    let orders = pending(centre, b)?;
    let keys = reported(centre, b)?;
    Ok([awaited, on_air, failed, left, orders, keys])
}

/// The centre is whole and says this, once memory is there.
pub(crate) fn is_whole(rt: &impl Abort, centre: &mut Centre, b: BscId, want: [u64; 6]) {
    yes(rt, !centre.is_stale(), "the centre is whole");
    let said = match state(centre, b) {
        Err(Refusal::Memory) => state(centre, b),
        said => said,
    };
    same(rt, said, Ok(want), "the numbers");
}

/// The centre is stale, and so answers every question.
fn is_of_no_use(rt: &impl Abort, centre: &mut Centre, b: BscId) {
    let stale = Some(Refusal::Stale);
    yes(rt, centre.is_stale(), "the centre is stale");
    same(rt, refusal(centre, Event::Retry(b)), stale, "an event");
    same(rt, centre.checkpoint().err(), stale, "a checkpoint");
    same(rt, centre.pending_of(b).err(), stale, "the orders");
    same(rt, centre.in_flight_of(b).err(), stale, "the flight");
    same(rt, centre.place_of(SEVEN).err(), stale, "the place");
    same(rt, centre.table_of(b).err(), stale, "the table");
    same(rt, centre.board_total(first_id()).err(), stale, "the board");
}

pub(crate) fn rebuilds(rt: &impl Abort, centre: &mut Centre) {
    yes(rt, centre.rebuild().is_ok(), "the centre is rebuilt");
}

/// A stale centre is stale until a rebuild has the memory that it takes.
fn is_rebuilt(rt: &impl Abort, centre: &mut Centre, b: BscId) {
    is_of_no_use(rt, centre, b);
    if centre.rebuild().is_err() {
        is_of_no_use(rt, centre, b);
        rebuilds(rt, centre);
    }
}

/// Memory ran out for an event: the centre has no entry more, is whole or rebuilt, and is as it was before.
fn is_left(rt: &impl Abort, centre: &mut Centre, b: BscId, position: u64, before: [u64; 6]) {
    yes(rt, centre.position() == position, "no entry is made");
    if centre.is_stale() {
        is_rebuilt(rt, centre, b);
    }
    is_whole(rt, centre, b, before);
}

/// The event of the step is entered, at once or where memory ran out once.
pub(crate) fn enters(
    rt: &impl Abort,
    alloc: Global,
    centre: &mut Centre,
    step: Step,
    before: [u64; 6],
) {
    let position = centre.position();
    let event = event_of(rt, alloc, step);
    if let Some(refusal) = refusal(centre, event) {
        yes(rt, refusal == Refusal::Memory, "memory ran out");
        is_left(rt, centre, bsc(rt, 1), position, before);
        takes(rt, alloc, centre, step);
    }
}

/// A centre after so many steps of the day, each of which leaves what it is to leave.
fn entered(rt: &impl Abort, alloc: Global, count: usize) -> Centre {
    let mut centre = Centre::new(alloc, NETWORK, 100);
    let mut before = [0, 0, 0, 0, 0, 0];
    for (step, after) in DAY.iter().take(count) {
        enters(rt, alloc, &mut centre, *step, before);
        is_whole(rt, &mut centre, bsc(rt, 1), *after);
        before = *after;
    }
    centre
}

/// The entry is copied, once memory is there.
fn is_copied(rt: &impl Abort, alloc: Global, entry: &Entry) {
    let copy = match entry.copied(alloc) {
        Ok(copy) => copy,
        Err(_) => entry.copied(alloc).expect(rt, "memory"),
    };
    let is_same = entry.same(&copy);
    drop(copy);
    yes(rt, is_same, "the entry is copied");
}

/// The entry at that place is of the event, and is copied.
fn has_entry(rt: &impl Abort, alloc: Global, centre: &mut Centre, place: u64, event: &Event) {
    let entry = centre.entry(place).expect(rt, "the entry is there");
    yes(rt, entry.event.same(event), "the entry has its event");
    is_copied(rt, alloc, entry);
}

/// The centre has an entry of each of so many steps of the day, and no others.
fn has_journal(rt: &impl Abort, alloc: Global, centre: &mut Centre, count: usize) {
    let mut place = 0u64;
    for (step, _) in DAY.iter().take(count) {
        place = place.saturating_add(1);
        let event = event_of(rt, alloc, *step);
        has_entry(rt, alloc, centre, place, &event);
        drop(event);
    }
    yes(rt, centre.position() == place, "there are no other entries");
}

/// What is said of the cell, without a number of broadcasts.
fn reply(cell: Cell, outcome: Outcome) -> Reply {
    Reply {
        cell,
        outcome,
        count: None,
    }
}

/// The entry at that place is answered that these are the outcomes.
fn is_replied(rt: &impl Abort, centre: &mut Centre, place: u64, want: &[Reply]) {
    let entry = centre.entry(place).expect(rt, "the entry is there");
    let is_so = match &entry.answer {
        Answer::Replied(said) => said.as_slice() == want,
        _ => false,
    };
    yes(rt, is_so, "the replies");
}

/// The entry at that place is answered that these are the cells.
fn is_listed(rt: &impl Abort, centre: &mut Centre, place: u64, want: &[Cell]) {
    let entry = centre.entry(place).expect(rt, "the entry is there");
    let is_so = match &entry.answer {
        Answer::Listed(cells) => cells.as_slice() == want,
        _ => false,
    };
    yes(rt, is_so, "the cells");
}

/// What the reports of the day are answered.
fn reports_are_answered(rt: &impl Abort, centre: &mut Centre) {
    let full = Outcome::Refused(Cause::CELL_MEMORY_EXCEEDED);
    let failed = Outcome::Refused(Cause::UNSPECIFIED_ERROR);
    let gone = Outcome::Refused(Cause::MESSAGE_REFERENCE_NOT_IDENTIFIED);
    let eighth = reply(EIGHT, Outcome::Done);
    is_replied(rt, centre, 9, &[reply(SEVEN, full), eighth]);
    is_listed(rt, centre, 10, &[EIGHT]);
    is_listed(rt, centre, 12, &[EIGHT]);
    is_replied(rt, centre, 27, &[reply(SEVEN, failed), eighth]);
    is_replied(rt, centre, 30, &[reply(SEVEN, gone)]);
}

/// Events of every kind.
#[test]
fn want_of_memory_leaves_a_centre_whole_or_stale(rt: HostRuntime) {
    let mut centre = entered(&rt, rt.alloc(), 34);
    has_journal(&rt, rt.alloc(), &mut centre, 34);
    reports_are_answered(&rt, &mut centre);
    drop(centre);
}

/// A rebuild for which memory runs out leaves the centre as it was.
fn can_be_rebuilt(rt: &impl Abort, centre: &mut Centre, b: BscId, want: [u64; 6]) {
    if centre.rebuild().is_err() {
        is_whole(rt, centre, b, want);
        rebuilds(rt, centre);
    }
    is_whole(rt, centre, b, want);
}

/// As far as the warning is narrowed.
#[test]
fn want_of_memory_in_a_rebuild_leaves_a_centre_as_it_was(rt: HostRuntime) {
    let mut centre = entered(&rt, rt.alloc(), 21);
    can_be_rebuilt(&rt, &mut centre, bsc(&rt, 1), [1, 0, 0, 2, 2, 2]);
    has_journal(&rt, rt.alloc(), &mut centre, 21);
    drop(centre);
}

/// A new centre that is rebuilt has read no line.
#[test]
fn a_new_centre_is_rebuilt(rt: HostRuntime) {
    let mut centre = Centre::new(rt.alloc(), NETWORK, 100);
    rebuilds(&rt, &mut centre);
    yes(&rt, centre.meter().lines == 0, "no line is read");
    drop(centre);
}

/// What is refused reads and sets no line, and an event one that it bears on four times at most. In flight is a KILL in
/// one cell.
#[test]
fn the_meter_counts_lines(rt: HostRuntime) {
    let alloc = rt.alloc();
    let mut centre = after(&rt, alloc, 29);
    let before = centre.meter().lines;
    let event = event_of(&rt, alloc, Step::Report(25, 0x03, WRITE_FAILURE));
    let refused = refusal(&mut centre, event);
    same(&rt, refused, Some(Refusal::NoOrder), "a report of no order");
    yes(&rt, centre.meter().lines == before, "no line is read");
    takes(&rt, alloc, &mut centre, Step::Report(25, 0x15, NOT_THERE));
    let lines = centre.meter().lines.saturating_sub(before);
    yes(&rt, 0 < lines && lines <= 4, "a line is read");
    drop(centre);
}
