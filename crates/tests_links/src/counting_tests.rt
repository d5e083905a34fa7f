//! What no clause says of what an office counts: that a survey has it.

ghost use Rattle.std.specs.Prelude.{◌≡◌};

use crate::checks::same;
use crate::given_events::bsc;
use crate::given_link::{LINK, edits, first_bsc, linked, new_office, opens};
use centre_events::event::Event;
use centre_events::refusal::Refusal;
use coverage_plan::Edit;
use office::counts::Counts;
use office::desk::Desk;
use office::event_kind::EventKind;
use office::office::Office;
use office::question::Question;
use office::unsent::Unsent;
use std::alloc::Global;
use std::marker::Brand;
use std::process::Abort;
use std::sync::Wait;
use std::sync::ledger::{Blank, Ledger};

/// Two BSCs are registered, one of them a second time, and the loss of a link is refused where there is none.
fn enters_some<L: Ledger, R: Wait + Abort>(rt: &R, office: &Office<L>, desk: &mut Desk<L>) {
    let (first, second) = (bsc(rt, 1), bsc(rt, 2));
    edits(rt, office, desk, Edit::AddBsc(first));
    edits(rt, office, desk, Edit::AddBsc(second));
    let again = office.submit(rt, desk, Event::Edit(Edit::AddBsc(first)));
    same(rt, again, Err(Refusal::BscExists), "it is there already");
    let lost = office.submit(rt, desk, Event::LinkDown(second, 0));
    same(rt, lost, Err(Refusal::LinkNotUp), "no link is up");
}

/// How many BSCs were registered, how many events were refused for each of two causes, and how many receipts desks keep.
fn counts_in(counts: &Counts) -> [u64; 4] {
    [
        counts.entries(EventKind::AddBsc),
        counts.refusals(Refusal::BscExists),
        counts.refusals(Refusal::LinkNotUp),
        counts.receipts(),
    ]
}

/// The same by a survey.
fn counted<L: Ledger, R: Wait + Abort>(rt: &R, office: &Office<L>) -> [u64; 4] {
    let surveyed = office.survey(rt).expect(rt, "memory");
    let found = counts_in(&surveyed.counts);
    drop(surveyed);
    found
}

/// The same after some events.
fn counts<L: Ledger, R: Wait + Abort>(rt: &R, alloc: Global, blank: Blank) -> [u64; 4]
    requires name { blank.name ≡ L.name }
    requires parts { blank.parts ≡ L.parts }
    requires desks { blank.parts ≡ 1025 }
{
    let office = new_office::<L>(alloc, blank, 1000);
    let mut desk = opens(rt, &office);
    enters_some(rt, &office, &mut desk);
    let found = counted(rt, &office);
    drop(desk);
    drop(office);
    found
}

#[test]
fn events_and_refusals_are_counted(rt: HostRuntime) {
    let found = counts::<Brand, _>(&rt, rt.alloc(), Blank::new(1025));
    same(&rt, found, [2, 1, 1, 2], "what a survey has");
}

/// What is due at the BSC is entered at the desk, which fills the journal: the next order is refused. A question for the cells of a BSC
/// that isn't there is refused too.
fn sends_one<L: Ledger, R: Wait + Abort>(rt: &R, office: &Office<L>, desk: &mut Desk<L>) {
    let sent = office.send_due(rt, desk, first_bsc(rt), LINK);
    same(rt, sent, Ok(()), "an order");
    let sent = office.send_due(rt, desk, first_bsc(rt), LINK);
    let refused = Err(Unsent::Refused(Refusal::JournalFull));
    same(rt, sent, refused, "a full journal");
    let seen = office.look(rt, desk, Question::Cells(bsc(rt, 9)));
    same(rt, seen.err(), Some(Refusal::NoSuchBsc), "no such BSC");
}

/// The entries are folded, and the desk lets go of its receipts of them.
fn folds_all<L: Ledger, R: Wait + Abort>(rt: &R, office: &Office<L>, desk: &mut Desk<L>) {
    same(rt, office.checkpoint(rt).is_ok(), true, "a fold");
    let _ = office.release(rt, desk);
}

/// How many BSCs were registered and orders sent, how many orders and questions were refused, and how many receipts desks keep.
fn sent_in(counts: &Counts) -> [u64; 5] {
    [
        counts.entries(EventKind::AddBsc),
        counts.entries(EventKind::Send),
        counts.refusals(Refusal::JournalFull),
        counts.refusals(Refusal::NoSuchBsc),
        counts.receipts(),
    ]
}

/// The same by a survey.
fn sent<L: Ledger, R: Wait + Abort>(rt: &R, office: &Office<L>) -> [u64; 5] {
    let surveyed = office.survey(rt).expect(rt, "memory");
    let found = sent_in(&surveyed.counts);
    drop(surveyed);
    found
}

/// The same after an order that fills the journal, and after one event more, whose receipt is let go alone.
fn sends<L: Ledger, R: Wait + Abort>(rt: &R, alloc: Global, blank: Blank) -> [[u64; 5]; 2]
    requires name { blank.name ≡ L.name }
    requires parts { blank.parts ≡ L.parts }
    requires desks { blank.parts ≡ 1025 }
{
    let (office, mut desk) = linked::<L, R>(rt, alloc, blank, 7);
    sends_one(rt, &office, &mut desk);
    let before = sent(rt, &office);
    folds_all(rt, &office, &mut desk);
    edits(rt, &office, &mut desk, Edit::AddBsc(bsc(rt, 2)));
    folds_all(rt, &office, &mut desk);
    let after = sent(rt, &office);
    drop(desk);
    drop(office);
    [before, after]
}

#[test]
fn orders_and_receipts_that_are_let_go_are_counted(rt: HostRuntime) {
    let [before, after] = sends::<Brand, _>(&rt, rt.alloc(), Blank::new(1025));
    same(&rt, before, [1, 1, 1, 1, 7], "after an order");
    same(&rt, after, [2, 1, 1, 1, 0], "once all is let go");
}
