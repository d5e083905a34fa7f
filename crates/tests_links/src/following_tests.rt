//! What no clause says of the calls for those who follow a journal: that each can succeed, and that who waits for entries is woken by
//! an event, by an order that is sent and by an interruption.

ghost use Rattle.std.specs.Prelude.{◌≡◌};

use crate::checks::{same, yes};
use crate::given_events::bsc;
use crate::given_link::{LINK, edits, enters, first_bsc, linked, new_office, opens};
use cell_register::BscId;
use centre_events::answer::Answer;
use centre_events::entry::Entry;
use centre_events::event::Event;
use coverage_plan::Edit;
use office::desk::Desk;
use office::entries::Entries;
use office::office::Office;
use office::progress::Progress;
use std::alloc::Global;
use std::marker::Brand;
use std::process::Abort;
use std::rt::Clock;
use std::sync::Wait;
use std::sync::ledger::{Blank, Ledger};
use std::thread;
use std::thread::Threads;
use std::time::Duration;

/// The BSCs from that number to that one are registered, by desk 1: each is an entry.
fn adds<L: Ledger, R: Wait + Abort>(
    rt: &R,
    office: &Office<L>,
    desk: &mut Desk<L>,
    first: u16,
    last: u16,
) {
    for number in first..=last {
        edits(rt, office, desk, Edit::AddBsc(bsc(rt, number)));
    }
}

/// Whether it is the entry in which desk 1 registers the BSC.
fn is_added(entry: &Entry, b: BscId) -> bool {
    let answer = match &entry.answer {
        Answer::Done => true,
        _ => false,
    };
    let event = match &entry.event {
        Event::Edit(Edit::AddBsc(added)) => *added == b,
        _ => false,
    };
    entry.desk == 1 && event && answer
}

/// So many entries are missed, and the others are those of the BSCs from that number to that one.
fn are<R: Abort>(rt: &R, handed: &Entries, missed: u64, first: u16, last: u16, at: &str) {
    same(rt, handed.missed, missed, at);
    let mut number = first;
    for entry in &handed.entries {
        yes(rt, is_added(entry, bsc(rt, number)), at);
        number = number.saturating_add(1);
    }
    same(rt, number, last.saturating_add(1), at);
}

/// The entries behind that place, at most so many.
fn hands_out<L: Ledger, R: Wait + Abort>(
    rt: &R,
    office: &Office<L>,
    after: u64,
    most: u64,
) -> Entries {
    office.entries(rt, after, most).expect(rt, "memory")
}

/// Behind that place, at most so many, so many are missed, and the entries are those of the BSCs from that number to that one.
fn finds<L: Ledger, R: Wait + Abort>(
    rt: &R,
    office: &Office<L>,
    asked: (u64, u64),
    found: (u64, u16, u16),
    at: &str,
) {
    let handed = hands_out(rt, office, asked.0, asked.1);
    are(rt, &handed, found.0, found.1, found.2, at);
}

/// A fold behind that place folds so many entries, and hands out these.
fn folds<L: Ledger, R: Wait + Abort>(
    rt: &R,
    office: &Office<L>,
    asked: (u64, u64),
    found: (u64, u16, u16),
    at: &str,
) {
    let folded = office.checkpoint_after(rt, asked.0).expect(rt, "memory");
    same(rt, folded.count, asked.1, at);
    are(rt, &folded.rest, found.0, found.1, found.2, at);
}

/// What is handed out of five entries.
const FOUND: [((u64, u64), (u64, u16, u16), &str); 6] = [
    ((0, 10), (0, 1, 5), "all"),
    ((1, 2), (0, 2, 3), "two of them"),
    ((4, 1), (0, 5, 5), "the last"),
    ((5, 1), (0, 6, 5), "none behind it"),
    ((9, 1), (0, 6, 5), "none further on"),
    ((2, 0), (0, 3, 2), "none wanted"),
];

/// Five entries are handed out, before and after a fold that hands out the last three.
fn hand_out_five<L: Ledger, R: Wait + Abort>(rt: &R, office: &Office<L>, desk: &mut Desk<L>) {
    finds(rt, office, (0, 10), (0, 1, 0), "nothing yet");
    adds(rt, office, desk, 1, 5);
    same(rt, office.position(rt), 5, "the position");
    for (asked, found, at) in FOUND {
        finds(rt, office, asked, found, at);
    }
    folds(rt, office, (2, 5), (0, 3, 5), "those not handed out");
    is_folded(rt, office, desk);
}

/// Entries are handed out by an office of its own.
fn follows<L: Ledger, R: Wait + Abort>(rt: &R, alloc: Global, blank: Blank)
    requires name { blank.name ≡ L.name }
    requires parts { blank.parts ≡ L.parts }
    requires desks { blank.parts ≡ 1025 }
{
    let office = new_office::<L>(alloc, blank, 1000);
    let mut desk = opens(rt, &office);
    hand_out_five(rt, &office, &mut desk);
}

/// The five entries are folded, and a sixth comes after them.
fn is_folded<L: Ledger, R: Wait + Abort>(rt: &R, office: &Office<L>, desk: &mut Desk<L>) {
    same(rt, office.unfolded(rt), 0, "all are folded");
    same(rt, office.position(rt), 5, "the position stays");
    adds(rt, office, desk, 6, 7);
    finds(rt, office, (5, 10), (0, 6, 7), "what came since");
    finds(rt, office, (1, 1), (4, 6, 6), "four are missed");
    folds(rt, office, (3, 2), (2, 6, 7), "two are missed");
}

#[test]
fn entries_are_handed_out_in_their_order(rt: HostRuntime) {
    follows::<Brand, _>(&rt, rt.alloc(), Blank::new(1025));
}

/// Waits for an entry behind that place, and hands out where the office is then.
fn waits<L: Ledger, R: Wait>(rt: &R, office: &Office<L>, after: u64, interrupts: u64) -> Progress {
    office.wait_entries(rt, after, interrupts)
}

/// What wakes who waits for an entry.
#[derive(Clone, Copy)]
enum Cause {
    Event,
    Order,
    Interrupt,
}

/// Some time later it comes.
fn comes_later<L: Ledger, R: Wait + Clock + Abort>(
    rt: &R,
    office: &Office<L>,
    mut desk: Desk<L>,
    cause: Cause,
) {
    thread::sleep(rt, Duration::from_millis(100));
    let b = first_bsc(rt);
    match cause {
        Cause::Event => enters(rt, office, &mut desk, Event::Retry(b)),
        Cause::Order => {
            let sent = office.send_due(rt, &mut desk, b, LINK);
            same(rt, sent, Ok(()), "an order");
        }
        Cause::Interrupt => office.interrupt(rt),
    }
}

/// Six entries are there when one waits for the seventh. Where the office is once it comes.
fn woken_by<L: Ledger + Send + Sync, R: Threads + Wait + Clock + Abort + Sync>(
    rt: &R,
    alloc: Global,
    blank: Blank,
    cause: Cause,
) -> Progress
    requires name { blank.name ≡ L.name }
    requires parts { blank.parts ≡ L.parts }
    requires desks { blank.parts ≡ 1025 }
{
    let (office, desk) = linked::<L, R>(rt, alloc, blank, 1000);
    let shared = &office;
    same(rt, waits(rt, shared, 5, 0), at(6, 0), "the sixth is there");
    let (_, progress) = thread::join(
        rt,
        move || comes_later(rt, shared, desk, cause),
        move || waits(rt, shared, 6, 0),
    );
    progress
}

/// So many entries, and so many interruptions.
fn at(position: u64, interrupts: u64) -> Progress {
    Progress {
        position,
        interrupts,
    }
}

#[test]
fn who_waits_for_an_entry_is_woken(rt: HostRuntime) {
    for (cause, want) in [
        (Cause::Event, at(7, 0)),
        (Cause::Order, at(7, 0)),
        (Cause::Interrupt, at(6, 1)),
    ] {
        let found = woken_by::<Brand, _>(&rt, rt.alloc(), Blank::new(1025), cause);
        same(&rt, found, want, "where the office is");
    }
}
