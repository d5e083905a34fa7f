//! What no clause says of the sides of a link: that the gate is asked before each report with what it asks of the centre, and told
//! after it whether it answered what was in flight, once it was shown the receipt of one that was entered; and of each order its frame
//! and the place of its entry, before it is written.

ghost use Rattle.std.specs.Prelude.{◌≡◌};

use crate::checks::same;
use crate::given_link::{COMPLETE, LINK, ORDER, STREAM, first_bsc, linked};
use cell_register::BscId;
use centre_events::answer::Answer;
use framing::faulty::FailsAfter;
use framing::{FromRead, FromWrite};
use link_worker::{End, Gate, Load, Passage, read_side, write_side};
use office::desk::Desk;
use office::office::Office;
use office::receipt::Receipt;
use std::alloc::Global;
use std::io::Read;
use std::marker::Brand;
use std::process::Abort;
use std::sync::ledger::{Blank, Ledger};
use std::sync::{Mutex, Wait};

/// The place of the first order's entry, the next one after that in which the link came up.
const PLACE: u64 = LINK + 1;

/// How many orders with the first order's frame and place, other orders, replies and other reports passed. Of how many replies, and of
/// how many indications, the receipt was shown before they passed. How many reports were asked for before they passed, once all before
/// them had passed; their octets, and how many of them may name any number of cells.
#[derive(Clone, Copy, Debug, PartialEq, Eq)]
struct Passed {
    orders: u32,
    others: u32,
    replies: u32,
    reports: u32,
    shown: u32,
    listed: u32,
    asked: u32,
    octets: usize,
    any: u32,
}

const NOTHING: Passed = Passed {
    orders: 0,
    others: 0,
    replies: 0,
    reports: 0,
    shown: 0,
    listed: 0,
    asked: 0,
    octets: 0,
    any: 0,
};

/// A gate that counts what passes.
#[derive(Drop)]
struct Counts {
    passed: Mutex<Passed>,
}

/// With one more.
fn counted(passed: Passed, passage: Passage<'_>) -> Passed {
    let mut more = passed;
    match passage {
        Passage::Order(frame, place) => {
            if frame == ORDER.as_slice() && place == PLACE {
                more.orders = passed.orders.saturating_add(1);
            } else {
                more.others = passed.others.saturating_add(1);
            }
        }
        Passage::Reply => more.replies = passed.replies.saturating_add(1),
        Passage::Report => more.reports = passed.reports.saturating_add(1),
    }
    more
}

/// With one that is asked for.
fn asked(passed: Passed, load: Load) -> Passed {
    let mut more = passed;
    if passed.asked == passed.replies.saturating_add(passed.reports) {
        more.asked = passed.asked.saturating_add(1);
    }
    more.octets = passed.octets.saturating_add(load.octets);
    if load.cells.is_none() {
        more.any = passed.any.saturating_add(1);
    }
    more
}

/// With a receipt that is shown.
fn shown(passed: Passed, receipt: &Receipt) -> Passed {
    let mut more = passed;
    match &receipt.answer {
        Answer::Replied(_) if passed.shown == passed.replies => {
            more.shown = passed.shown.saturating_add(1);
        }
        Answer::Listed(_) if passed.listed == passed.reports => {
            more.listed = passed.listed.saturating_add(1);
        }
        _ => {}
    }
    more
}

impl Gate for Counts {
    fn before_report<R: Wait>(&self, rt: &R, load: Load) {
        let mut passed = self.passed.lock(rt);
        *passed = asked(*passed, load);
    }

    fn entered<R: Wait>(&self, rt: &R, receipt: &Receipt) {
        let mut passed = self.passed.lock(rt);
        *passed = shown(*passed, receipt);
    }

    fn pass<R: Wait>(&self, rt: &R, _b: BscId, passage: Passage<'_>) -> bool {
        let mut passed = self.passed.lock(rt);
        *passed = counted(*passed, passage);
        true
    }
}

/// The first order is written over a connection that takes no octet.
fn writes<L: Ledger, R: Wait + Abort>(
    rt: &R,
    alloc: Global,
    office: &Office<L>,
    desk: &mut Desk<L>,
    gate: &Counts,
) {
    let b = first_bsc(rt);
    let mut sink = FailsAfter::new(FromWrite::new(Vec::new(alloc)), 0);
    let end = write_side(rt, alloc, office, desk, b, LINK, &mut sink, gate);
    same(rt, end, End::WriteFault, "the write side");
}

/// The BSC answers it twice, with a RESTART between.
fn reads<L: Ledger, R: Wait + Abort>(
    rt: &R,
    alloc: Global,
    office: &Office<L>,
    desk: &mut Desk<L>,
    gate: &Counts,
) {
    let b = first_bsc(rt);
    let mut source = FromRead::new(STREAM.as_slice().chain(COMPLETE.as_slice()));
    let end = read_side(rt, alloc, office, desk, b, LINK, &mut source, gate);
    same(rt, end, End::PeerEnded, "the read side");
}

/// An order goes out, and reports come. What passed after the one and after the other.
fn passed_by<L: Ledger, R: Wait + Abort>(
    rt: &R,
    alloc: Global,
    office: &Office<L>,
    desk: &mut Desk<L>,
) -> (Passed, Passed) {
    let gate = Counts {
        passed: Mutex::new(NOTHING),
    };
    writes(rt, alloc, office, desk, &gate);
    let written = *gate.passed.lock(rt);
    reads(rt, alloc, office, desk, &gate);
    (written, gate.passed.into_inner())
}

/// The same, of an office of its own.
fn passes<L: Ledger, R: Wait + Abort>(rt: &R, alloc: Global, blank: Blank) -> (Passed, Passed)
    requires name { blank.name ≡ L.name }
    requires parts { blank.parts ≡ L.parts }
    requires desks { blank.parts ≡ 1025 }
{
    let (office, mut desk) = linked::<L, R>(rt, alloc, blank, 1000);
    passed_by(rt, alloc, &office, &mut desk)
}

#[test]
fn a_gate_is_told_what_passes(rt: HostRuntime) {
    let (written, read) = passes::<Brand, _>(&rt, rt.alloc(), Blank::new(1025));
    let order = Passed {
        orders: 1,
        ..NOTHING
    };
    same(&rt, written, order, "an order");
    let reports = Passed {
        orders: 1,
        others: 0,
        replies: 1,
        reports: 2,
        shown: 1,
        listed: 1,
        asked: 3,
        octets: 40,
        any: 1,
    };
    same(
        &rt,
        read,
        reports,
        "a reply, a RESTART, and a reply to nothing",
    );
}
