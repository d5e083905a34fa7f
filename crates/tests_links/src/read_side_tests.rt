//! What no clause says of the side of a link that reads: that reports are submitted, that frames of other types are passed over and
//! replies that answer nothing too, and how it ends at streams that fail or end early, at links that are over and at refusals.

ghost use Rattle.std.specs.Prelude.{◌≡◌};

use crate::checks::same;
use crate::given_link::{COMPLETE, LINK, ORDER, STREAM, ShutAt, enters, first_bsc, linked, opens};
use cbsp_ie::ElementId;
use cbsp_messages::MessageFault;
use centre_events::event::Event;
use centre_events::refusal::Refusal;
use framing::faulty::{EndsAtRead, FailsAtRead, InPieces};
use framing::{FromRead, Source};
use link_worker::{End, Gate, OpenGate, Step, read_side};
use std::alloc::Global;
use std::io::Read;
use std::marker::Brand;
use std::process::Abort;
use std::sync::Wait;
use std::sync::ledger::{Blank, Ledger};

/// How the side ends over the source, and how many reports are accepted, while the first order is in flight.
fn reads<L: Ledger, S: Source + Drop, G: Gate, R: Wait + Abort>(
    rt: &R,
    alloc: Global,
    blank: Blank,
    generation: u64,
    mut source: S,
    gate: &G,
) -> (End, usize)
    requires name { blank.name ≡ L.name }
    requires parts { blank.parts ≡ L.parts }
    requires desks { blank.parts ≡ 1025 }
{
    let b = first_bsc(rt);
    let (office, mut desk) = linked::<L, R>(rt, alloc, blank, 1000);
    enters(rt, &office, &mut desk, Event::Send(b, LINK));
    let mut reading = opens(rt, &office);
    let end = read_side(
        rt,
        alloc,
        &office,
        &mut reading,
        b,
        generation,
        &mut source,
        gate,
    );
    (end, reading.receipts().len())
}

/// The same over the link that is up, with an open gate.
fn read<S: Source + Drop, R: Wait + Abort>(rt: &R, alloc: Global, source: S) -> (End, usize) {
    reads::<Brand, S, OpenGate, R>(rt, alloc, Blank::new(1025), LINK, source, &OpenGate)
}

/// The octets come in two pieces, and the side ends so.
fn ends<R: Wait + Abort>(
    rt: &R,
    alloc: Global,
    pieces: (&[u8], &[u8]),
    want: (End, usize),
    at: &str,
) {
    let source = FromRead::new(pieces.0.chain(pieces.1));
    same(rt, read(rt, alloc, source), want, at);
}

/// However the octets are cut into two pieces, the side ends so.
fn ends_however_cut<R: Wait + Abort>(rt: &R, alloc: Global, octets: &[u8], want: (End, usize)) {
    for cut in 0..=octets.len() {
        ends(rt, alloc, octets.split_at(cut), want, "a cut");
    }
}

#[test]
fn reports_are_submitted_however_the_stream_is_cut(rt: HostRuntime) {
    ends_however_cut(&rt, rt.alloc(), &STREAM, (End::PeerEnded, 2));
    let early = &STREAM[..37];
    ends_however_cut(&rt, rt.alloc(), early, (End::CutFrame, 1));
}

/// How many reports are whole in so many octets of the stream.
fn reports_in(octets: u64) -> usize {
    if octets < 20 {
        0
    } else if octets < 38 {
        1
    } else {
        2
    }
}

/// What the end of the stream after so many octets is.
fn end_after(octets: u64) -> End {
    if octets == 0 || octets == 20 || octets == 26 || octets == 38 {
        End::PeerEnded
    } else {
        End::CutFrame
    }
}

/// The stream, an octet at each read.
fn octet_by_octet() -> InPieces<FromRead<&'static [u8]>> {
    InPieces::new(FromRead::new(STREAM.as_slice()), 1)
}

#[test]
fn each_octet_may_be_the_last(rt: HostRuntime) {
    for given in 0..=38 {
        let source = EndsAtRead::new(octet_by_octet(), given + 1);
        let want = (end_after(given), reports_in(given));
        same(&rt, read(&rt, rt.alloc(), source), want, "an early end");
    }
}

#[test]
fn each_read_may_fail(rt: HostRuntime) {
    for given in 0..=38 {
        let source = FailsAtRead::new(octet_by_octet(), given + 1);
        let want = (End::ReadFault, reports_in(given));
        same(&rt, read(&rt, rt.alloc(), source), want, "a failed read");
    }
}

/// Octets of a BSC, which come in two pieces.
struct Row {
    at: &'static str,
    octets: &'static [u8],
    rest: &'static [u8],
    end: End,
    reports: usize,
}

/// The header of a body of 262,145 octets, and of one of 262,144.
const LONG: &[u8] = &[0x02, 0x04, 0x00, 0x01];

const LONGEST: &[u8] = &[0x02, 0x04, 0x00, 0x00];

/// A COMPLETE that has its message identifier twice.
const TWICE: &[u8] = &[
    0x02, 0x00, 0x00, 0x09, 0x0e, 0x11, 0x12, 0x03, 0xc0, 0x00, 0x0e, 0x11, 0x12,
];

const IS_TWICE: End = End::BadMessage(MessageFault::Repeated {
    id: ElementId::MessageIdentifier,
});

const ROWS: &[Row] = &[
    Row {
        at: "reports",
        octets: &STREAM,
        rest: b"",
        end: End::PeerEnded,
        reports: 2,
    },
    Row {
        at: "a longer body",
        octets: LONG,
        rest: b"",
        end: End::TooLong,
        reports: 0,
    },
    Row {
        at: "a longer body after reports",
        octets: &STREAM,
        rest: LONG,
        end: End::TooLong,
        reports: 2,
    },
    Row {
        at: "the longest body",
        octets: LONGEST,
        rest: b"",
        end: End::CutFrame,
        reports: 0,
    },
    Row {
        at: "a report that can't be read",
        octets: TWICE,
        rest: b"",
        end: IS_TWICE,
        reports: 0,
    },
    Row {
        at: "a report that can't be read after others",
        octets: &STREAM,
        rest: TWICE,
        end: IS_TWICE,
        reports: 2,
    },
    Row {
        at: "a report that can't be read before others",
        octets: TWICE,
        rest: &STREAM,
        end: IS_TWICE,
        reports: 0,
    },
    Row {
        at: "an order that comes from a BSC is passed over",
        octets: &ORDER,
        rest: &STREAM,
        end: End::PeerEnded,
        reports: 2,
    },
    Row {
        at: "the second COMPLETE, which answers no order, is passed over",
        octets: &COMPLETE,
        rest: &STREAM,
        end: End::PeerEnded,
        reports: 2,
    },
];

#[test]
fn every_stream_ends_the_side(rt: HostRuntime) {
    for row in ROWS {
        let pieces = (row.octets, row.rest);
        let want = (row.end, row.reports);
        ends(&rt, rt.alloc(), pieces, want, row.at);
    }
}

/// How the side of a link of that generation ends at a gate that is shut at the step.
fn read_until<R: Wait + Abort>(rt: &R, alloc: Global, generation: u64, step: Step) -> (End, usize) {
    reads::<Brand, FromRead<&[u8]>, ShutAt, R>(
        rt,
        alloc,
        Blank::new(1025),
        generation,
        FromRead::new(STREAM.as_slice()),
        &ShutAt { step },
    )
}

#[test]
fn a_link_that_is_over_or_cut_ends_the_side(rt: HostRuntime) {
    let over = read_until(&rt, rt.alloc(), LINK - 1, Step::BeforeWrite);
    same(&rt, over, (End::Superseded, 0), "an older link");
    let cut = read_until(&rt, rt.alloc(), LINK, Step::AfterReport);
    same(&rt, cut, (End::GateShut, 1), "a gate after a report");
    let whole = read_until(&rt, rt.alloc(), LINK, Step::BeforeWrite);
    same(&rt, whole, (End::PeerEnded, 2), "a gate before a write");
}

/// How the side ends at an office to which the link was lost, and whose journal holds so many entries.
fn refused<L: Ledger, R: Wait + Abort>(
    rt: &R,
    alloc: Global,
    blank: Blank,
    journal_limit: u32,
) -> End
    requires name { blank.name ≡ L.name }
    requires parts { blank.parts ≡ L.parts }
    requires desks { blank.parts ≡ 1025 }
{
    let b = first_bsc(rt);
    let (office, mut desk) = linked::<L, R>(rt, alloc, blank, journal_limit);
    enters(rt, &office, &mut desk, Event::LinkDown(b, LINK));
    let mut source = FromRead::new(STREAM.as_slice());
    read_side(
        rt,
        alloc,
        &office,
        &mut desk,
        b,
        LINK,
        &mut source,
        &OpenGate,
    )
}

#[test]
fn a_refusal_ends_the_side(rt: HostRuntime) {
    let full = End::Refused(Refusal::JournalFull);
    for (limit, want) in [(7, full), (1000, End::Superseded)] {
        let end = refused::<Brand, _>(&rt, rt.alloc(), Blank::new(1025), limit);
        same(&rt, end, want, "a refusal");
    }
}
