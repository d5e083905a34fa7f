//! What no clause says of a BSC that is to forget what it broadcasts, or to say that it is alive: that its frames are made and its answer is found where memory is
//! ample, by octets that are written from the layouts.

use crate::checks::yes;
use crate::values::{numbers, row};
use centre_past::lists::{CellRow, WarningRow};
use centre_past::reported::{Presence, ReportedKey};
use common::Cell;
use link_resets::{
    AliveSeen, AliveWatch, ResetAnswer, ResetWatch, alive_frame, emergency_keys, judge,
    reset_frames,
};
use serials::Serial;
use std::alloc::Global;
use std::process::Abort;
use warning_book::Kind;

/// A RESET of all cells, and KILLs of message 4371 with the serial numbers C000 and C001 in all cells.
const FRAMES: &[u8] =
    b"\x10\x00\x00\x04\x04\x00\x01\x06\x04\x00\x00\x0a\x0e\x11\x13\x02\xc0\x00\x04\x00\x01\x06\x04\x00\x00\x0a\x0e\x11\x13\x02\xc0\x01\x04\x00\x01\x06";

/// A message that is on air in a cell.
fn key(message_id: u16, serial: u16, ci: u16) -> ReportedKey {
    ReportedKey {
        cell: Cell { lac: 100, ci },
        message_id,
        serial: Serial::from_u16(serial),
        presence: Presence::OnAir,
    }
}

/// An emergency warning in its second version, and two with pages: one of a message identifier that earthquake and tsunami warnings
/// have, and one of that of the first, with another code.
fn warnings(rt: &impl Abort, alloc: Global) -> Vec<WarningRow> {
    let mut warnings = Vec::new(alloc);
    for (message_id, serial, kind) in [
        (4371, 0xC001, Kind::Emergency),
        (4352, 0xC000, Kind::Cbs),
        (4371, 0xC010, Kind::Cbs),
    ] {
        let row = row(
            alloc,
            1,
            message_id,
            Some(serial),
            kind,
            numbers(0, 0, 0, 0),
        );
        warnings.push(row).expect(rt, "memory");
    }
    warnings
}

/// What is written to a BSC that has reported these messages.
fn frames(rt: &impl Abort, alloc: Global, reported: &[ReportedKey]) -> Vec<u8> {
    let warnings = warnings(rt, alloc);
    let keys = emergency_keys(alloc, reported, warnings.as_slice());
    drop(warnings);
    let keys = keys.expect(rt, "memory");
    reset_frames(alloc, keys.as_slice()).expect(rt, "memory")
}

/// What is registered at a BSC: cells 100 7 and 100 8.
fn cells() -> [CellRow; 2] {
    [7, 8].map(|ci| CellRow {
        cell: Cell { lac: 100, ci },
        is_down: false,
        is_down_for_emergency: false,
    })
}

/// The octets end that answer, or none.
fn sees(
    rt: &impl Abort,
    alloc: Global,
    watch: &mut ResetWatch,
    octets: &[u8],
    answer: Option<ResetAnswer>,
) {
    let seen = watch.see(octets).expect(rt, "the octets are taken");
    let judged = match &seen {
        Some(frame) => Some(judge(alloc, PLMN, frame, &cells()).expect(rt, "memory")),
        None => None,
    };
    yes(rt, judged == answer, "the answer to a RESET");
}

/// The network of the centre.
const PLMN: [u8; 3] = [0x00, 0xf1, 0x10];

/// A RESET COMPLETE or a RESET FAILURE, and what it comes to of a BSC that has cells 100 7 and 100 8.
const JUDGED: &[(&[u8], ResetAnswer)] = &[
    (b"\x11\x00\x00\x00", ResetAnswer::Complete),
    // All cells, also where the spare bits are set, and where something follows.
    (b"\x11\x00\x00\x04\x04\x00\x01\x06", ResetAnswer::Complete),
    (b"\x11\x00\x00\x04\x04\x00\x01\xf6", ResetAnswer::Complete),
    (
        b"\x11\x00\x00\x06\x04\x00\x01\x06\x12\x00",
        ResetAnswer::Complete,
    ),
    // Both cells, their location area, and this with the network.
    (
        b"\x11\x00\x00\x0c\x04\x00\x09\x01\x00\x64\x00\x08\x00\x64\x00\x07",
        ResetAnswer::Complete,
    ),
    (
        b"\x11\x00\x00\x06\x04\x00\x03\x05\x00\x64",
        ResetAnswer::Complete,
    ),
    (
        b"\x11\x00\x00\x09\x04\x00\x06\x04\x00\xf1\x10\x00\x64",
        ResetAnswer::Complete,
    ),
    // One cell, the location area of another network, no cell, a list that is cut, and another element.
    (
        b"\x11\x00\x00\x08\x04\x00\x05\x01\x00\x64\x00\x07",
        ResetAnswer::Partial,
    ),
    (
        b"\x11\x00\x00\x09\x04\x00\x06\x04\x00\xf1\x20\x00\x64",
        ResetAnswer::Partial,
    ),
    (b"\x11\x00\x00\x04\x04\x00\x01\x01", ResetAnswer::Partial),
    (b"\x11\x00\x00\x03\x04\x00\x01", ResetAnswer::Partial),
    (b"\x11\x00\x00\x02\x12\x00", ResetAnswer::Partial),
    (b"\x12\x00\x00\x00", ResetAnswer::Failure),
    (
        b"\x12\x00\x00\x09\x09\x00\x06\x01\x00\x64\x00\x07\x06",
        ResetAnswer::Failure,
    ),
];

#[test]
fn answers_are_judged_by_the_cells_of_the_bsc(rt: HostRuntime) {
    for (octets, answer) in JUDGED {
        let mut watch = ResetWatch::new(rt.alloc());
        sees(&rt, rt.alloc(), &mut watch, octets, Some(*answer));
    }
}

#[test]
fn every_call_answers(rt: HostRuntime) {
    let reported = [
        key(4352, 0xC000, 7),
        key(4371, 0xC000, 7),
        key(4371, 0xC001, 7),
        key(4371, 0xC010, 7),
        key(4371, 0xC000, 8),
    ];
    let alloc = rt.alloc();
    let written = frames(&rt, alloc, &reported);
    yes(&rt, written.as_slice() == FRAMES, "the frames of a reset");
    let mut watch = ResetWatch::new(alloc);
    sees(&rt, alloc, &mut watch, b"\x13\x00\x00\x00\x12\x00", None);
    let failed = Some(ResetAnswer::Failure);
    sees(&rt, alloc, &mut watch, b"\x00\x00\x11\x00\x00\x00", failed);
}

/// After how many seconds there is a KEEP ALIVE, and the octet that says it.
const PERIODS: &[(u32, u8)] = &[
    (1, 1),
    (10, 10),
    (11, 11),
    (12, 11),
    (13, 12),
    (30, 20),
    (31, 21),
    (35, 21),
    (36, 22),
    (120, 38),
];

#[test]
fn a_keep_alive_has_its_period(rt: HostRuntime) {
    for (seconds, code) in PERIODS {
        let wanted = [0x16, 0, 0, 2, 0x18, *code];
        yes(&rt, alive_frame(*seconds) == wanted, "a KEEP ALIVE");
    }
}

/// What comes of the octets.
fn sees_alive(rt: &impl Abort, watch: &mut AliveWatch, octets: &[u8], asks: bool, answers: bool) {
    let seen = watch.see(octets).expect(rt, "the octets are taken");
    let wanted = AliveSeen { asks, answers };
    yes(rt, seen == wanted, "whether a BSC is alive");
}

#[test]
fn frames_about_being_alive_are_found(rt: HostRuntime) {
    let mut watch = AliveWatch::new(rt.alloc());
    sees_alive(&rt, &mut watch, b"\x16\x00\x00\x02\x17", false, false);
    sees_alive(&rt, &mut watch, b"\x16\x17\x00\x00", true, false);
    sees_alive(&rt, &mut watch, b"\x00\x11\x00\x00\x00", false, true);
}
