//! What no clause says of what is said: that it is, of each report that something went wrong, at the start and at the end, and to a console
//! that follows.

use crate::checks::{same, yes};
use crate::given_plays::{Act, Play, USUAL, played};
use crate::given_texts::{Wanted, has};
use server_errors::{Errors, Level, say_of_centre, say_of_centre_at};
use std::alloc::Global;
use std::fs;
use std::io::Read;
use std::net::Net;
use std::os::unix::net::UnixStream;
use std::process::Abort;
use std::sync::Wait;
use std::time::Clock;

/// The type of a WRITE-REPLACE.
const WRITE: u8 = 0x01;

/// A WRITE-REPLACE FAILURE of message 4370 with serial number C000: cell 100 7 has no cell broadcast.
const REFUSED: &[u8] =
    b"\x03\x00\x00\x0f\x0e\x11\x12\x03\xc0\x00\x09\x00\x06\x01\x00\x64\x00\x07\x09";

/// A FAILURE of cell 100 8, for warnings of Broadcast Message Type 0, and its RESTART, in which its messages are lost.
const FAILURE: &[u8] = b"\x14\x00\x00\x0b\x09\x00\x06\x01\x00\x64\x00\x08\x0a\x16\x00";

const RESTART: &[u8] = b"\x13\x00\x00\x0c\x04\x00\x05\x01\x00\x64\x00\x08\x16\x00\x0d\x01";

/// An order that is refused, a cell that fails, and one that is back; each is shown to a console that follows too.
#[test]
fn what_goes_wrong_is_said(rt: HostRuntime) {
    played(&rt, rt.alloc(), &WRONG);
}

const WRONG: Play = Play {
    words: &["--console", "consoles-that-are-told"],
    acts: &[
        Act::Lines("bsc add 1\ncell add 100 7 1\ncell add 100 8 1\n", 3),
        Act::Lines("area add Coast\narea put Coast 100\n", 2),
        Act::Follows("consoles-that-are-told"),
        Act::Connects(1, 1),
        Act::Types("issue 4370 3 15 0 30 d4f29c0e Coast\n", "ok "),
        Act::Answers(0, WRITE, REFUSED),
        Act::Says(
            "refused: a WRITE-REPLACE of message 4370, serial number C000, in 100 7 (9 cell broadcast not supported); held back until retry 1",
        ),
        Act::Sends(0, FAILURE, 1),
        Act::Says("cells down for texts (FAILURE): 100 8"),
        Act::Sees("cells down for texts (FAILURE): 100 8\n"),
        Act::Sends(0, RESTART, 1),
        Act::Says("cells broadcast again for texts (RESTART), their messages are lost: 100 8"),
        Act::Lines("quit\n", 0),
    ],
    answers: Wanted::Any,
    said: Wanted::Any,
    ..USUAL
};

/// The start says which version it is and what it is run with, and how many lines it read; the end says why.
#[test]
fn a_start_and_an_end_are_said(rt: HostRuntime) {
    let _ = fs::remove_file(&rt, "journal-of-a-start");
    played(&rt, rt.alloc(), &STARTED);
    let _ = fs::remove_file(&rt, "journal-of-a-start");
}

const STARTED: Play = Play {
    words: &["--reset", "--keep", "journal-of-a-start"],
    acts: &[
        Act::Says(
            "cbc: started: version 1.0.0, network 00f110, broadcasts 0, links 1, journal 4000000, fold 100000, reply-seconds 30, cut-seconds 0, keep-alive-seconds 0, query-minutes 0, queries-per-second 2, reset",
        ),
        Act::Says("cbc: journal: 0 lines were read from journal-of-a-start"),
        Act::Lines("quit\n", 0),
        Act::Says("cbc: ends: quit was typed"),
    ],
    answers: Wanted::Any,
    said: Wanted::Any,
    ..USUAL
};

/// What is said where a system log reads it, or none does: a notice, an error, and the last words.
fn said<R: Abort + Clock + Net + Wait>(rt: &R, alloc: Global, has_levels: bool) -> Vec<u8> {
    let (mut far, near) = UnixStream::pair(rt).expect(rt, "a stream");
    let errors = Errors::with_levels(alloc, near, has_levels);
    say_of_centre(rt, alloc, &errors, "a notice");
    say_of_centre_at(rt, alloc, &errors, Level::Error, "an error");
    errors.say_last(rt, alloc, b"cbc: the last\n");
    drop(errors);
    let mut octets = Vec::new(alloc);
    far.read_to_end(&mut octets).expect(rt, "it is read");
    octets
}

#[test]
fn a_system_log_gets_levels(rt: HostRuntime) {
    let found = said(&rt, rt.alloc(), true);
    yes(&rt, found.starts_with(b"<5>"), "a notice");
    yes(
        &rt,
        has(found.as_slice(), b" cbc: a notice\n<3>"),
        "an error",
    );
    yes(&rt, found.ends_with(b"<3>cbc: the last\n"), "the last");
    let found = said(&rt, rt.alloc(), false);
    yes(&rt, !has(found.as_slice(), b"<"), "nothing but the lines");
}

/// Of what was said the lines behind a number are shown, and none that isn't said yet.
#[test]
fn what_was_said_is_shown(rt: HostRuntime) {
    let alloc = rt.alloc();
    let writer: Vec<u8> = Vec::new(alloc);
    let errors = Errors::new(alloc, writer);
    say_of_centre(&rt, alloc, &errors, "first");
    same(&rt, errors.said_count(&rt), 0, "it isn't said yet");
    say_of_centre(&rt, alloc, &errors, "second");
    errors.say_last(&rt, alloc, b"");
    same(&rt, errors.said_count(&rt), 2, "both are said");
    let shown = errors.said_after(&rt, alloc, 1).expect(&rt, "memory");
    yes(&rt, shown.text.starts_with(b"said "), "the front");
    yes(&rt, shown.text.ends_with(b" cbc: second\n"), "the line");
    yes(&rt, !has(shown.text.as_slice(), b"first"), "one line");
}
