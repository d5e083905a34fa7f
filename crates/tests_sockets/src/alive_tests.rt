//! What no clause says of `--keep-alive-seconds`: that a BSC which says nothing is asked whether it is alive, and cut where it isn't.

use crate::given_plays::{Act, Play, USUAL, played};
use crate::given_texts::Wanted;
use std::fs;

/// A KEEP ALIVE with a period of one second, and one of a BSC's own with five.
const ALIVE: &[u8] = b"\x16\x00\x00\x02\x18\x01";

const OWN_ALIVE: &[u8] = b"\x16\x00\x00\x02\x18\x05";

const ALIVE_COMPLETE: &[u8] = b"\x17\x00\x00\x00";

/// An ERROR INDICATION: the message isn't recognised.
const ERROR: &[u8] = b"\x15\x00\x00\x02\x0b\x04";

/// The type of a WRITE-REPLACE, and of a KILL.
const WRITE: u8 = 0x01;

const KILL: u8 = 0x04;

/// A WRITE-REPLACE COMPLETE of message 4370 with serial number C000 in cell 100 7, without data.
const WRITTEN: &[u8] =
    b"\x02\x00\x00\x10\x0e\x11\x12\x03\xc0\x00\x04\x00\x05\x01\x00\x64\x00\x07\x12\x00";

/// A BSC with cell 100 7 in an area.
const ONE_CELL: &str = "bsc add 1\ncell add 100 7 1\narea add Coast\narea put Coast 100\n";

const ISSUE: &str = "issue 4370 3 15 0 30 d4f29c0e Coast\n";

const ON_AIR: &str = "awaited 0 onair 1 failed 0 left 0 broadcasts 0\n";

/// A BSC answers a KEEP ALIVE, and then nothing comes after the next one: its link is cut.
#[test]
fn a_bsc_that_falls_silent_is_cut(rt: HostRuntime) {
    played(&rt, rt.alloc(), &FALLS_SILENT);
}

const FALLS_SILENT: Play = Play {
    words: &["--keep-alive-seconds", "1", "--reply-seconds", "2"],
    acts: &[
        Act::Types("bsc add 1\n", "ok 1\n"),
        Act::Connects(1, 1),
        Act::Gets(0, ALIVE),
        Act::Sends(0, ALIVE_COMPLETE, 1),
        Act::Gets(0, ALIVE),
        Act::Says("link 2 ended: cut, since nothing came for "),
        Act::IsClosed(0),
        Act::Types("links\n", "link 1 down pending 0\n"),
        Act::Types("", "links 1 up 0\n"),
        Act::Lines("quit\n", 0),
    ],
    answers: Wanted::Settled("5"),
    ..USUAL
};

/// A BSC that answers no KEEP ALIVE stays, and gets its orders. That it doesn't answer is said.
#[test]
fn a_bsc_that_knows_no_keep_alive_stays(rt: HostRuntime) {
    played(&rt, rt.alloc(), &KNOWS_NONE);
}

const KNOWS_NONE: Play = Play {
    words: &["--keep-alive-seconds", "1", "--reply-seconds", "1"],
    acts: &[
        Act::Lines(ONE_CELL, 4),
        Act::Connects(1, 1),
        Act::Gets(0, ALIVE),
        Act::Says("no answer to a KEEP ALIVE for "),
        Act::Rests(3_000),
        Act::Types(ISSUE, "ok 6 warning 1 serial C000\n"),
        Act::Answers(0, WRITE, WRITTEN),
        Act::Repeats("board 1\n", ON_AIR),
        Act::Lines("quit\n", 0),
    ],
    answers: Wanted::Settled("20"),
    said: Wanted::Is(""),
    ..USUAL
};

/// A BSC that answers each KEEP ALIVE by an ERROR INDICATION is alive, and its link is never cut.
#[test]
fn a_bsc_that_answers_otherwise_is_alive(rt: HostRuntime) {
    played(&rt, rt.alloc(), &ANSWERS_OTHERWISE);
}

const ANSWERS_OTHERWISE: Play = Play {
    words: &["--keep-alive-seconds", "1", "--reply-seconds", "2"],
    acts: &[
        Act::Types("bsc add 1\n", "ok 1\n"),
        Act::Connects(1, 1),
        Act::Answers(0, 0x16, ALIVE_COMPLETE),
        Act::Answers(0, 0x16, ERROR),
        Act::Answers(0, 0x16, ERROR),
        Act::Answers(0, 0x16, ERROR),
        Act::Types("links\n", "link 1 up 2 pending 0\n"),
        Act::Types("", "links 1 up 1\n"),
        Act::Lines("quit\n", 0),
    ],
    answers: Wanted::Settled("5"),
    said: Wanted::HasNot("is up", "KEEP ALIVE"),
    ..USUAL
};

/// A KEEP ALIVE of a BSC's own is answered, once: what it sends then is answered by no other.
#[test]
fn a_keep_alive_of_a_bsc_is_answered(rt: HostRuntime) {
    played(&rt, rt.alloc(), &IS_ANSWERED);
}

const IS_ANSWERED: Play = Play {
    words: &["--keep-alive-seconds", "120"],
    acts: &[
        Act::Lines(ONE_CELL, 4),
        Act::Connects(1, 1),
        Act::Sends(0, OWN_ALIVE, 1),
        Act::Gets(0, ALIVE_COMPLETE),
        Act::Sends(0, ALIVE_COMPLETE, 1),
        Act::Types(ISSUE, "ok 6 warning 1 serial C000\n"),
        Act::Answers(0, WRITE, WRITTEN),
        Act::Repeats("board 1\n", ON_AIR),
        Act::Lines("stop 1\n", 1),
        Act::Answers(0, KILL, b""),
        Act::Lines("quit\n", 0),
    ],
    answers: Wanted::Settled("20"),
    ..USUAL
};

/// While an order is out no KEEP ALIVE is sent: the next one comes a second after the reply.
#[test]
fn a_bsc_that_owes_a_reply_is_not_asked(rt: HostRuntime) {
    played(&rt, rt.alloc(), &OWES_A_REPLY);
}

const OWES_A_REPLY: Play = Play {
    words: &["--keep-alive-seconds", "2", "--reply-seconds", "1"],
    acts: &[
        Act::Lines(ONE_CELL, 4),
        Act::Types(ISSUE, "ok 5 warning 1 serial C000\n"),
        Act::Connects(1, 1),
        Act::Answers(0, WRITE, b""),
        Act::Rests(5_000),
        Act::Notes,
        Act::Sends(0, WRITTEN, 1),
        Act::WaitsFor(0, 1_900),
        Act::Lines("quit\n", 0),
    ],
    answers: Wanted::Settled("20"),
    ..USUAL
};

/// Without the option nobody is asked, and nobody is answered.
#[test]
fn nobody_is_asked_without_the_option(rt: HostRuntime) {
    played(&rt, rt.alloc(), &WITHOUT);
}

const WITHOUT: Play = Play {
    acts: &[
        Act::Lines(ONE_CELL, 4),
        Act::Connects(1, 1),
        Act::Sends(0, OWN_ALIVE, 1),
        Act::Rests(2_000),
        Act::Types(ISSUE, "ok 6 warning 1 serial C000\n"),
        Act::Answers(0, WRITE, WRITTEN),
        Act::Repeats("board 1\n", ON_AIR),
        Act::Lines("quit\n", 0),
    ],
    answers: Wanted::Settled("20"),
    ..USUAL
};

/// The simulated BSC answers a RESET and each KEEP ALIVE.
#[test]
fn a_simulated_bsc_answers(rt: HostRuntime) {
    let _ = fs::remove_file(&rt, "simulated-journal");
    played(&rt, rt.alloc(), &SIMULATED);
    let _ = fs::remove_file(&rt, "simulated-journal");
}

const SIMULATED: Play = Play {
    words: &[
        "--sim",
        "--reset",
        "--keep",
        "simulated-journal",
        "--keep-alive-seconds",
        "1",
        "--reply-seconds",
        "1",
    ],
    acts: &[
        Act::Lines(ONE_CELL, 4),
        Act::Lines(ISSUE, 1),
        Act::Repeats("board 1\n", ON_AIR),
        Act::Rests(4_000),
        Act::Lines("stop 1\n", 1),
        Act::Repeats(
            "board 1\n",
            "awaited 0 onair 0 failed 0 left 0 broadcasts 0\n",
        ),
        Act::Lines("quit\n", 0),
    ],
    answers: Wanted::Settled("20"),
    said: Wanted::HasNot("is up", "no answer"),
    ..USUAL
};
