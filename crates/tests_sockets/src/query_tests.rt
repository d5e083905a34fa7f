//! What no clause says of `--query-minutes`: that a BSC is asked by itself how often a warning was broadcast, and cut where it says
//! nothing. The period is a second here.

use crate::given_plays::{Act, Play, USUAL, played};
use crate::given_texts::Wanted;

/// The type of a WRITE-REPLACE, of a KILL and of a MESSAGE STATUS QUERY.
const WRITE: u8 = 0x01;

const KILL: u8 = 0x04;

const QUERY: u8 = 0x0a;

/// A WRITE-REPLACE COMPLETE of message 4370 with serial number C000 in cell 100 7, without data.
const WRITTEN: &[u8] =
    b"\x02\x00\x00\x10\x0e\x11\x12\x03\xc0\x00\x04\x00\x05\x01\x00\x64\x00\x07\x12\x00";

/// The query for it in that cell.
const ASKED: &[u8] =
    b"\x0a\x00\x00\x10\x0e\x11\x12\x02\xc0\x00\x04\x00\x05\x01\x00\x64\x00\x07\x12\x00";

/// The answers: it was broadcast five times there, and six times.
const FIVE: &[u8] =
    b"\x0b\x00\x00\x13\x0e\x11\x12\x02\xc0\x00\x08\x00\x08\x01\x00\x64\x00\x07\x00\x05\x00\x12\x00";

const SIX: &[u8] =
    b"\x0b\x00\x00\x13\x0e\x11\x12\x02\xc0\x00\x08\x00\x08\x01\x00\x64\x00\x07\x00\x06\x00\x12\x00";

/// A BSC with cell 100 7 in an area.
const ONE_CELL: &str = "bsc add 1\ncell add 100 7 1\narea add Coast\narea put Coast 100\n";

const ISSUE: &str = "issue 4370 3 15 0 30 d4f29c0e Coast\n";

/// After an order, a query and each reply the next query comes a second later. Each answer counts on the board.
#[test]
fn a_bsc_is_asked_by_itself(rt: HostRuntime) {
    played(&rt, rt.alloc(), &IS_ASKED);
}

const IS_ASKED: Play = Play {
    query_ms: 1_000,
    acts: &[
        Act::Lines(ONE_CELL, 4),
        Act::Connects(1, 1),
        Act::Types(ISSUE, "ok "),
        Act::Answers(0, WRITE, b""),
        Act::Notes,
        Act::Sends(0, WRITTEN, 1),
        Act::Gets(0, ASKED),
        Act::Sends(0, FIVE, 1),
        Act::Repeats(
            "board 1\n",
            "awaited 0 onair 1 failed 0 left 0 broadcasts 5\n",
        ),
        Act::Answers(0, QUERY, SIX),
        Act::Repeats(
            "board 1\n",
            "awaited 0 onair 1 failed 0 left 0 broadcasts 6\n",
        ),
        Act::Lines("stop 1\n", 1),
        Act::Answers(0, KILL, b""),
        Act::Lines("quit\n", 0),
    ],
    answers: Wanted::Settled("20"),
    ..USUAL
};

/// A query comes no sooner than the period after the reply to an order, and none while the order is out. The order's link isn't cut.
#[test]
fn a_bsc_that_owes_a_reply_is_not_asked(rt: HostRuntime) {
    played(&rt, rt.alloc(), &OWES_A_REPLY);
}

const OWES_A_REPLY: Play = Play {
    query_ms: 2_000,
    acts: &[
        Act::Lines(ONE_CELL, 4),
        Act::Connects(1, 1),
        Act::Types(ISSUE, "ok "),
        Act::Answers(0, WRITE, b""),
        Act::Rests(5_000),
        Act::Notes,
        Act::Sends(0, WRITTEN, 1),
        Act::WaitsFor(0, 1_950),
        Act::Lines("quit\n", 0),
    ],
    answers: Wanted::Settled("20"),
    said: Wanted::HasNot("is up", "ended"),
    ..USUAL
};

/// A link on which such a query isn't answered is cut.
#[test]
fn a_bsc_that_does_not_answer_is_cut(rt: HostRuntime) {
    played(&rt, rt.alloc(), &DOES_NOT_ANSWER);
}

const DOES_NOT_ANSWER: Play = Play {
    query_ms: 1_000,
    acts: &[
        Act::Lines(ONE_CELL, 4),
        Act::Connects(1, 1),
        Act::Types(ISSUE, "ok "),
        Act::Answers(0, WRITE, WRITTEN),
        Act::Answers(0, QUERY, b""),
        Act::Says(" ended: cut, since "),
        Act::IsClosed(0),
        Act::Lines("quit\n", 0),
    ],
    answers: Wanted::Settled("20"),
    ..USUAL
};

/// Without the option nobody is asked.
#[test]
fn nobody_is_asked_without_the_option(rt: HostRuntime) {
    played(&rt, rt.alloc(), &WITHOUT);
}

const WITHOUT: Play = Play {
    acts: &[
        Act::Lines(ONE_CELL, 4),
        Act::Connects(1, 1),
        Act::Types(ISSUE, "ok "),
        Act::Answers(0, WRITE, WRITTEN),
        Act::Rests(3_000),
        Act::Lines("stop 1\n", 1),
        Act::Answers(0, KILL, b""),
        Act::Lines("quit\n", 0),
    ],
    answers: Wanted::Settled("20"),
    ..USUAL
};
