//! What no clause says of the links of a server: which connection gets the link, and that a bad peer harms no other.

use crate::given_options::{Spent, UNSPENT};
use crate::given_plays::{Act, Play, USUAL, played};
use crate::given_texts::Wanted;

/// The type of a WRITE-REPLACE.
const WRITE: u8 = 0x01;

/// A WRITE-REPLACE COMPLETE of message 4370 with serial number C000 in cell 100 7.
const WRITTEN: &[u8] =
    b"\x02\x00\x00\x10\x0e\x11\x12\x03\xc0\x00\x04\x00\x05\x01\x00\x64\x00\x07\x12\x00";

/// The same in cell 100 8, and of message 4371 there.
const WRITTEN_8: &[u8] =
    b"\x02\x00\x00\x10\x0e\x11\x12\x03\xc0\x00\x04\x00\x05\x01\x00\x64\x00\x08\x12\x00";

const OTHER_8: &[u8] =
    b"\x02\x00\x00\x10\x0e\x11\x13\x03\xc0\x00\x04\x00\x05\x01\x00\x64\x00\x08\x12\x00";

/// A WRITE-REPLACE FAILURE of message 4370 with serial number C000 that names no cell of the centre: its cell is one of another
/// network.
const CONFUSED: &[u8] =
    b"\x03\x00\x00\x12\x0e\x11\x12\x03\xc0\x00\x09\x00\x09\x00\x00\xf1\x20\x00\x64\x00\x07\x0a";

/// A RESTART of all cells, without data, for warnings of Broadcast Message Type 0, eight times.
const RESTARTS: &[u8] = b"\x13\x00\x00\x08\x04\x00\x01\x06\x16\x00\x0d\x01\
\x13\x00\x00\x08\x04\x00\x01\x06\x16\x00\x0d\x01\
\x13\x00\x00\x08\x04\x00\x01\x06\x16\x00\x0d\x01\
\x13\x00\x00\x08\x04\x00\x01\x06\x16\x00\x0d\x01\
\x13\x00\x00\x08\x04\x00\x01\x06\x16\x00\x0d\x01\
\x13\x00\x00\x08\x04\x00\x01\x06\x16\x00\x0d\x01\
\x13\x00\x00\x08\x04\x00\x01\x06\x16\x00\x0d\x01\
\x13\x00\x00\x08\x04\x00\x01\x06\x16\x00\x0d\x01";

/// A BSC with cell 100 7 in an area.
const ONE_CELL: &str = "bsc add 1\ncell add 100 7 1\narea add Coast\narea put Coast 100\n";

const ISSUE: &str = "issue 4370 3 15 0 30 d4f29c0e Coast\n";

const ON_AIR: &str = "awaited 0 onair 1 failed 0 left 0 broadcasts 0\n";

/// A BSC that comes back takes the place of its connection that is still up.
#[test]
fn a_bsc_that_comes_back_takes_its_place(rt: HostRuntime) {
    played(&rt, rt.alloc(), &COMES_BACK);
}

const COMES_BACK: Play = Play {
    acts: &[
        Act::Lines(ONE_CELL, 4),
        Act::Connects(1, 1),
        Act::Says("link 5 is up"),
        Act::Connects(1, 1),
        Act::IsClosed(0),
        Act::Says("link 5 ended: another connection took its place"),
        Act::Says("link 7 is up"),
        Act::Types(ISSUE, "ok 8 warning 1 serial C000\n"),
        Act::Answers(1, WRITE, WRITTEN),
        Act::Repeats("board 1\n", ON_AIR),
        Act::Lines("quit\n", 0),
    ],
    answers: Wanted::Settled("20"),
    ..USUAL
};

/// A connection from another address is closed, and the link goes on. Once the link has ended, the other address gets one.
#[test]
fn another_address_does_not_push_out_a_link(rt: HostRuntime) {
    played(&rt, rt.alloc(), &ANOTHER_ADDRESS);
}

const ANOTHER_ADDRESS: Play = Play {
    acts: &[
        Act::Lines(ONE_CELL, 4),
        Act::Connects(1, 1),
        Act::Says("link 5 is up"),
        Act::Connects(2, 1),
        Act::IsClosed(1),
        Act::Says("a connection is closed: that of 127.0.0.1:"),
        Act::Types(ISSUE, "ok 6 warning 1 serial C000\n"),
        Act::Answers(0, WRITE, WRITTEN),
        Act::Repeats("board 1\n", ON_AIR),
        Act::Leaves(0),
        Act::Says("link 5 ended: the BSC closed the connection"),
        Act::Connects(2, 1),
        Act::Says("is up"),
        Act::Lines("quit\n", 0),
    ],
    answers: Wanted::Settled("20"),
    ..USUAL
};

/// An order without a reply is said, and ends the link where that is asked for. The BSC comes back, and gets it again.
#[test]
fn an_order_without_a_reply_is_said(rt: HostRuntime) {
    played(&rt, rt.alloc(), &WITHOUT_REPLY);
}

const WITHOUT_REPLY: Play = Play {
    words: &["--reply-seconds", "1", "--cut-seconds", "3"],
    acts: &[
        Act::Lines(ONE_CELL, 4),
        Act::Types(ISSUE, "ok 5 warning 1 serial C000\n"),
        Act::Connects(1, 1),
        Act::Answers(0, WRITE, b""),
        Act::Says("no reply to an order or a query for "),
        Act::Says("link 6 ended: cut, since there was no reply for "),
        Act::IsClosed(0),
        Act::Connects(1, 1),
        Act::Answers(1, WRITE, WRITTEN),
        Act::Repeats("board 1\n", ON_AIR),
        Act::Lines("quit\n", 0),
    ],
    answers: Wanted::Settled("20"),
    ..USUAL
};

/// A BSC whose replies settle nothing gets the same order again and again: that is said the third time, and from the tenth time on
/// the order waits for a second. The time is noted before the ninth goes out. Meanwhile another BSC and the operator go on, and the
/// first BSC does once it settles.
#[test]
fn a_bsc_that_never_settles_holds_up_no_other(rt: HostRuntime) {
    played(&rt, rt.alloc(), &NEVER_SETTLES);
}

const NEVER_SETTLES: Play = Play {
    words: &["--links", "2"],
    acts: &[
        Act::Lines(ONE_CELL, 4),
        Act::Lines("bsc add 2\ncell add 100 8 2\n", 2),
        Act::Connects(1, 1),
        Act::Says("link 7 is up"),
        Act::Connects(1, 2),
        Act::Says("link 8 is up"),
        Act::Types(ISSUE, "ok 9 warning 1 serial C000\n"),
        Act::Answers(0, WRITE, CONFUSED),
        Act::Answers(0, WRITE, CONFUSED),
        Act::Answers(0, WRITE, CONFUSED),
        Act::Says(
            "a WRITE-REPLACE of message 4370, serial number C000, in one cell goes out the third time",
        ),
        Act::Answers(0, WRITE, CONFUSED),
        Act::Answers(0, WRITE, CONFUSED),
        Act::Answers(0, WRITE, CONFUSED),
        Act::Answers(0, WRITE, CONFUSED),
        Act::Notes,
        Act::Answers(0, WRITE, CONFUSED),
        Act::Answers(0, WRITE, CONFUSED),
        Act::Answers(1, WRITE, WRITTEN_8),
        Act::Repeats(
            "board 1\n",
            "awaited 1 onair 1 failed 0 left 0 broadcasts 0\n",
        ),
        Act::Lines("area add Hills\narea put Hills 100 8\n", 2),
        Act::Types("issue 4371 3 15 0 30 d4f29c0e Hills\n", "ok "),
        Act::Answers(1, WRITE, OTHER_8),
        Act::Repeats("board 2\n", ON_AIR),
        Act::WaitsFor(0, 1_000),
        Act::Sends(0, WRITTEN, 1),
        Act::Repeats(
            "board 1\n",
            "awaited 0 onair 2 failed 0 left 0 broadcasts 0\n",
        ),
        Act::Lines("quit\n", 0),
    ],
    answers: Wanted::Settled("50"),
    ..USUAL
};

/// A BSC that says each time behind its reply that it lost the message gets the same order again and again. It isn't said that it
/// doesn't settle, since its table changed between.
#[test]
fn an_order_after_a_restart_is_new(rt: HostRuntime) {
    played(&rt, rt.alloc(), &RESTARTS_AGAIN);
}

/// The WRITE-REPLACE COMPLETE, and a RESTART of all cells, without data, behind it.
const WRITTEN_AND_LOST: &[u8] =
    b"\x02\x00\x00\x10\x0e\x11\x12\x03\xc0\x00\x04\x00\x05\x01\x00\x64\x00\x07\x12\x00\
\x13\x00\x00\x08\x04\x00\x01\x06\x16\x00\x0d\x01";

const RESTARTS_AGAIN: Play = Play {
    acts: &[
        Act::Lines(ONE_CELL, 4),
        Act::Connects(1, 1),
        Act::Says("link 5 is up"),
        Act::Types(ISSUE, "ok 6 warning 1 serial C000\n"),
        Act::Answers(0, WRITE, WRITTEN_AND_LOST),
        Act::Answers(0, WRITE, WRITTEN_AND_LOST),
        Act::Answers(0, WRITE, WRITTEN_AND_LOST),
        Act::Answers(0, WRITE, WRITTEN),
        Act::Repeats("board 1\n", ON_AIR),
        Act::Lines("quit\n", 0),
    ],
    answers: Wanted::Settled("20"),
    said: Wanted::Is(
        "cbc: BSC 1: cells broadcast again for texts, their messages are lost: 100 7\n\
cbc: BSC 1: cells broadcast again for texts, their messages are lost: 100 7\n\
cbc: BSC 1: cells broadcast again for texts, their messages are lost: 100 7\n",
    ),
    ..USUAL
};

/// Reports alone have the journal folded where that is due: no line is typed behind them.
#[test]
fn reports_fold_the_journal(rt: HostRuntime) {
    played(&rt, rt.alloc(), &FOLDED_BY_REPORTS);
}

const FOLDED_BY_REPORTS: Play = Play {
    words: &["--fold", "5"],
    acts: &[
        Act::Lines("bsc add 1\ncell add 100 0 1\n", 2),
        Act::Connects(1, 1),
        Act::Says("link 3 is up"),
        Act::Fails(0, 2),
        Act::Says("the journal was folded, entries: 5"),
        Act::Lines("quit\n", 0),
    ],
    ..USUAL
};

/// Thirty cells of BSC 1, and one of BSC 2, in an area.
const CELLS: &str = "bsc add 1\nbsc add 2\n\
cell add 100 0 1\ncell add 100 1 1\ncell add 100 2 1\ncell add 100 3 1\ncell add 100 4 1\n\
cell add 100 5 1\ncell add 100 6 1\ncell add 100 7 1\ncell add 100 8 1\ncell add 100 9 1\n\
cell add 100 10 1\ncell add 100 11 1\ncell add 100 12 1\ncell add 100 13 1\ncell add 100 14 1\n\
cell add 100 15 1\ncell add 100 16 1\ncell add 100 17 1\ncell add 100 18 1\ncell add 100 19 1\n\
cell add 100 20 1\ncell add 100 21 1\ncell add 100 22 1\ncell add 100 23 1\ncell add 100 24 1\n\
cell add 100 25 1\ncell add 100 26 1\ncell add 100 27 1\ncell add 100 28 1\ncell add 100 29 1\n\
cell add 100 30 2\narea add Coast\narea put Coast 100\n";

/// A WRITE-REPLACE COMPLETE of message 4370 in cell 100 30, of its versions one after another.
const FIRST: &[u8] =
    b"\x02\x00\x00\x10\x0e\x11\x12\x03\xc0\x00\x04\x00\x05\x01\x00\x64\x00\x1e\x12\x00";

const SECOND: &[u8] =
    b"\x02\x00\x00\x13\x0e\x11\x12\x03\xc0\x01\x02\xc0\x00\x04\x00\x05\x01\x00\x64\x00\x1e\x12\x00";

const THIRD: &[u8] =
    b"\x02\x00\x00\x13\x0e\x11\x12\x03\xc0\x02\x02\xc0\x01\x04\x00\x05\x01\x00\x64\x00\x1e\x12\x00";

const ALL_FAILED: &str = "awaited 0 onair 1 failed 30 left 0 broadcasts 0\n";

/// Reports that come too fast are held back, which is said once, and none is lost. Meanwhile another BSC goes on.
#[test]
fn reports_that_are_held_back_are_not_lost(rt: HostRuntime) {
    played(&rt, rt.alloc(), &HELD_BACK);
}

const HELD_BACK: Play = Play {
    spent: Some(Spent {
        reports: 139_995,
        ..UNSPENT
    }),
    acts: &[
        Act::Lines(CELLS, 35),
        Act::Connects(1, 1),
        Act::Says("link 36 is up"),
        Act::Connects(1, 2),
        Act::Says("link 37 is up"),
        Act::Fails(0, 30),
        Act::Says("its reports are held back"),
        Act::Lines(ISSUE, 1),
        Act::Answers(1, WRITE, FIRST),
        Act::Lines("update 1 15 0 30 d4\n", 1),
        Act::Answers(1, WRITE, SECOND),
        Act::Lines("update 1 15 0 30 d4\n", 1),
        Act::Answers(1, WRITE, THIRD),
        Act::Unlike("board 1\n", ALL_FAILED),
        Act::Repeats("board 1\n", ALL_FAILED),
        Act::Lines("quit\n", 0),
    ],
    answers: Wanted::Settled("100"),
    said: Wanted::HasNot("cbc: BSC 1: cells down for texts: 100 ", "held back"),
    ..USUAL
};

/// Reports that cost too much are held back, and none is lost. Meanwhile another BSC goes on: its two replies have 35 octets. Three
/// reports of the first have 33.
#[test]
fn reports_that_cost_too_much_are_not_lost(rt: HostRuntime) {
    played(&rt, rt.alloc(), &COSTS_TOO_MUCH);
}

const COSTS_TOO_MUCH: Play = Play {
    spent: Some(Spent {
        octets: 63_999_960,
        ..UNSPENT
    }),
    acts: &[
        Act::Lines(CELLS, 35),
        Act::Connects(1, 1),
        Act::Says("link 36 is up"),
        Act::Connects(1, 2),
        Act::Says("link 37 is up"),
        Act::Fails(0, 30),
        Act::Says("its reports are held back: they cost too much"),
        Act::Lines(ISSUE, 1),
        Act::Answers(1, WRITE, FIRST),
        Act::Lines("update 1 15 0 30 d4\n", 1),
        Act::Answers(1, WRITE, SECOND),
        Act::Unlike("board 1\n", ALL_FAILED),
        Act::Repeats("board 1\n", ALL_FAILED),
        Act::Lines("quit\n", 0),
    ],
    answers: Wanted::Settled("100"),
    ..USUAL
};

/// A report of all cells costs a line for each cell of its BSC. How many these are is looked up once a second.
#[test]
fn a_report_of_all_cells_is_charged_by_their_number(rt: HostRuntime) {
    played(&rt, rt.alloc(), &ALL_CELLS_COST);
}

const ALL_CELLS_COST: Play = Play {
    spent: Some(Spent {
        lines: 71_999_971,
        ..UNSPENT
    }),
    acts: &[
        Act::Lines(CELLS, 35),
        Act::Connects(1, 1),
        Act::Says("link 36 is up"),
        Act::Rests(1_500),
        Act::Sends(0, RESTARTS, 1),
        Act::Says("its reports are held back: they cost too much"),
        Act::Lines("quit\n", 0),
    ],
    answers: Wanted::Settled("100"),
    ..USUAL
};

/// Connections that come too fast are held back, and get the link later.
#[test]
fn connections_that_are_held_back_get_the_link(rt: HostRuntime) {
    played(&rt, rt.alloc(), &TOO_FAST);
}

const TOO_FAST: Play = Play {
    spent: Some(Spent {
        connections: 99,
        ..UNSPENT
    }),
    acts: &[
        Act::Types("bsc add 1\n", "ok 1\n"),
        Act::Connects(1, 1),
        Act::Says("link 2 is up"),
        Act::Connects(1, 1),
        Act::Says("connections are held back"),
        Act::IsClosed(0),
        Act::Says("link 4 is up"),
        Act::Lines("quit\n", 0),
    ],
    answers: Wanted::Settled("10"),
    ..USUAL
};

/// A server ends at once, however much a BSC has sent: what waits in its connection isn't entered.
#[test]
fn a_flood_does_not_hold_up_the_end(rt: HostRuntime) {
    played(&rt, rt.alloc(), &FLOOD);
}

const FLOOD: Play = Play {
    words: &["--links", "2"],
    acts: &[
        Act::Lines(CELLS, 35),
        Act::Lines(ISSUE, 1),
        Act::Connects(1, 1),
        Act::Says("link 37 is up"),
        Act::Sends(0, RESTARTS, 12_500),
        Act::Lines("quit\n", 0),
    ],
    answers: Wanted::Settled("90000"),
    ..USUAL
};

/// A BSC whose order waits, since it went out again and again, comes back three times: each time it gets its link and the order at once.
#[test]
fn a_bsc_comes_back_while_its_order_waits(rt: HostRuntime) {
    played(&rt, rt.alloc(), &BACK_AGAIN);
}

const BACK_AGAIN: Play = Play {
    acts: &[
        Act::Lines(ONE_CELL, 4),
        Act::Types(ISSUE, "ok 5 warning 1 serial C000\n"),
        Act::Connects(1, 1),
        Act::AnswersOften(0, WRITE, CONFUSED, 9),
        Act::Connects(1, 1),
        Act::AnswersOften(1, WRITE, CONFUSED, 9),
        Act::Connects(1, 1),
        Act::AnswersOften(2, WRITE, CONFUSED, 9),
        Act::Connects(1, 1),
        Act::Answers(3, WRITE, WRITTEN),
        Act::Repeats("board 1\n", ON_AIR),
        Act::Lines("quit\n", 0),
    ],
    answers: Wanted::Settled("100"),
    ..USUAL
};
