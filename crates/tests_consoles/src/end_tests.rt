//! What no clause says of the end of a program: how long its consoles are waited for; and for how long one holds its console that
//! doesn't read.

use crate::checks::{same, yes};
use crate::given_consoles::entries_of;
use crate::scripts::Step::{Connect, ConnectFree, IsClosed, Pause, Reads, Sends, SendsOften};
use crate::scripts::{A_MINUTE, Script, Step};
use std::alloc::Global;
use std::fs::Files;
use std::net::Net;
use std::process::Abort;
use std::sync::Wait;
use std::thread::Threads;
use std::time::Clock;

/// How often a script is played, since a busy machine may hold up the console or the end of one of them.
const TIMES: u32 = 3;

/// A console that is at nothing.
const IDLE: &[Step] = &[Connect(0), Sends(0, b"bsc add 1\n"), Reads(0, b"ok 1\n")];

/// A console whose answers nobody reads, which are more than a socket takes.
const UNREAD: &[Step] = &[
    Connect(0),
    Sends(0, b"bsc add 1\n"),
    Reads(0, b"ok 1\n"),
    SendsOften(
        0,
        b"help\nhelp\nhelp\nhelp\nhelp\nhelp\nhelp\nhelp\nhelp\nhelp\n",
        20,
    ),
    Pause,
];

/// The same, and another that gets the console once a write has waited for ten seconds.
const UNREAD_FOR_LONG: &[Step] = &[
    Connect(0),
    Sends(0, b"bsc add 1\n"),
    Reads(0, b"ok 1\n"),
    SendsOften(
        0,
        b"help\nhelp\nhelp\nhelp\nhelp\nhelp\nhelp\nhelp\nhelp\nhelp\n",
        20,
    ),
    ConnectFree(1, b"bsc add 2\n", b"ok 2\n"),
];

/// The least and the most time in which the script is played and the program ends, in milliseconds.
fn times<R: Wait + Threads + Clock + Files + Net + Abort + Sync>(
    rt: &R,
    alloc: Global,
    path: &'static str,
    steps: &'static [Step],
) -> (u128, u128) {
    let mut least = u128::MAX;
    let mut most: u128 = 0;
    let script = Script {
        path,
        count: 1,
        most_silence: A_MINUTE,
        steps,
    };
    for _ in 0..TIMES {
        let begin = rt.monotonic().expect(rt, "a clock");
        let _ = entries_of(rt, alloc, &script);
        let end = rt.monotonic().expect(rt, "a clock");
        let time = end.saturating_sub(begin).as_millis();
        least = least.min(time);
        most = most.max(time);
    }
    (least, most)
}

#[test]
fn a_console_that_is_at_nothing_is_not_waited_for(rt: HostRuntime) {
    let (least, _) = times(&rt, rt.alloc(), "consoles-idle", IDLE);
    yes(
        &rt,
        least < 1_900,
        "less than the two seconds that one may take",
    );
}

#[test]
fn a_console_that_nobody_reads_is_waited_for_two_seconds(rt: HostRuntime) {
    let (least, most) = times(&rt, rt.alloc(), "consoles-unread", UNREAD);
    yes(
        &rt,
        most >= 1_900,
        "it has its two seconds, where it had come to a write by then",
    );
    yes(
        &rt,
        least < 8_000,
        "less than the ten that a write may take",
    );
}

/// Whoever says nothing more within a line loses the console, and the line; whoever says nothing between two lines keeps it.
const SILENT: &[Step] = &[
    Connect(0),
    Sends(0, b"bsc add 1"),
    IsClosed(0),
    Connect(1),
    Sends(1, b"bsc add 1\n"),
    Reads(1, b"ok 1\n"),
    Pause,
    Pause,
    Pause,
    Pause,
    Pause,
    Sends(1, b"bsc add 2\n"),
    Reads(1, b"ok 2\n"),
];

#[test]
fn a_half_line_ends_its_console(rt: HostRuntime) {
    let script = Script {
        path: "consoles-silent",
        count: 1,
        most_silence: 1_000,
        steps: SILENT,
    };
    let found = entries_of(&rt, rt.alloc(), &script);
    same(&rt, found, 2, "half a line is no entry");
}

#[test]
fn a_console_that_nobody_reads_is_free_after_a_while(rt: HostRuntime) {
    let script = Script {
        path: "consoles-held",
        count: 1,
        most_silence: A_MINUTE,
        steps: UNREAD_FOR_LONG,
    };
    let found = entries_of(&rt, rt.alloc(), &script);
    same(&rt, found, 2, "another gets the console");
}
