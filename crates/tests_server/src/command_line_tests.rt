//! Command lines: their statuses, and what is said.

use crate::checks::{same, yes};
use crate::given_texts::Part::{Text, Times};
use crate::given_texts::{Part, Wanted, text_of};
use console::run;
use framing::faulty::{FailsAfter, FailsAtRead};
use framing::{FromRead, FromWrite};
use std::alloc::Global;
use std::process::Abort;

/// A run of the program, and how it ends.
#[derive(Clone, Copy)]
struct Row {
    words: &'static [&'static str],
    script: &'static [Part],
    /// The read that fails, from 1; 0 for none.
    fatal_read: u64,
    /// How many octets can be written.
    room: usize,
    /// `None` where the words ask for the server, which is left to it.
    status: Option<u8>,
    wrote: Wanted,
    said: Wanted,
}

/// More room than any row needs.
const ROOM: usize = 1_000_000;

const REPLAY: &[&str] = &["cbc", "replay"];

const ADD: &[Part] = &[Text("bsc add 1\n")];

/// The words of a command line.
pub(crate) fn owned(rt: &impl Abort, alloc: Global, words: &[&str]) -> Vec<String> {
    let mut owned = Vec::new(alloc);
    for word in words {
        let word = String::from_str(alloc, word).expect(rt, "memory");
        owned.push(word).expect(rt, "memory");
    }
    owned
}

/// The status of a run, and what it wrote and said.
fn ran(
    alloc: Global,
    words: &[String],
    script: &[u8],
    row: &Row,
) -> (Option<u8>, Vec<u8>, Vec<u8>) {
    let mut reader = FailsAtRead::new(FromRead::new(script), row.fatal_read);
    let mut writer = FailsAfter::new(FromWrite::new(Vec::new(alloc)), row.room);
    let mut errors = FromWrite::new(Vec::new(alloc));
    let status = run(alloc, words, &mut reader, &mut writer, &mut errors);
    let wrote = writer.into_inner().into_inner();
    (status, wrote, errors.into_inner())
}

/// The run ends as the row has it.
fn ends(rt: &impl Abort, alloc: Global, row: &Row) {
    let words = owned(rt, alloc, row.words);
    let script = text_of(rt, alloc, row.script);
    let (status, wrote, said) = ran(alloc, &words, script.as_bytes(), row);
    let at = row.words.last().unwrap_or(&"no words");
    same(rt, status, row.status, at);
    yes(rt, row.wrote.is(wrote.as_slice()), at);
    yes(rt, row.said.is(said.as_slice()), at);
}

/// Words, and the status and the text on standard error that they get.
const STATUSES: &[(&[&str], u8, &str)] = &[
    (REPLAY, 0, ""),
    (
        &["cbc", "replay", "--plmn", "00F120", "--journal", "1"],
        0,
        "",
    ),
    (&["cbc", "replay", "--broadcasts", "0"], 0, ""),
    (&["cbc", "replay", "--broadcasts=65535"], 0, ""),
    (&["cbc", "replay", "--plmn", "00f1"], 2, "cbc: bad plmn\n"),
    (
        &["cbc", "replay", "--broadcasts", "65535", "--plmn", "00f1"],
        2,
        "cbc: bad plmn\n",
    ),
    (&["cbc", "replay", "--plmn", "00f11g"], 2, "cbc: bad plmn\n"),
    (
        &["cbc", "replay", "--plmn", "00f1100"],
        2,
        "cbc: bad plmn\n",
    ),
    (
        &["cbc", "replay", "--journal=4000000", "--plmn="],
        2,
        "cbc: bad plmn\n",
    ),
];

#[test]
fn command_lines_have_their_status(rt: HostRuntime) {
    for (words, status, said) in STATUSES {
        let row = Row {
            words,
            script: &[],
            fatal_read: 0,
            room: ROOM,
            status: Some(*status),
            wrote: Wanted::Is(""),
            said: Wanted::Is(said),
        };
        ends(&rt, rt.alloc(), &row);
    }
}

const REFUSED: &[&[&str]] = &[
    &["cbc"],
    &["cbc", "serve", "script"],
    &["cbc", "serve", "--base", "0"],
    &["cbc", "serve", "--links", "0"],
    &["cbc", "serve", "--links", "257"],
    &["cbc", "serve", "--fold", "0"],
    &["cbc", "serve", "--reply-seconds", "86401"],
    &["cbc", "serve", "--cut-seconds", "86401"],
    &["cbc", "serve", "--keep-alive-seconds", "121"],
    &["cbc", "serve", "--query-minutes", "1441"],
    &["cbc", "serve", "--queries-per-second", "0"],
    &["cbc", "serve", "--queries-per-second", "257"],
    &["cbc", "serve", "--reset", "1"],
    &["cbc", "serve", "--peers"],
    &["cbc", "serve", "--console"],
    &["cbc", "serve", "--consoles", "0"],
    &["cbc", "serve", "--consoles", "65"],
    &["cbc", "serve", "--broadcasts", "65536"],
    &["cbc", "serve", "--broadcasts", "-1"],
    &["cbc", "serve", "--broadcasts"],
    &["cbc", "replay", "--broadcasts", "65536"],
    &["cbc", "replay", "--broadcasts", ""],
    &["cbc", "replay", "--broadcasts", "many"],
    &["cbc", "replay", "--reset"],
    &["cbc", "replay", "--version"],
    &["cbc", "replay", "--fold", "1"],
    &["cbc", "replay", "script"],
    &["cbc", "replay", "--journal", "0"],
    &["cbc", "replay", "--journal", "4000001"],
    &["cbc", "replay", "--journal", "0x10"],
    &["cbc", "replay", "--plmn", "00f1", "--journal", "0"],
];

/// What the parser of command lines refuses is said in its own words.
#[test]
fn other_command_lines_are_refused(rt: HostRuntime) {
    for words in REFUSED {
        let row = Row {
            words,
            script: ADD,
            fatal_read: 0,
            room: ROOM,
            status: Some(2),
            wrote: Wanted::Is(""),
            said: Wanted::Bounds("error: ", ""),
        };
        ends(&rt, rt.alloc(), &row);
    }
}

/// A warning in one cell, and its first order.
const FIRST_WRITE: &str = "bsc add 1\ncell add 100 7 1\narea add Coast\narea put Coast 100 7\n\
issue 4370 3 15 0 30 d4f29c0e Coast\nup 1\nsend 1\n";

const ROWS: &[Row] = &[
    // Help goes to standard output.
    Row {
        words: &["cbc", "--help"],
        script: ADD,
        fatal_read: 0,
        room: ROOM,
        status: Some(0),
        wrote: Wanted::Length(1, ROOM),
        said: Wanted::Is(""),
    },
    Row {
        words: &["cbc", "replay", "--help"],
        script: ADD,
        fatal_read: 0,
        room: ROOM,
        status: Some(0),
        wrote: Wanted::Length(1, ROOM),
        said: Wanted::Is(""),
    },
    // So does the version.
    Row {
        words: &["cbc", "--version"],
        script: ADD,
        fatal_read: 0,
        room: ROOM,
        status: Some(0),
        wrote: Wanted::Is("cbc 1.0.0\n"),
        said: Wanted::Is(""),
    },
    // Help that is cut short is a fault.
    Row {
        words: &["cbc", "--help"],
        script: ADD,
        fatal_read: 0,
        room: 2,
        status: Some(1),
        wrote: Wanted::Length(2, 2),
        said: Wanted::Is("cbc: write fault\n"),
    },
    // The program's own name is taken as it comes.
    Row {
        words: &["centre", "replay"],
        script: &[Text("fly")],
        fatal_read: 0,
        room: ROOM,
        status: Some(0),
        wrote: Wanted::Is("bad line\n"),
        said: Wanted::Is(""),
    },
    // Options reach the run.
    Row {
        words: &["cbc", "replay", "--journal", "1"],
        script: &[Text("bsc add 1\nbsc add 2\n")],
        fatal_read: 0,
        room: ROOM,
        status: Some(0),
        wrote: Wanted::Is("ok 1\nno 2 JournalFull\n"),
        said: Wanted::Is(""),
    },
    // The number of broadcasts reaches the write.
    Row {
        words: &["cbc", "replay", "--broadcasts", "65535"],
        script: &[Text(FIRST_WRITE)],
        fatal_read: 0,
        room: ROOM,
        status: Some(0),
        wrote: Wanted::Bounds(
            "ok 1\nok 2\nok 3\nok 4\nok 5 warning 1 serial C000\nok 6 link 6\n\
ok 7 tx 010000700e111203c00004000501006400071200050006001e07ffff13010c0f0104d4f29c0e0000",
            "0000\n",
        ),
        said: Wanted::Is(""),
    },
    // Each fault of a run is said.
    Row {
        words: REPLAY,
        script: &[Times(" ", 600_001), Text("\n")],
        fatal_read: 0,
        room: ROOM,
        status: Some(1),
        wrote: Wanted::Is(""),
        said: Wanted::Is("cbc: line too long\n"),
    },
    Row {
        words: REPLAY,
        script: ADD,
        fatal_read: 2,
        room: ROOM,
        status: Some(1),
        wrote: Wanted::Is("ok 1\n"),
        said: Wanted::Is("cbc: read fault\n"),
    },
    Row {
        words: REPLAY,
        script: ADD,
        fatal_read: 0,
        room: 2,
        status: Some(1),
        wrote: Wanted::Is("ok"),
        said: Wanted::Is("cbc: write fault\n"),
    },
    // A command line that asks for the server is left to it: nothing is read or written.
    Row {
        words: &[
            "cbc",
            "serve",
            "--links",
            "2",
            "--sim",
            "--reset",
            "--reply-seconds",
            "0",
            "--cut-seconds",
            "86400",
            "--keep-alive-seconds",
            "120",
            "--query-minutes",
            "1440",
            "--queries-per-second",
            "256",
            "--peers",
            "no file",
            "--console",
            "no folder/console",
            "--consoles",
            "64",
        ],
        script: ADD,
        fatal_read: 0,
        room: ROOM,
        status: None,
        wrote: Wanted::Is(""),
        said: Wanted::Is(""),
    },
];

#[test]
fn runs_end_with_their_status(rt: HostRuntime) {
    for row in ROWS {
        ends(&rt, rt.alloc(), row);
    }
}
