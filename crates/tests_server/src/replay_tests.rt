//! What no clause says of `replay`: that it answers, what ends a line, long lines and frames, readers and writers that
//! fail, and limits that a loop reaches. Worked scripts are in the data of `examples`.

use crate::checks::{same, yes};
use crate::given_texts::Part::{Numbered, Text, Times};
use crate::given_texts::{Part, are_as_wanted, text_of};
use centre_events::network::Network;
use console::replay;
use console_text::ReplayFault;
use framing::faulty::{EndsAtRead, FailsAfter, FailsAtRead, InPieces};
use framing::{FromRead, FromWrite};
use std::alloc::Global;
use std::process::Abort;

/// The network 001-01, in which messages are broadcast until they are killed.
const NETWORK: Network = Network {
    plmn: [0x00, 0xf1, 0x10],
    broadcasts: 0,
};

/// How a script is read and its answers are written.
#[derive(Clone, Copy)]
struct Streams {
    /// The most octets of a read, and of a write.
    read: usize,
    written: usize,
    /// The read that fails, from 1; 0 for none.
    fatal_read: u64,
    /// The read from which on the script is at its end.
    last_read: u64,
    /// How many octets can be written.
    room: usize,
}

const WHOLE: Streams = Streams {
    read: 4096,
    written: 4096,
    fatal_read: 0,
    last_read: 1_000_000,
    room: 1_000_000,
};

/// How the run of the script ends, and what was written.
fn replayed(alloc: Global, script: &[u8], streams: &Streams) -> (Result<(), ReplayFault>, Vec<u8>) {
    let pieces = InPieces::new(FromRead::new(script), streams.read.max(1));
    let fails = FailsAtRead::new(pieces, streams.fatal_read);
    let mut reader = EndsAtRead::new(fails, streams.last_read);
    let sink = InPieces::new(FromWrite::new(Vec::new(alloc)), streams.written.max(1));
    let mut writer = FailsAfter::new(sink, streams.room);
    let ended = replay(alloc, &mut reader, &mut writer, NETWORK, 4_000_000);
    (ended, writer.into_inner().into_inner().into_inner())
}

/// A run of a script, how it ends, and its answers.
struct Row {
    at: &'static str,
    script: &'static [Part],
    streams: Streams,
    ended: Result<(), ReplayFault>,
    answers: &'static [Part],
}

/// Three lines that are accepted.
const SCRIPT: &[Part] = &[Text("bsc add 1\nbsc add 2\nbsc add 3\n")];

/// The row's run ends and answers as it has to.
fn answers(rt: &impl Abort, alloc: Global, row: &Row) {
    let script = text_of(rt, alloc, row.script);
    let wanted = text_of(rt, alloc, row.answers);
    let (ended, wrote) = replayed(alloc, script.as_bytes(), &row.streams);
    same(rt, ended, row.ended, row.at);
    let is_right = are_as_wanted(wrote.as_slice(), wanted.as_bytes());
    yes(rt, is_right, row.at);
}

const ROWS: &[Row] = &[
    Row {
        at: "what ends a line",
        script: &[Text("fly\r\nfly\r\r\n\r\n\r\r\nboard 1\r")],
        streams: WHOLE,
        ended: Ok(()),
        answers: &[Text("bad line\nbad line\nbad line\nno 16 NoSuchWarning\n")],
    },
    Row {
        at: "lines without words",
        script: &[Text("\n   \n# bsc add 1\n  #\n#\nbsc   add  1 \n  bsc add 2")],
        streams: WHOLE,
        ended: Ok(()),
        answers: &[Text("ok 1\nok 2\n")],
    },
    Row {
        at: "the longest line",
        script: &[
            Text("bsc add 1\n"),
            Times(" ", 600_000),
            Text("\nbsc add 2\n"),
        ],
        streams: WHOLE,
        ended: Ok(()),
        answers: &[Text("ok 1\nok 2\n")],
    },
    Row {
        at: "the longest line with a carriage return",
        script: &[
            Text("bsc add 1\n"),
            Times(" ", 600_000),
            Text("\r\nbsc add 2"),
        ],
        streams: WHOLE,
        ended: Ok(()),
        answers: &[Text("ok 1\nok 2\n")],
    },
    Row {
        at: "a longer line",
        script: &[
            Text("bsc add 1\n"),
            Times(" ", 600_001),
            Text("\nbsc add 2\n"),
        ],
        streams: WHOLE,
        ended: Err(ReplayFault::LongLine),
        answers: &[Text("ok 1\n")],
    },
    Row {
        at: "a longer line with a carriage return",
        script: &[
            Text("bsc add 1\n"),
            Times(" ", 600_001),
            Text("\r\nbsc add 2\n"),
        ],
        streams: WHOLE,
        ended: Err(ReplayFault::LongLine),
        answers: &[Text("ok 1\n")],
    },
    Row {
        at: "a longer line at the end",
        script: &[Text("bsc add 1\n"), Times(" ", 600_001)],
        streams: WHOLE,
        ended: Err(ReplayFault::LongLine),
        answers: &[Text("ok 1\n")],
    },
    Row {
        at: "the longest line at the end",
        script: &[Text("bsc add 1\n"), Times(" ", 600_000), Text("\r")],
        streams: WHOLE,
        ended: Ok(()),
        answers: &[Text("ok 1\n")],
    },
    Row {
        at: "the longest frame",
        script: &[Text("rx 1 02040000"), Times("00", 262_144)],
        streams: WHOLE,
        ended: Ok(()),
        answers: &[Text("bad message 2 UnknownElement 00\n")],
    },
    Row {
        at: "a longer frame",
        script: &[Text("rx 1 02040001"), Times("00", 262_145)],
        streams: WHOLE,
        ended: Ok(()),
        answers: &[Text("bad frame\n")],
    },
    Row {
        at: "a 257th BSC",
        script: &[Numbered("bsc add ", 1, 257, "\n")],
        streams: WHOLE,
        ended: Ok(()),
        answers: &[Numbered("ok ", 1, 256, "\n"), Text("no 35 Limit Bscs\n")],
    },
    Row {
        at: "a failed read",
        script: SCRIPT,
        streams: Streams {
            read: 12,
            written: 4096,
            fatal_read: 3,
            last_read: 1_000_000,
            room: 1_000_000,
        },
        ended: Err(ReplayFault::ReadFault),
        answers: &[Text("ok 1\nok 2\n")],
    },
    Row {
        at: "an early end",
        script: SCRIPT,
        streams: Streams {
            read: 1,
            written: 4096,
            fatal_read: 0,
            last_read: 23,
            room: 1_000_000,
        },
        ended: Ok(()),
        answers: &[Text("ok 1\nok 2\nbad line\n")],
    },
    Row {
        at: "a failed write",
        script: SCRIPT,
        streams: Streams {
            read: 7,
            written: 2,
            fatal_read: 0,
            last_read: 1_000_000,
            room: 7,
        },
        ended: Err(ReplayFault::WriteFault),
        answers: &[Text("ok 1\nok")],
    },
    // An order has 1,000 cells at most; the last of 1,001 cells goes out in a second one.
    Row {
        at: "many cells are ordered in turn",
        script: &[
            Text("bsc add 1\n"),
            Numbered("cell add 200 ", 1, 1001, " 1\n"),
            Text("area add Wide\narea put Wide 200\nissue 4370 3 15 0 30 d4f29c0e Wide\n"),
            Text("up 1\nsend 1\nsend 1\nrx 1 020000060e111203c000\nboard 1\n"),
            Text("send 1\nrx 1 020000060e111203c000\nsend 1\n"),
        ],
        streams: WHOLE,
        ended: Ok(()),
        answers: &[
            Numbered("ok ", 1, 1004, "\n"),
            Text("ok 1005 warning 1 serial C000\nok 1006 link 1006\n"),
            Text("ok 1007 tx 0100100c0e111203c000040fa101...\nno 31 InFlight\n"),
            Text("ok 1008 cells 1000\n"),
            Text("awaited 1 onair 1000 failed 0 left 0 broadcasts 0\n"),
            Text("ok 1009 tx 010000700e111203c0000400050100c803e9...\n"),
            Text("ok 1010 cells 1\nno 32 NothingPending\n"),
        ],
    },
];

/// The script of three lines ends so over the streams, and is answered so.
fn ends(
    rt: &impl Abort,
    alloc: Global,
    streams: &Streams,
    ended: Result<(), ReplayFault>,
    answers: &[u8],
) {
    let script = text_of(rt, alloc, SCRIPT);
    let (found, wrote) = replayed(alloc, script.as_bytes(), streams);
    same(rt, found, ended, "another end");
    yes(rt, wrote.as_slice() == answers, "other answers");
}

/// What is answered to a line of which so many octets have come when the script ends; the first 9 are all but its line feed.
fn answer_to_part(octets: u32, line: u32) -> Part {
    match octets {
        0 => Text(""),
        9 => Numbered("ok ", line, line, "\n"),
        _ => Text("bad line\n"),
    }
}

/// A read fails after so many octets of the script, each read alone; or the script ends there.
fn fails_or_ends_after(rt: &impl Abort, alloc: Global, octets: u32) {
    let lines = octets / 10;
    let whole = Numbered("ok ", 1, lines, "\n");
    let answers = text_of(rt, alloc, &[whole]);
    let mut streams = Streams {
        read: 1,
        written: 1,
        fatal_read: u64::from(octets) + 1,
        last_read: 1_000_000,
        room: 1_000_000,
    };
    let fault = Err(ReplayFault::ReadFault);
    ends(rt, alloc, &streams, fault, answers.as_bytes());
    streams.last_read = streams.fatal_read;
    streams.fatal_read = 0;
    let whole = Numbered("ok ", 1, lines, "\n");
    let part = answer_to_part(octets % 10, lines + 1);
    let answers = text_of(rt, alloc, &[whole, part]);
    ends(rt, alloc, &streams, Ok(()), answers.as_bytes());
}

#[test]
fn each_octet_of_a_script_may_be_the_last(rt: HostRuntime) {
    for octets in 0..=30 {
        fails_or_ends_after(&rt, rt.alloc(), octets);
    }
}

/// A writer takes so many octets of the answers, one at each write.
fn takes(rt: &impl Abort, alloc: Global, room: usize) {
    let answers = b"ok 1\nok 2\nok 3\n".as_slice();
    let streams = Streams {
        read: 4096,
        written: 1,
        fatal_read: 0,
        last_read: 1_000_000,
        room,
    };
    let ended = if room == answers.len() {
        Ok(())
    } else {
        Err(ReplayFault::WriteFault)
    };
    let taken = answers.get(..room).expect(rt, "so many octets");
    ends(rt, alloc, &streams, ended, taken);
}

#[test]
fn each_octet_of_the_answers_may_be_the_last_that_is_written(rt: HostRuntime) {
    for room in 0..=15 {
        takes(&rt, rt.alloc(), room);
    }
}

#[test]
fn scripts_have_their_answers(rt: HostRuntime) {
    for row in ROWS {
        answers(&rt, rt.alloc(), row);
    }
}
