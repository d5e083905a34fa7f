//! What no clause says of the page of a running server: that its figures are those of its links, its boards and its file.

use crate::given_plays::{Act, Play, USUAL, played};
use crate::given_texts::Wanted;
use crate::metrics_page::PAGE;
use std::fs;

/// The type of a WRITE-REPLACE.
const WRITE: u8 = 0x01;

/// A WRITE-REPLACE COMPLETE of message 4370 with serial number C000 in cell 100 7.
const WRITTEN: &[u8] =
    b"\x02\x00\x00\x10\x0e\x11\x12\x03\xc0\x00\x04\x00\x05\x01\x00\x64\x00\x07\x12\x00";

/// A FAILURE of cell 100 7, for warnings of Broadcast Message Type 0.
const FAILURE: &[u8] = b"\x14\x00\x00\x0b\x09\x00\x06\x01\x00\x64\x00\x07\x0a\x16\x00";

/// A RESET of all cells, and its answer.
const RESET: &[u8] = b"\x10\x00\x00\x04\x04\x00\x01\x06";

const RESET_COMPLETE: &[u8] = b"\x11\x00\x00\x04\x04\x00\x01\x06";

/// While a RESET is out, and then an order, the figures say since when. The warning is silent nowhere once it is on air. Then its cell
/// fails. All entries are kept, and how much memory the program takes is known.
#[test]
fn figures_are_those_of_a_server(rt: HostRuntime) {
    let _ = fs::remove_file(&rt, "journal-of-figures");
    played(&rt, rt.alloc(), &FIGURES);
    let _ = fs::remove_file(&rt, "journal-of-figures");
}

const FIGURES: Play = Play {
    words: &[
        "--links",
        "2",
        "--reset",
        "--keep",
        "journal-of-figures",
        "--http",
        PAGE,
    ],
    acts: &[
        Act::Lines("bsc add 1\nbsc add 2\ncell add 100 7 1\n", 3),
        Act::Lines("area add Coast\narea put Coast 100\n", 2),
        Act::Shows(&[
            "\ncbc_journal_kept_entries 5\n",
            "\nprocess_resident_memory_bytes ",
        ]),
        Act::Connects(1, 1),
        Act::Gets(0, RESET),
        Act::Shows(&["\ncbc_bsc_reset_since_timestamp_seconds{bsc=\"1\"} "]),
        Act::Sends(0, RESET_COMPLETE, 1),
        Act::Types("issue 4370 3 15 0 30 d4f29c0e Coast\n", "ok "),
        Act::Answers(0, WRITE, b""),
        Act::Shows(&["\ncbc_bsc_in_flight_since_timestamp_seconds{bsc=\"1\"} "]),
        Act::Sends(0, WRITTEN, 1),
        Act::Shows(&[
            "\ncbc_cells{warning=\"1\",message_id=\"4370\",state=\"on_air\"} 1\n",
            "\ncbc_silent_cells{warning=\"1\",message_id=\"4370\"} 0\n",
        ]),
        Act::Sends(0, FAILURE, 1),
        Act::Shows(&["\ncbc_bsc_down_cells{bsc=\"1\"} 1\n"]),
        Act::Lines("quit\n", 0),
    ],
    answers: Wanted::Settled("20"),
    ..USUAL
};
