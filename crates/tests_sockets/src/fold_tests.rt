//! What no clause says of a server's journal: that it is folded where that is due by what is typed, what links report, and what stands in
//! its file.

use crate::given_plays::{Act, Play, USUAL, played};
use crate::given_texts::Wanted;
use crate::keep_tests::{Kept, keeps};

/// A BSC with cell 100 7 in an area.
const ONE_CELL: &str = "bsc add 1\ncell add 100 7 1\narea add Coast\narea put Coast 100\n";

/// Lines that come in one piece. Each counts for the fold, which comes behind every third entry, wherever the piece ends.
#[test]
fn lines_in_one_piece_are_folded_in_between(rt: HostRuntime) {
    keeps(&rt, &FOLDED);
}

const FOLDED: Kept = Kept {
    path: "folded-journal",
    before: None,
    after: "# cbc journal, network 00f110\nbsc add 1\narea add A\narea add B\ncheckpoint\narea add C\narea add D\narea add E\ncheckpoint\narea add F\n",
    play: Play {
        words: &["--keep", "folded-journal", "--fold", "3"],
        acts: &[Act::Lines(
            "bsc add 1\narea add A\narea add B\narea add C\narea add C\narea add D\narea add E\narea add F\nquit\n",
            0,
        )],
        answers: Wanted::Is(
            "ok 1\nok 2\nok 3\nok 4\nno 11 AreaExists\nok 5\nok 6\nok 7\nsettled 7\n",
        ),
        said: Wanted::Is(
            "cbc: the journal was folded, entries: 3\ncbc: the journal was folded, entries: 3\n",
        ),
        ..USUAL
    },
};

/// What stands in the file counts for the next fold.
#[test]
fn what_was_kept_counts_for_the_next_fold(rt: HostRuntime) {
    keeps(&rt, &COUNTED);
}

const COUNTED: Kept = Kept {
    path: "counted-journal",
    before: Some(
        "# cbc journal, network 00f110\narea add A\narea add B\narea add C\narea add D\narea add E\narea add F\narea add G\narea add H\narea add I\n",
    ),
    after: "# cbc journal, network 00f110\narea add A\narea add B\narea add C\narea add D\narea add E\narea add F\narea add G\narea add H\narea add I\narea add J\ncheckpoint\narea add K\n",
    play: Play {
        words: &["--keep", "counted-journal", "--fold", "10"],
        acts: &[Act::Lines("area add J\narea add K\nquit\n", 0)],
        answers: Wanted::Is("ok 10\nok 11\nsettled 11\n"),
        said: Wanted::Is("cbc: the journal was folded, entries: 10\n"),
        ..USUAL
    },
};

/// A BSC reports more than the journal holds: it is folded meanwhile, and the link goes on.
#[test]
fn reports_are_folded(rt: HostRuntime) {
    played(&rt, rt.alloc(), &REPORTED);
}

/// A FAILURE of cell 100 7, for warnings of Broadcast Message Type 0.
const FAILURE: &[u8] = b"\x14\x00\x00\x0b\x09\x00\x06\x01\x00\x64\x00\x07\x0a\x16\x00";

const REPORTED: Play = Play {
    words: &["--journal", "20"],
    acts: &[
        Act::Lines(ONE_CELL, 4),
        Act::Connects(1, 1),
        Act::Says("link 5 is up"),
        Act::Sends(0, FAILURE, 100),
        Act::Stops(0),
        Act::IsClosed(0),
        Act::Says("ended: "),
        Act::Types("status\n", "status entries 106 folded "),
        Act::Lines("quit\n", 0),
    ],
    answers: Wanted::Settled("106"),
    ..USUAL
};
