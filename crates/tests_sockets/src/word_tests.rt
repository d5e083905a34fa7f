//! What no clause says of the words of a server's command line.

use crate::checks::same;
use crate::given_plays::{Act, Base, Play, USUAL, played, words_of};
use crate::given_texts::Wanted;
use server_options::read_options;
use std::alloc::Global;
use std::process::Abort;

/// Words whose network or ports are bad, and what is said of them.
#[test]
fn bad_words_are_refused(rt: HostRuntime) {
    for play in BAD_WORDS {
        played(&rt, rt.alloc(), play);
    }
}

const BAD_WORDS: &[Play] = &[
    Play {
        words: &["--plmn", "00f1"],
        status: 2,
        answers: Wanted::Is(""),
        said: Wanted::Is("cbc: bad plmn\n"),
        ..USUAL
    },
    Play {
        words: &["--base", "65535", "--links", "2"],
        base: Base::Named,
        status: 2,
        answers: Wanted::Is(""),
        said: Wanted::Is("cbc: bad ports\n"),
        ..USUAL
    },
    Play {
        words: &["--plmn", "", "--base", "65535", "--links", "2"],
        base: Base::Named,
        status: 2,
        answers: Wanted::Is(""),
        said: Wanted::Is("cbc: bad plmn\n"),
        ..USUAL
    },
    Play {
        words: &["--http", "127.0.0.1"],
        status: 2,
        answers: Wanted::Is(""),
        said: Wanted::Is("cbc: bad http\n"),
        ..USUAL
    },
];

/// A journal of one entry is folded after each.
#[test]
fn a_journal_of_one_entry_is_folded(rt: HostRuntime) {
    played(&rt, rt.alloc(), &ONE_ENTRY);
}

const ONE_ENTRY: Play = Play {
    words: &["--journal", "1"],
    acts: &[Act::Lines("bsc add 1\nbsc add 2\n", 0)],
    answers: Wanted::Is("ok 1\nok 2\nsettled 2\n"),
    said: Wanted::Is(
        "cbc: the journal was folded, entries: 1\n\
cbc: BSC 2 has no port: --links is 1\n\
cbc: the journal was folded, entries: 1\n",
    ),
    ..USUAL
};

/// A warning over one cell.
const WARNING: &str =
    "bsc add 1\ncell add 100 7 1\narea add Coast\narea put Coast 100 7\nissue 4370 3 15 0 30 d4f29c0e Coast\n";

/// The journal is folded whenever it has 5 entries. Each link is 2 at least, so it would be full at the second.
#[test]
fn a_journal_is_folded_before_it_is_full(rt: HostRuntime) {
    played(&rt, rt.alloc(), &FOLDED);
}

const FOLDED: Play = Play {
    words: &["--journal", "6"],
    acts: &[
        Act::Lines(WARNING, 5),
        Act::Types(
            "fly\n",
            "bad line: no line begins with 'fly'; help lists all lines\n",
        ),
        Act::Connects(1, 1),
        Act::Stops(0),
        Act::IsClosed(0),
        Act::Connects(1, 1),
        Act::Stops(1),
        Act::IsClosed(1),
        Act::Connects(1, 1),
        Act::Stops(2),
        Act::IsClosed(2),
        Act::Connects(1, 1),
        Act::Stops(3),
        Act::IsClosed(3),
        Act::Types(
            "board 1\n",
            "awaited 1 onair 0 failed 0 left 0 broadcasts 0\n",
        ),
        Act::Lines("quit\n", 0),
    ],
    answers: Wanted::Bounds("settled ", "\n"),
    said: Wanted::Bounds(
        "cbc: the journal was folded, entries: 5\n\
cbc: BSC 1: link 6 is up\n\
cbc: BSC 1: link 6 ended: the BSC closed the connection\n",
        "",
    ),
    ..USUAL
};

/// So many consoles are opened as the words ask for, and 16 where they don't.
#[test]
fn a_number_of_consoles_is_taken(rt: HostRuntime) {
    same(
        &rt,
        consoles_of(&rt, rt.alloc(), &THREE_CONSOLES),
        3,
        "three",
    );
    same(&rt, consoles_of(&rt, rt.alloc(), &USUAL), 16, "the usual");
}

const THREE_CONSOLES: Play = Play {
    words: &["--consoles", "3"],
    ..USUAL
};

/// How many consoles the words of the play ask for.
fn consoles_of(rt: &impl Abort, alloc: Global, play: &Play) -> u32 {
    let words = words_of(rt, alloc, play, 48_000);
    let options = read_options(alloc, words.as_slice());
    let consoles = match &options {
        Ok(options) => options.consoles,
        Err(_) => 0,
    };
    drop(options);
    consoles
}

/// The journal is folded whenever it has two entries, and when that is asked for.
#[test]
fn a_journal_is_folded_when_that_is_asked_for(rt: HostRuntime) {
    played(&rt, rt.alloc(), &ASKED);
}

const ASKED: Play = Play {
    words: &["--fold", "2"],
    acts: &[
        Act::Lines(
            "bsc add 1\nbsc add 2\nbsc add 3\ncheckpoint\nbsc add 4\nfly\nboard 1\n",
            7,
        ),
        Act::Lines(
            "checkpoint\nbsc add 5\nbsc add 6\ncheckpoint\nbsc add 6\nquit\n",
            0,
        ),
    ],
    answers: Wanted::Is("folded 1\nok 5\nok 6\nfolded 0\nno 4 BscExists\nsettled 6\n"),
    said: Wanted::Bounds(
        "cbc: BSC 2 has no port: --links is 1\n\
cbc: the journal was folded, entries: 2\n\
cbc: BSC 3 has no port: --links is 1\n",
        "",
    ),
    ..USUAL
};

/// A FAILURE names a cell by its global identification: one of another network, and then one of the network that is served.
#[test]
fn a_cell_is_named_in_the_network_that_is_served(rt: HostRuntime) {
    played(&rt, rt.alloc(), &NETWORK);
}

const NETWORK: Play = Play {
    words: &["--plmn", "00f120"],
    acts: &[
        Act::Lines(WARNING, 5),
        Act::Connects(1, 1),
        Act::Sends(
            0,
            b"\x14\x00\x00\x0e\x09\x00\x09\x00\x00\xf1\x10\x00\x64\x00\x07\x0a\x16\x00",
            1,
        ),
        Act::Stops(0),
        Act::IsClosed(0),
        Act::Types(
            "board 1\n",
            "awaited 1 onair 0 failed 0 left 0 broadcasts 0\n",
        ),
        Act::Connects(1, 1),
        Act::Sends(
            1,
            b"\x14\x00\x00\x0e\x09\x00\x09\x00\x00\xf1\x20\x00\x64\x00\x07\x0a\x16\x00",
            1,
        ),
        Act::Stops(1),
        Act::IsClosed(1),
        Act::Types(
            "board 1\n",
            "awaited 0 onair 0 failed 1 left 0 broadcasts 0\n",
        ),
        Act::Lines("quit\n", 0),
    ],
    answers: Wanted::Settled("20"),
    said: Wanted::Bounds("cbc: BSC 1: link 6 is up\n", ""),
    ..USUAL
};

/// A write requests the number of broadcasts that the words ask for.
#[test]
fn a_number_of_broadcasts_is_requested(rt: HostRuntime) {
    played(&rt, rt.alloc(), &REQUESTED);
}

/// The front of a WRITE-REPLACE of message 4370 with serial number C000 in cell 100 7, to the number of its pages. Behind 07 is the
/// Number of Broadcasts Requested.
const WRITE: &[u8] =
    b"\x01\x00\x00\x70\x0e\x11\x12\x03\xc0\x00\x04\x00\x05\x01\x00\x64\x00\x07\x12\x00\x05\x00\x06\x00\x1e\x07\xff\xff\x13\x01";

const REQUESTED: Play = Play {
    words: &["--broadcasts", "65535"],
    acts: &[
        Act::Lines(WARNING, 5),
        Act::Connects(1, 1),
        Act::Gets(0, WRITE),
        Act::Lines("quit\n", 0),
    ],
    answers: Wanted::Settled("20"),
    ..USUAL
};

/// What a server listens on is said first, with the time: that is between its start and now.
#[test]
fn what_is_listened_on_is_said(rt: HostRuntime) {
    for play in LISTENING {
        played(&rt, rt.alloc(), play);
    }
}

const LISTENING: &[Play] = &[
    Play {
        acts: &[Act::Listens(1), Act::Lines("quit\n", 0)],
        answers: Wanted::Is("settled 0\n"),
        said: Wanted::Is(""),
        ..USUAL
    },
    Play {
        words: &["--links", "2"],
        acts: &[Act::Listens(2), Act::Lines("quit\n", 0)],
        answers: Wanted::Is("settled 0\n"),
        said: Wanted::Is(""),
        ..USUAL
    },
];

/// Files of peers, and how a server ends that is given them.
#[test]
fn files_of_peers_are_read(rt: HostRuntime) {
    for play in FILES_OF_PEERS {
        played(&rt, rt.alloc(), play);
    }
}

const FILES_OF_PEERS: &[Play] = &[
    Play {
        words: &["--peers", "/dev/null"],
        acts: &[Act::Lines("quit\n", 0)],
        answers: Wanted::Is("settled 0\n"),
        said: Wanted::Is(""),
        ..USUAL
    },
    Play {
        words: &["--peers", "/proc/version"],
        status: 3,
        answers: Wanted::Is(""),
        said: Wanted::Is("cbc: peers: line 1 can't be read\ncbc: peers fault\n"),
        ..USUAL
    },
    Play {
        words: &["--peers", "/dev/zero"],
        status: 3,
        answers: Wanted::Is(""),
        said: Wanted::Is("cbc: peers: the file is too long\ncbc: peers fault\n"),
        ..USUAL
    },
    // A file that isn't there: the error of the system, then the fault.
    Play {
        words: &["--peers", "/dev/null/peers"],
        status: 3,
        answers: Wanted::Is(""),
        said: Wanted::Bounds("cbc: peers: ", "cbc: peers fault\n"),
        ..USUAL
    },
];
