//! The first line of a journal's file: what it names, and what is said of another one. The lines are written from the layout of
//! docs/FORMATS.md.

use crate::journal_file_tests::finds;
use crate::values::same;
use journal_file::{Heading, LoadFault, Loaded, header};

/// A heading of the network 001-01 (TS 24.008), with so many broadcasts.
fn heading(broadcasts: u16) -> Heading {
    Heading {
        plmn: [0x00, 0xf1, 0x10],
        broadcasts,
    }
}

#[test]
fn the_first_line_names_the_network_and_the_broadcasts(rt: HostRuntime) {
    let rows: [(u16, &[u8]); 5] = [
        (0, b"# cbc journal, network 00f110"),
        (1, b"# cbc journal, network 00f110, broadcasts 1"),
        (10, b"# cbc journal, network 00f110, broadcasts 10"),
        (258, b"# cbc journal, network 00f110, broadcasts 258"),
        (65_535, b"# cbc journal, network 00f110, broadcasts 65535"),
    ];
    for (broadcasts, want) in rows {
        same(
            &rt,
            &header(heading(broadcasts)).as_slice(),
            &want,
            "the first line",
        );
    }
}

/// Files that are read with a number of broadcasts: what is taken of them, and what is found.
const READ: &[(u16, &[u8], &[u8], Loaded)] = &[
    (
        65_535,
        b"# cbc journal, network 00f110, broadcasts 65535\nup 1\n",
        b"up 1\n",
        Loaded {
            lines: 2,
            whole: 53,
            torn: 0,
        },
    ),
    (
        1,
        b"# cbc journal, network 00f110, broadcasts 1\nup",
        b"",
        Loaded {
            lines: 1,
            whole: 44,
            torn: 2,
        },
    ),
    // what a torn write leaves of the first line
    (
        65_535,
        b"# cbc journal, network 00f110",
        b"",
        Loaded {
            lines: 0,
            whole: 0,
            torn: 29,
        },
    ),
    (
        65_535,
        b"# cbc journal, network 00f110, broadcasts 655\0\0",
        b"",
        Loaded {
            lines: 0,
            whole: 0,
            torn: 47,
        },
    ),
    (
        65_535,
        b"# cbc journal, network 00f110, broadcasts 65535",
        b"",
        Loaded {
            lines: 0,
            whole: 0,
            torn: 47,
        },
    ),
];

#[test]
fn a_file_with_that_number_of_broadcasts_is_read(rt: HostRuntime) {
    for (broadcasts, octets, taken, want) in READ {
        finds(
            &rt,
            rt.alloc(),
            heading(*broadcasts),
            octets,
            taken,
            Ok(*want),
        );
    }
}

/// Files that aren't read with a number of broadcasts, and why. Nothing of them is taken.
const REFUSED: &[(u16, &[u8], LoadFault)] = &[
    (
        0,
        b"# cbc journal, network 00f110, broadcasts 65535\nup 1\n",
        LoadFault::OtherBroadcasts(65_535, 0),
    ),
    (
        65_535,
        b"# cbc journal, network 00f110\nup 1\n",
        LoadFault::OtherBroadcasts(0, 65_535),
    ),
    (
        1,
        b"# cbc journal, network 00f110, broadcasts 2\n",
        LoadFault::OtherBroadcasts(2, 1),
    ),
    // another network is told first
    (
        1,
        b"# cbc journal, network 00f111, broadcasts 2\n",
        LoadFault::OtherNetwork,
    ),
    (
        1,
        b"# cbc journal, network 00f111, broadcasts 1\n",
        LoadFault::OtherNetwork,
    ),
    // a number is written in one way alone, and 0 isn't written
    (
        0,
        b"# cbc journal, network 00f110, broadcasts 0\n",
        LoadFault::NotJournal,
    ),
    (
        1,
        b"# cbc journal, network 00f110, broadcasts 01\n",
        LoadFault::NotJournal,
    ),
    (
        1,
        b"# cbc journal, network 00f110, broadcasts +1\n",
        LoadFault::NotJournal,
    ),
    (
        1,
        b"# cbc journal, network 00f110, broadcasts 1 \n",
        LoadFault::NotJournal,
    ),
    (
        0,
        b"# cbc journal, network 00f110, broadcasts 65536\n",
        LoadFault::NotJournal,
    ),
    (
        0,
        b"# cbc journal, network 00f110, broadcasts \n",
        LoadFault::NotJournal,
    ),
    (
        0,
        b"# cbc journal, network 00f110, broadcasts \xff\n",
        LoadFault::NotJournal,
    ),
    (
        0,
        b"# cbc journal, network 00f110,\n",
        LoadFault::NotJournal,
    ),
    (0, b"# cbc journal, network 00f1\n", LoadFault::NotJournal),
    // a first line of another number that is torn
    (
        65_535,
        b"# cbc journal, network 00f110, broadcasts 64",
        LoadFault::NotJournal,
    ),
];

#[test]
fn another_first_line_is_refused(rt: HostRuntime) {
    for (broadcasts, octets, want) in REFUSED {
        finds(
            &rt,
            rt.alloc(),
            heading(*broadcasts),
            octets,
            b"",
            Err(*want),
        );
    }
}
