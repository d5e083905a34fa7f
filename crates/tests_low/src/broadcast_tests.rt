//! Which numbers of broadcasts stand still, and since when messages are over by their periods, in numbers of their own.

use crate::values::yes;
use broadcast_watch::{
    Airings, Counted, Silences, info_of, judged, over_since, silence_of, takes_off_air,
};
use cbsp_ie::{CellId, CountEntry};
use common::Cell;
use link_rules::Version;
use std::alloc::Global;
use std::process::Abort;

/// The version of that serial number.
fn version(serial: u16) -> Version {
    Version {
        message_id: 4370,
        serial,
    }
}

fn cell(ci: u16) -> Cell {
    Cell { lac: 100, ci }
}

/// A reply to a query for the cells from 1 to 9 is heard: it gives these numbers of cells, at that time. 1,000 is the limit.
fn hears(
    rt: &impl Abort,
    alloc: Global,
    silences: &mut Silences,
    serial: u16,
    counts: &[(u16, Option<u16>)],
    now: u64,
) {
    let mut counted = Vec::new(alloc);
    for (ci, count) in counts {
        let one = Counted {
            cell: cell(*ci),
            count: *count,
        };
        counted.push(one).expect(rt, "memory");
    }
    let (first, last) = (cell(1), cell(9));
    let heard = silences.hear(
        alloc,
        version(serial),
        first,
        last,
        counted.as_slice(),
        1000,
        now,
    );
    heard.expect(rt, "memory");
}

/// In so many cells the version is silent.
fn silent_in(rt: &impl Abort, silences: &Silences, serial: u16, count: usize, what: &str) {
    yes(rt, silences.silent_count(version(serial)) == count, what);
}

/// So many numbers of the version are kept.
fn spells_in(rt: &impl Abort, silences: &Silences, serial: u16, count: usize, what: &str) {
    yes(rt, silences.spells(version(serial)).len() == count, what);
}

/// Cell 1 has these numbers, and cell 2 those, in replies at these times; and in so many cells the message is silent then.
const REPLIES: [(u16, u16, u64, usize, &str); 5] = [
    (0, 4, 500, 0, "one reply says nothing"),
    (0, 5, 1500, 0, "three periods, and no more"),
    (0, 5, 1501, 1, "more than three periods"),
    (1, 5, 2501, 1, "one rises, one stands still"),
    (2, 6, 3600, 0, "both rise"),
];

#[test]
fn a_cell_is_silent_whose_number_stands_still(rt: HostRuntime) {
    let alloc = rt.alloc();
    let mut silences = Silences::new(alloc);
    let one = 0xc000;
    for (first, second, now, count, what) in REPLIES {
        let counts = [(1, Some(first)), (2, Some(second))];
        hears(&rt, alloc, &mut silences, one, &counts, now);
        silent_in(&rt, &silences, one, count, what);
    }
}

#[test]
fn what_a_reply_leaves_out_is_forgotten(rt: HostRuntime) {
    let alloc = rt.alloc();
    let mut silences = Silences::new(alloc);
    let one = 0xc000;
    let three = [(1, Some(7)), (2, Some(7)), (12, Some(7))];
    hears(&rt, alloc, &mut silences, one, &three, 0);
    hears(
        &rt,
        alloc,
        &mut silences,
        one,
        &[(1, Some(7)), (2, None)],
        2000,
    );
    silent_in(&rt, &silences, one, 1, "a cell whose number isn't judged");
    spells_in(&rt, &silences, one, 2, "cell 12 wasn't asked for");
    hears(&rt, alloc, &mut silences, one, &[(2, Some(7))], 4000);
    silent_in(
        &rt,
        &silences,
        one,
        0,
        "a cell that isn't on air, and one anew",
    );
    hears(&rt, alloc, &mut silences, one, &[], 5000);
    spells_in(&rt, &silences, one, 1, "none of those that were asked for");
}

#[test]
fn versions_are_told_apart(rt: HostRuntime) {
    let alloc = rt.alloc();
    let mut silences = Silences::new(alloc);
    let (one, later) = (0xc000, 0xc001);
    hears(&rt, alloc, &mut silences, one, &[(1, Some(3))], 0);
    hears(&rt, alloc, &mut silences, later, &[(1, Some(3))], 2000);
    silent_in(&rt, &silences, later, 0, "another version");
    hears(&rt, alloc, &mut silences, one, &[(1, Some(3))], 2000);
    silent_in(&rt, &silences, one, 1, "its own second reply");
    silences.keep(&[version(0xc001)]);
    silent_in(&rt, &silences, one, 0, "a version that has ended");
    spells_in(&rt, &silences, later, 1, "one that goes on");
}

/// Two versions are silent in cells 1 and 2.
fn two_silent(rt: &impl Abort, alloc: Global) -> Silences {
    let mut silences = Silences::new(alloc);
    let counts = [(1, Some(3)), (2, Some(3))];
    for now in [0, 2000] {
        hears(rt, alloc, &mut silences, 0xc001, &counts, now);
        hears(rt, alloc, &mut silences, 0xc000, &counts, now);
    }
    silences
}

#[test]
fn a_restart_leaves_the_other_cells(rt: HostRuntime) {
    let alloc = rt.alloc();
    let mut silences = two_silent(&rt, alloc);
    let cells = [cell(9), cell(2), cell(2)];
    silences.restart(alloc, &cells).expect(&rt, "memory");
    for serial in [0xc000, 0xc001] {
        silent_in(&rt, &silences, serial, 1, "cell 1");
        spells_in(&rt, &silences, serial, 1, "cell 1 alone");
    }
    silences.forget();
    spells_in(&rt, &silences, 0xc000, 0, "a RESET");
}

/// The rows are a Broadcast Message Type, a Recovery Indication, and whether messages with pages are on air no more.
#[test]
fn a_restart_may_keep_what_is_on_air(rt: HostRuntime) {
    let rows = [(0, 0, false), (0, 1, true), (1, 1, false), (2, 1, false)];
    for (kind, recovery, want) in rows {
        yes(&rt, takes_off_air(kind, recovery) == want, "a RESTART");
    }
}

/// The rows are a repetition period, how many broadcasts were asked for, the Number of Broadcasts Info, the number, and what is judged.
#[test]
fn numbers_that_need_not_rise_are_not_judged(rt: HostRuntime) {
    let rows = [
        (30, 0, 0, Some(0), Some(0)),
        (1024, 0, 0, Some(65_534), Some(65_534)),
        (1, 0, 0, Some(65_535), None),
        (30, 0, 0, None, None),
        (0, 0, 0, Some(7), None),
        (30, 0, 1, Some(7), None),
        (30, 0, 2, Some(7), None),
        (30, 0, 15, Some(0), None),
        (30, 10, 0, Some(9), Some(9)),
        (30, 10, 0, Some(10), None),
        (30, 10, 0, Some(11), None),
        (30, 65_535, 0, Some(65_534), Some(65_534)),
        (30, 65_535, 0, Some(65_535), None),
    ];
    for (period, asked, info, count, want) in rows {
        let found = judged(period, asked, info, count);
        yes(&rt, found == want, "what is judged");
    }
    yes(&rt, silence_of(30) == 169_470, "three times 30 x 1.883 s");
}

/// An entry of a list of broadcasts completed, of a cell in location area 100.
fn entry(ci: u16, info: u8) -> CountEntry {
    CountEntry {
        id: CellId::LacCi { lac: 100, ci },
        number: 7,
        info,
    }
}

#[test]
fn each_cell_has_the_info_of_its_entry(rt: HostRuntime) {
    let network = [0, 0xf1, 0x10];
    let list = [entry(1, 0), entry(2, 1), entry(3, 2), entry(3, 0)];
    for (ci, want) in [(1, 0), (2, 1), (3, 2), (4, 0)] {
        let found = info_of(network, &list, cell(ci));
        yes(&rt, found == want, "the info of a cell");
    }
    let whole = CountEntry {
        id: CellId::Lac { lac: 100 },
        number: 7,
        info: 1,
    };
    let list = [whole];
    yes(&rt, info_of(network, &list, cell(9)) == 1, "a whole area");
    let other = Cell { lac: 101, ci: 9 };
    yes(&rt, info_of(network, &list, other) == 0, "another area");
    yes(&rt, info_of(network, &[], cell(9)) == 0, "no list");
}

/// Since when a message is over that came on air at second 1,000.
#[test]
fn a_message_is_over_by_its_period(rt: HostRuntime) {
    let rows = [
        (0, 1_000_000, None),
        (1, 1000, None),
        (1, 1001, Some(1001)),
        (5, 1004, None),
        (5, 1005, Some(1005)),
        (10, 2000, Some(1010)),
        (11, 2000, Some(1012)),
        (20, 1029, None),
        (20, 2000, Some(1030)),
        (21, 2000, Some(1035)),
        (38, 2000, Some(1120)),
        (39, 2000, None),
        (255, 2000, None),
    ];
    for (code, now, want) in rows {
        yes(
            &rt,
            over_since(code, 1000, now) == want,
            "since when it is over",
        );
    }
    yes(
        &rt,
        over_since(5, 1000, 3).is_none(),
        "a clock that went back",
    );
}

#[test]
fn the_last_time_on_air_counts(rt: HostRuntime) {
    let mut airings = Airings::new(rt.alloc());
    let (one, other) = (version(0x4000), version(0x4010));
    airings.aired(one, 5).expect(&rt, "memory");
    airings.aired(other, 6).expect(&rt, "memory");
    airings.aired(one, 7).expect(&rt, "memory");
    yes(&rt, airings.last(one) == Some(7), "again");
    yes(&rt, airings.last(other) == Some(6), "another version");
    airings.keep(&[one]);
    yes(&rt, airings.last(other).is_none(), "one that has ended");
    yes(&rt, airings.last(one) == Some(7), "one that goes on");
}
