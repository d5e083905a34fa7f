//! Under which heading the page shows a warning, and what it says of the centre, by what the BSCs do.

use crate::checks::{has, yes};
use crate::pictures::picture_of_one;
use crate::values::{TAKEN, bsc, numbers};
use centre_past::lists::{FlightKind, FlightRow};
use coverage_board::Numbers;
use serials::Serial;
use status_figures::{BscFigures, bscs_csv, metrics};
use status_pages::page;
use std::alloc::Global;
use std::process::Abort;

/// What a page of a stuck warning says.
const STUCK: &[u8] =
    b"</p></summary><p class=\"none\">Cells are awaited or left, but no BSC is at work for it. If a BSC refused an order, type retry B. Else a cell or a link is down, or a BSC does not answer.</p>";

/// What a page has to say of a warning, and whether that it is stuck.
#[derive(Clone, Copy)]
struct Wanted {
    word: &'static [u8],
    title: &'static [u8],
    stuck: bool,
}

const IS_STUCK: Wanted = Wanted {
    word: b"<header class=\"bad\"><h1>ATTENTION</h1><p>Somebody has to look:</p><ul class=\"why\"><li><a href=\"#w9\">Warning 9</a> ",
    title: b"<section class=\"bad\"><h2>Warnings to look at <b>1</b></h2>",
    stuck: true,
};

const UNDER_WAY: Wanted = Wanted {
    word: b"<header class=\"busy\"><h1>UNDER WAY</h1><p>No link and no cell is down, and no warning failed in any cell. If this stays, look at what is awaited or left.</p>",
    title: b"<section class=\"busy\"><h2>Warnings under way <b>1</b></h2>",
    stuck: false,
};

const IN_ORDER: Wanted = Wanted {
    word: b"<header class=\"good\"><h1>ALL IN ORDER</h1><p>Every link is up, no cell is down, no warning failed in any cell, and no order is to come.</p>",
    title: b"<section class=\"good\"><h2>Warnings on air <b>1</b></h2>",
    stuck: false,
};

const NO_BSCS: Wanted = Wanted {
    word: b"<header class=\"busy\"><h1>NO BSCS</h1><p>No BSC is registered. The centre knows nothing of what is on air.</p>",
    title: b"<section class=\"off\"><h2>Stopped warnings <b>1</b></h2>",
    stuck: false,
};

/// A warning that is on air, while a BSC is under way, and while somebody has to look at one.
const RESET_IS_OUT: Wanted = Wanted {
    word: b"<header class=\"busy\"><h1>UNDER WAY</h1>",
    title: b"<section class=\"good\"><h2>Warnings on air <b>1</b></h2>",
    stuck: false,
};

const RESET_HANGS: Wanted = Wanted {
    word: b"<header class=\"bad\"><h1>ATTENTION</h1>",
    title: b"<section class=\"good\"><h2>Warnings on air <b>1</b></h2>",
    stuck: false,
};

/// An active warning that reaches nobody.
const UNREACHED: Wanted = Wanted {
    word: b"<header class=\"bad\"><h1>ATTENTION</h1>",
    title: b"<div class=\"col warnings\"><section class=\"bad\"><h2>Warnings that reach no cell <b>1</b></h2><div><article id=\"w9\" class=\"w bad\">",
    stuck: false,
};

const FAILED: Wanted = Wanted {
    word: b"<header class=\"bad\"><h1>ATTENTION</h1>",
    title: b"<section class=\"bad\"><h2>Warnings to look at <b>1</b></h2>",
    stuck: false,
};

/// A stopped warning that is nowhere, where nothing is to do, and where somebody has to look at a BSC.
const QUIET: Wanted = Wanted {
    word: b"<header class=\"good\"><h1>ALL IN ORDER</h1>",
    title: b"<section class=\"off\"><h2>Stopped warnings <b>1</b></h2>",
    stuck: false,
};

const QUIET_WRONG: Wanted = Wanted {
    word: b"<header class=\"bad\"><h1>ATTENTION</h1>",
    title: b"<section class=\"off\"><h2>Stopped warnings <b>1</b></h2>",
    stuck: false,
};

/// The page says that of the warning.
fn says(
    rt: &impl Abort,
    alloc: Global,
    serial: Option<u16>,
    numbers: Numbers,
    bscs: &[BscFigures],
    want: Wanted,
    at: &str,
) {
    let picture = picture_of_one(rt, alloc, serial, numbers, bscs);
    let found = page(alloc, &picture).expect(rt, "memory");
    yes(rt, has(found.as_slice(), want.word), at);
    yes(rt, has(found.as_slice(), want.title), at);
    yes(rt, has(found.as_slice(), STUCK) == want.stuck, at);
}

/// A BSC that is up, to which a KILL has been out for so long, if one is, and for which so many messages are pending.
fn up(rt: &impl Abort, seconds: Option<u64>, pending: usize) -> BscFigures {
    let flight = FlightRow {
        kind: FlightKind::Kill,
        message_id: 4370,
        serial: Serial::from_u16(0x4031),
    };
    let since = seconds.map(|seconds| TAKEN.saturating_sub(seconds));
    bsc(rt, 1, true, since.map(|_| flight), since, pending)
}

/// A BSC whose link is down, for which so many messages are pending.
fn down(rt: &impl Abort, pending: usize) -> BscFigures {
    bsc(rt, 12, false, None, None, pending)
}

/// A stopped warning that is left in one place.
#[test]
fn a_stop_that_was_refused_is_shown_first(rt: HostRuntime) {
    let alloc = rt.alloc();
    let left = numbers(0, 0, 0, 1);
    let bscs = [up(&rt, None, 0)];
    says(&rt, alloc, None, left, &bscs, IS_STUCK, "refused");
    let bscs = [up(&rt, None, 0), down(&rt, 2)];
    says(&rt, alloc, None, left, &bscs, IS_STUCK, "link down");
    let bscs = [up(&rt, Some(30), 1)];
    says(&rt, alloc, None, left, &bscs, IS_STUCK, "no reply");
    let bscs = [up(&rt, Some(29), 1)];
    says(&rt, alloc, None, left, &bscs, UNDER_WAY, "out");
    let bscs = [up(&rt, None, 1)];
    says(&rt, alloc, None, left, &bscs, UNDER_WAY, "pending");
}

/// A warning that is active.
#[test]
fn an_active_warning_stands_by_its_numbers(rt: HostRuntime) {
    let alloc = rt.alloc();
    let serial = Some(0x4031);
    let idle = [up(&rt, None, 0)];
    let busy = [up(&rt, None, 1)];
    let cut = [down(&rt, 1)];
    let on_air = numbers(0, 7, 0, 0);
    says(&rt, alloc, serial, on_air, &idle, IN_ORDER, "on air");
    let awaited = numbers(1, 6, 0, 0);
    says(&rt, alloc, serial, awaited, &busy, UNDER_WAY, "awaited");
    says(&rt, alloc, serial, awaited, &cut, IS_STUCK, "link down");
    let old = numbers(0, 6, 1, 1);
    says(&rt, alloc, serial, old, &busy, FAILED, "failed");
    says(&rt, alloc, serial, old, &idle, IS_STUCK, "failed, left");
}

/// What a page says of a warning that reaches nobody.
const REACHES_NONE: &[u8] =
    b"<p class=\"none\">REACHES NO CELL. Its areas cover no registered cell, so nobody gets it. Look at the areas: area put and widen bring it on air.</p>";

/// An active warning whose areas cover no registered cell stands first; a stopped one is in no cell on purpose.
#[test]
fn a_warning_that_reaches_nobody_is_shown_first(rt: HostRuntime) {
    let alloc = rt.alloc();
    let none = numbers(0, 0, 0, 0);
    let left = numbers(0, 0, 0, 1);
    let bscs = [up(&rt, None, 0)];
    let serial = Some(0x4031);
    says(&rt, alloc, serial, none, &bscs, UNREACHED, "in no cell");
    says(&rt, alloc, None, none, &bscs, QUIET, "stopped");
    let rows = [
        (serial, none, true, 0u8),
        (serial, left, true, 0),
        (serial, numbers(1, 0, 0, 0), false, 1),
        (serial, numbers(0, 1, 0, 0), false, 1),
        (serial, numbers(0, 0, 1, 0), false, 1),
        (None, none, false, 0),
    ];
    for (serial, numbers, is_said, cells) in rows {
        let picture = picture_of_one(&rt, alloc, serial, numbers, &bscs);
        let found = page(alloc, &picture).expect(&rt, "memory");
        yes(
            &rt,
            has(found.as_slice(), REACHES_NONE) == is_said,
            "the note",
        );
        let found = metrics(alloc, &picture).expect(&rt, "memory");
        let line = [
            b"\ncbc_warning_cells{warning=\"9\",message_id=\"4370\"} 0\n",
            b"\ncbc_warning_cells{warning=\"9\",message_id=\"4370\"} 1\n",
        ];
        yes(
            &rt,
            has(found.as_slice(), line[usize::from(cells)]),
            "the metric",
        );
    }
}

/// A BSC over whose link a RESET has been out for so long.
fn in_reset(rt: &impl Abort, seconds: u64) -> BscFigures {
    let mut figures = up(rt, None, 0);
    figures.reset = Some(TAKEN.saturating_sub(seconds));
    figures
}

/// A RESET that isn't answered: the page, the table and the metrics say so.
#[test]
fn a_reset_without_an_answer_is_shown(rt: HostRuntime) {
    let alloc = rt.alloc();
    let serial = Some(0x4031);
    let on_air = numbers(0, 7, 0, 0);
    let bscs = [in_reset(&rt, 29)];
    says(&rt, alloc, serial, on_air, &bscs, RESET_IS_OUT, "a RESET");
    let bscs = [in_reset(&rt, 30)];
    says(&rt, alloc, serial, on_air, &bscs, RESET_HANGS, "no answer");
    let picture = picture_of_one(&rt, alloc, serial, on_air, &bscs);
    let found = page(alloc, &picture).expect(&rt, "memory");
    let link = b"<p class=\"down\">link reset, out for <b>30</b> s</p><p>cells <b>9</b></p>";
    yes(&rt, has(found.as_slice(), link), "the link on the page");
    let found = bscs_csv(alloc, &picture).expect(&rt, "memory");
    let row = b"\n1,9,reset,3,,,,1764309093,0\n";
    yes(&rt, has(found.as_slice(), row), "the BSC in the table");
    let found = metrics(alloc, &picture).expect(&rt, "memory");
    let up = b"cbc_bsc_link_up{bsc=\"1\"} 0\n";
    yes(&rt, has(found.as_slice(), up), "whether the link is up");
    let since = b"cbc_bsc_reset_since_timestamp_seconds{bsc=\"1\"} 1764309093\n";
    yes(&rt, has(found.as_slice(), since), "since when");
}

/// A BSC to which that is in flight for a second, and for which so many messages are pending, that one too if it is an order.
fn busy_with(
    rt: &impl Abort,
    kind: FlightKind,
    id: u16,
    serial: u16,
    pending: usize,
) -> BscFigures {
    let flight = FlightRow {
        kind,
        message_id: id,
        serial: Serial::from_u16(serial),
    };
    bsc(rt, 2, true, Some(flight), Some(TAKEN - 1), pending)
}

/// BSC 1 refused an order for the warning and has nothing to do. BSC 2 has, and only an order that may be of the warning is at work for it.
#[test]
fn a_bsc_is_at_work_for_its_own_warnings(rt: HostRuntime) {
    let alloc = rt.alloc();
    let current = Some(0x4031);
    let left = numbers(0, 0, 0, 1);
    let awaited = numbers(1, 6, 0, 0);
    let rows = [
        (None, left, FlightKind::Write, 4371, 0x4031, 1, IS_STUCK),
        (None, left, FlightKind::Kill, 4370, 0x4031, 1, UNDER_WAY),
        (None, left, FlightKind::Write, 4371, 0x4031, 2, UNDER_WAY),
        (None, left, FlightKind::Query, 4370, 0x4031, 0, IS_STUCK),
        (None, left, FlightKind::Query, 4371, 0x4031, 1, UNDER_WAY),
        (
            current,
            awaited,
            FlightKind::Write,
            4370,
            0x4041,
            1,
            IS_STUCK,
        ),
        (
            current,
            awaited,
            FlightKind::Replace,
            4370,
            0x403F,
            1,
            UNDER_WAY,
        ),
        (
            current,
            awaited,
            FlightKind::Write,
            4370,
            0x4031,
            1,
            UNDER_WAY,
        ),
        (
            current,
            awaited,
            FlightKind::Write,
            4370,
            0x8031,
            1,
            IS_STUCK,
        ),
    ];
    for (serial, numbers, kind, id, out, pending, want) in rows {
        let bscs = [up(&rt, None, 0), busy_with(&rt, kind, id, out, pending)];
        says(&rt, alloc, serial, numbers, &bscs, want, "who is at work");
    }
}

/// A BSC that is up and has 9 cells, of which so many are down.
fn with_down(rt: &impl Abort, count: Option<u64>) -> BscFigures {
    let mut figures = up(rt, None, 0);
    figures.down = count;
    figures
}

/// Nothing is on air anywhere, so no warning can say what is wrong with a BSC.
#[test]
fn a_bsc_with_a_cell_that_is_down_is_not_in_order(rt: HostRuntime) {
    let alloc = rt.alloc();
    let none = numbers(0, 0, 0, 0);
    let rows = [
        (None, QUIET, "not known"),
        (Some(0), QUIET, "no cell"),
        (Some(1), QUIET_WRONG, "one cell"),
        (Some(9), QUIET_WRONG, "all cells"),
        (Some(10), QUIET_WRONG, "one that was taken out since"),
    ];
    for (count, want, at) in rows {
        says(&rt, alloc, None, none, &[with_down(&rt, count)], want, at);
    }
    let mut empty = with_down(&rt, Some(0));
    empty.row.cells = 0;
    says(
        &rt,
        alloc,
        None,
        none,
        &[empty],
        QUIET,
        "a BSC without cells",
    );
    says(
        &rt,
        alloc,
        None,
        none,
        &[down(&rt, 0)],
        QUIET_WRONG,
        "a link that is down",
    );
}

#[test]
fn cells_that_are_down_are_shown(rt: HostRuntime) {
    let alloc = rt.alloc();
    let none = numbers(0, 0, 0, 0);
    let picture = picture_of_one(&rt, alloc, None, none, &[with_down(&rt, Some(9))]);
    let found = page(alloc, &picture).expect(&rt, "memory");
    let bsc =
        b"<h2>BSCs to look at <b>1</b></h2><div><article id=\"b1\" class=\"b bad\"><h3>BSC 1</h3><p class=\"up\">link up</p><p>cells <b>9</b></p><p class=\"down\">cells down <b>9</b></p><p>pending <b>0</b></p></article>";
    yes(&rt, has(found.as_slice(), bsc), "the BSC on the page");
    let found = metrics(alloc, &picture).expect(&rt, "memory");
    let down = b"cbc_bsc_down_cells{bsc=\"1\"} 9\n";
    yes(&rt, has(found.as_slice(), down), "the metric");
    let picture = picture_of_one(&rt, alloc, None, none, &[with_down(&rt, Some(0))]);
    let found = page(alloc, &picture).expect(&rt, "memory");
    let cells = b"<p>cells <b>9</b></p><p>pending <b>0</b></p>";
    yes(&rt, has(found.as_slice(), cells), "no cell is down");
}

#[test]
fn a_centre_without_bscs_is_not_in_order(rt: HostRuntime) {
    let alloc = rt.alloc();
    let none = numbers(0, 0, 0, 0);
    says(&rt, alloc, None, none, &[], NO_BSCS, "a stopped warning");
}
