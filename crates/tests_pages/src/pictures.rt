//! Pictures of centres.

use crate::values::{TAKEN, areas, bsc, bscs, emergency, numbers, pages, row, status, tallies};
use centre_past::lists::{FlightKind, FlightRow, WarningSheet};
use coverage_board::Numbers;
use serials::Serial;
use status_figures::{BscFigures, BscList, Picture, Tallies, WarningFigures, WarningList};
use std::alloc::Global;
use std::process::Abort;
use warning_book::Kind;

/// Warning 3, of which cells failed in one of its two areas. Its text is `Warnings!` (TS 23.038, 6.1.2.1).
fn failed_warning(rt: &impl Abort, alloc: Global) -> WarningFigures {
    let text = [0xD7, 0xB0, 0xDC, 0x9D, 0x76, 0x9F, 0xE7, 0x21];
    let row = row(
        alloc,
        3,
        4370,
        Some(0x4031),
        Kind::Cbs,
        numbers(4, 12, 2, 1),
    );
    let content = Some(pages(rt, alloc, 0x0F, &text));
    let boards: [(&[u8], _); 2] = [(b"Coast", numbers(4, 8, 2, 0)), (b"-", numbers(0, 4, 0, 0))];
    WarningFigures {
        sheet: WarningSheet { row, content },
        areas: areas(rt, alloc, &boards),
        silent: 0,
        over: None,
    }
}

/// Warning 8, an emergency warning of an earthquake and a tsunami that was stopped.
fn stopped_warning(rt: &impl Abort, alloc: Global) -> WarningFigures {
    let row = row(alloc, 8, 4352, None, Kind::Emergency, numbers(0, 0, 0, 0));
    let content = Some(emergency(0x0580));
    WarningFigures {
        sheet: WarningSheet { row, content },
        areas: areas(rt, alloc, &[]),
        silent: 0,
        over: None,
    }
}

/// Warning 9, which is on air in all its cells, and whose area has that name. Its page has these octets of UCS2.
fn good_warning(rt: &impl Abort, alloc: Global, area: &[u8], text: &[u8]) -> WarningFigures {
    let row = row(alloc, 9, 50, Some(0xC0A0), Kind::Cbs, numbers(0, 7, 0, 0));
    let content = Some(pages(rt, alloc, 0x48, text));
    WarningFigures {
        sheet: WarningSheet { row, content },
        areas: areas(rt, alloc, &[(area, numbers(0, 7, 0, 0))]),
        silent: 0,
        over: None,
    }
}

/// BSC 1 with an order out for seven seconds, and BSC 12 without a link.
fn two_bscs(rt: &impl Abort, alloc: Global) -> BscList {
    let flight = FlightRow {
        kind: FlightKind::Replace,
        message_id: 4370,
        serial: Serial::from_u16(0x4031),
    };
    let mut down = bsc(rt, 12, false, None, None, 0);
    down.ended = Some(TAKEN - 75);
    let all = [bsc(rt, 1, true, Some(flight), Some(TAKEN - 7), 2), down];
    bscs(rt, alloc, &all)
}

fn picture_of(
    rt: &impl Abort,
    alloc: Global,
    warnings: Vec<WarningFigures>,
    bscs: BscList,
    refusals: Tallies,
) -> Picture {
    Picture {
        taken: TAKEN,
        begun: TAKEN - 90_000,
        status: status(false, 100_000),
        bscs,
        warnings: WarningList::from_vec(warnings),
        kept: Some(1230),
        receipts: 5,
        refusals,
        entries: tallies(rt, alloc, &[("issue", 3), ("report", 17)]),
        memory: Some(12_345_678),
    }
}

/// A centre of two warnings and two BSCs, where some things are wrong.
pub(crate) fn full_picture(rt: &impl Abort, alloc: Global) -> Picture {
    let mut warnings = Vec::new(alloc);
    let failed = failed_warning(rt, alloc);
    warnings.push(failed).expect(rt, "memory");
    let stopped = stopped_warning(rt, alloc);
    warnings.push(stopped).expect(rt, "memory");
    let refusals = tallies(rt, alloc, &[("no-such-bsc", 2)]);
    picture_of(rt, alloc, warnings, two_bscs(rt, alloc), refusals)
}

/// A centre of one warning, whose area and whose text are hostile, as is the name of a refusal.
pub(crate) fn picture_with(
    rt: &impl Abort,
    alloc: Global,
    area: &[u8],
    text: &[u8],
    refusal: &str,
) -> Picture {
    let mut warnings = Vec::new(alloc);
    let good = good_warning(rt, alloc, area, text);
    warnings.push(good).expect(rt, "memory");
    let refusals = tallies(rt, alloc, &[(refusal, 1)]);
    picture_of(rt, alloc, warnings, bscs(rt, alloc, &[]), refusals)
}

/// A warning of that number, message identifier and kind with these numbers, which is active or stopped, and has no content.
pub(crate) fn bare_warning(
    rt: &impl Abort,
    alloc: Global,
    named: (u32, u16, Kind),
    serial: Option<u16>,
    numbers: Numbers,
) -> WarningFigures {
    let (number, message_id, kind) = named;
    let row = row(alloc, number, message_id, serial, kind, numbers);
    WarningFigures {
        sheet: WarningSheet { row, content: None },
        areas: areas(rt, alloc, &[]),
        silent: 0,
        over: None,
    }
}

/// Warning 9, a text with these numbers, which is active or stopped.
fn one_warning(
    rt: &impl Abort,
    alloc: Global,
    serial: Option<u16>,
    numbers: Numbers,
) -> WarningFigures {
    bare_warning(rt, alloc, (9, 4370, Kind::Cbs), serial, numbers)
}

/// A centre of these warnings and of these BSCs.
pub(crate) fn picture_of_all(
    rt: &impl Abort,
    alloc: Global,
    warnings: Vec<WarningFigures>,
    all: &[BscFigures],
) -> Picture {
    let bscs = bscs(rt, alloc, all);
    picture_of(rt, alloc, warnings, bscs, tallies(rt, alloc, &[]))
}

/// A centre of one warning and of these BSCs.
fn picture_with_one(
    rt: &impl Abort,
    alloc: Global,
    warning: WarningFigures,
    all: &[BscFigures],
) -> Picture {
    let mut warnings = Vec::new(alloc);
    warnings.push(warning).expect(rt, "memory");
    picture_of_all(rt, alloc, warnings, all)
}

/// A centre of one warning with these numbers, which is active or stopped, and of these BSCs.
pub(crate) fn picture_of_one(
    rt: &impl Abort,
    alloc: Global,
    serial: Option<u16>,
    numbers: Numbers,
    all: &[BscFigures],
) -> Picture {
    let warning = one_warning(rt, alloc, serial, numbers);
    picture_with_one(rt, alloc, warning, all)
}

/// A centre of one warning that is on air in seven cells, in so many of them silent, and over since then.
pub(crate) fn picture_of_silent(
    rt: &impl Abort,
    alloc: Global,
    silent: u64,
    over: Option<u64>,
    all: &[BscFigures],
) -> Picture {
    let mut warning = one_warning(rt, alloc, Some(0x4031), numbers(0, 7, 0, 0));
    warning.silent = silent;
    warning.over = over;
    picture_with_one(rt, alloc, warning, all)
}

/// A centre that is stale, or whose journal may have so many entries since the last fold, of which there are 234. It keeps no file.
pub(crate) fn bare_picture(rt: &impl Abort, alloc: Global, is_stale: bool, limit: u32) -> Picture {
    Picture {
        taken: TAKEN,
        begun: TAKEN - 90_000,
        status: status(is_stale, limit),
        bscs: bscs(rt, alloc, &[]),
        warnings: WarningList::from_vec(Vec::new(alloc)),
        kept: None,
        receipts: 0,
        refusals: tallies(rt, alloc, &[]),
        entries: tallies(rt, alloc, &[]),
        memory: None,
    }
}
