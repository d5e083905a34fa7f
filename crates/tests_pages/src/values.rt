//! What pictures are made of.

use cell_register::BscId;
use centre_past::lists::{BscRow, CentreStatus, FlightRow, PlanCounts, WarningRow};
use common::{Name, Names, Octets};
use coverage_board::Numbers;
use serials::Serial;
use status_figures::{AreaBoard, AreaBoards, BscFigures, BscList, Tallies, Tally};
use std::alloc::Global;
use std::process::Abort;
use warning_book::{
    Category, CbsContent, Content, ContentPages, EmergencyContent, Kind, WarningId,
};

/// When the pictures are taken: 2025-11-28, 05:52:03 UTC.
pub(crate) const TAKEN: u64 = 1_764_309_123;

pub(crate) fn name(rt: &impl Abort, alloc: Global, octets: &[u8]) -> Name {
    Name::from_vec(Vec::from_slice(alloc, octets).expect(rt, "memory"))
}

/// How a centre stands that has 234 entries since the last fold.
pub(crate) fn status(is_stale: bool, limit: u32) -> CentreStatus {
    let counts = PlanCounts {
        bscs: 2,
        links_up: 1,
        cells: 16,
        areas: 3,
        warnings: 21,
        active: 20,
    };
    CentreStatus {
        entries: 1234,
        folded: 1000,
        limit,
        is_stale,
        counts: if is_stale { None } else { Some(counts) },
    }
}

pub(crate) fn numbers(awaited: u64, on_air: u64, failed: u64, left: u64) -> Numbers {
    Numbers {
        awaited,
        on_air,
        failed,
        left,
        broadcasts: on_air.saturating_mul(5),
    }
}

/// A warning's areas, each with its numbers.
pub(crate) fn areas(rt: &impl Abort, alloc: Global, all: &[(&[u8], Numbers)]) -> AreaBoards {
    let mut boards = Vec::new(alloc);
    for (octets, numbers) in all {
        let board = AreaBoard {
            name: name(rt, alloc, octets),
            numbers: *numbers,
        };
        boards.push(board).expect(rt, "memory");
    }
    AreaBoards::from_vec(boards)
}

pub(crate) fn row(
    alloc: Global,
    number: u32,
    message_id: u16,
    serial: Option<u16>,
    kind: Kind,
    numbers: Numbers,
) -> WarningRow {
    WarningRow {
        number: WarningId::new(number),
        message_id,
        serial: serial.map(Serial::from_u16),
        is_active: serial.is_some(),
        kind,
        areas: Names::from_vec(Vec::new(alloc)),
        numbers,
    }
}

/// A content of one page, which has these octets.
pub(crate) fn pages(rt: &impl Abort, alloc: Global, dcs: u8, octets: &[u8]) -> Content {
    let page = Octets::from_vec(Vec::from_slice(alloc, octets).expect(rt, "memory"));
    let mut pages = Vec::new(alloc);
    pages.push(page).expect(rt, "memory");
    Content::Cbs(CbsContent {
        dcs,
        category: Category::HighPriority,
        period: 10,
        pages: ContentPages::from_vec(pages),
    })
}

/// An emergency warning of that type.
pub(crate) fn emergency(warning_type: u16) -> Content {
    Content::Emergency(EmergencyContent {
        indicator: 1,
        warning_type,
        warning_period: 0,
        security: [0; 50],
    })
}

/// A BSC with its cells, to which that is in flight since then, and for which so many orders are pending.
pub(crate) fn bsc(
    rt: &impl Abort,
    number: u16,
    is_up: bool,
    flight: Option<FlightRow>,
    since: Option<u64>,
    pending: usize,
) -> BscFigures {
    let row = BscRow {
        bsc: BscId::new(number).expect(rt, "the number is a BSC's"),
        cells: 9,
        is_up,
        last: 3,
        flight,
        pending,
    };
    BscFigures {
        row,
        since,
        reset: None,
        ended: None,
        down: None,
    }
}

pub(crate) fn bscs(rt: &impl Abort, alloc: Global, all: &[BscFigures]) -> BscList {
    BscList::from_vec(Vec::from_slice(alloc, all).expect(rt, "memory"))
}

pub(crate) fn tallies(rt: &impl Abort, alloc: Global, all: &[(&str, u64)]) -> Tallies {
    let mut rows = Vec::new(alloc);
    for (word, count) in all {
        let tally = Tally {
            name: name(rt, alloc, word.as_bytes()),
            count: *count,
        };
        rows.push(tally).expect(rt, "memory");
    }
    Tallies::from_vec(rows)
}
