//! How many accesses to lines and entries an event takes in a centre of 1,001 cells: by the lines on which it bears, and
//! not by those that are there.

use crate::checks::{same, yes};
use crate::steps::{COAST, Change, NETWORK, Step, first_id, takes};
use areas::Selector;
use centre_core::centre::Centre;
use common::Cell;
use std::alloc::Global;
use std::process::Abort;

/// The location area of all the cells.
const LAC: u16 = 200;

/// The cell that restarts.
const FIFTH: Cell = Cell { lac: LAC, ci: 5 };

/// The body of a WRITE-REPLACE COMPLETE of the first version.
const COMPLETE: &[u8] = &[0x0e, 0x11, 0x12, 0x03, 0xc0, 0x00];

/// The body of a RESTART of the fifth cell, which has lost its messages.
const RESTART: &[u8] = &[
    0x04, 0x00, 0x05, 0x01, 0x00, 0xc8, 0x00, 0x05, 0x16, 0x00, 0x0d, 0x01,
];

/// The area, the warning in it and the link, which is the entry 1006; then an order for 1,000 cells and one for the last,
/// both carried out.
const ON_AIR: [Step; 8] = [
    Step::Plan(Change::AddArea(COAST)),
    Step::Plan(Change::Put(COAST, Selector::Lac(LAC))),
    Step::Plan(Change::Issue),
    Step::LinkUp,
    Step::Send(1006),
    Step::Report(1006, 0x02, COMPLETE),
    Step::Send(1006),
    Step::Report(1006, 0x02, COMPLETE),
];

/// What comes then; how many accesses to lines it takes at most, four for each line on which it bears; and in how many
/// cells the warning is awaited and on air after it. To add a BSC and to send bear on no line, the restart on that of the
/// cell, and to put a cell into the area on that of the cell too. No event reads an entry.
const THEN: [(Step, u64, [u64; 2]); 4] = [
    (Step::Plan(Change::AddBsc(2)), 0, [0, 1001]),
    (Step::Report(1006, 0x13, RESTART), 4, [1, 1000]),
    (Step::Send(1006), 0, [1, 1000]),
    (
        Step::Plan(Change::Put(COAST, Selector::Cell(FIFTH))),
        4,
        [1, 1000],
    ),
];

/// A centre with a warning on air in 1,001 cells of one BSC.
fn on_air(rt: &impl Abort, alloc: Global) -> Centre {
    let mut centre = Centre::new(alloc, NETWORK, 2000);
    takes(rt, alloc, &mut centre, Step::Plan(Change::AddBsc(1)));
    for ci in 1..=1001u16 {
        let cell = Cell { lac: LAC, ci };
        takes(rt, alloc, &mut centre, Step::Plan(Change::AddCell(cell, 1)));
    }
    for step in ON_AIR {
        takes(rt, alloc, &mut centre, step);
    }
    centre
}

/// In how many cells the first warning is awaited and on air, with none where it has failed or is left.
fn has_board(rt: &impl Abort, centre: &Centre, want: [u64; 2]) {
    let numbers = centre.board_total(first_id()).expect(rt, "the board");
    same(rt, [numbers.awaited, numbers.on_air], want, "the board");
    same(rt, [numbers.failed, numbers.left], [0, 0], "the rest of it");
}

/// The step takes so many accesses to lines at most, and none to entries.
fn costs(rt: &impl Abort, alloc: Global, centre: &mut Centre, step: Step, most: u64) {
    let before = centre.meter();
    takes(rt, alloc, centre, step);
    let after = centre.meter();
    let lines = after.lines.saturating_sub(before.lines);
    yes(rt, lines <= most, "the lines that are read or set");
    same(
        rt,
        after.entries,
        before.entries,
        "the entries that are read",
    );
}

#[test]
fn an_event_costs_by_the_lines_on_which_it_bears(rt: HostRuntime) {
    let alloc = rt.alloc();
    let mut centre = on_air(&rt, alloc);
    same(&rt, centre.position(), 1010, "the entries");
    has_board(&rt, &centre, [0, 1001]);
    for (step, most, board) in THEN {
        costs(&rt, alloc, &mut centre, step, most);
        has_board(&rt, &centre, board);
    }
    drop(centre);
}
