//! What no clause says of the lines of reports: that each call can succeed, and one report, worked by hand.

use crate::values::{bsc, same, yes};
use cbsp_ie::{Cause, CellId};
use cell_register::{BscId, Register};
use common::Cell;
use mirror::{KeyState, Line, LineKey, LineTable, Presence};
use serials::Serial;
use std::alloc::Global;
use std::process::Abort;
use warning_book::{Kind, WarningId};

const NETWORK: [u8; 3] = [0x00, 0xf1, 0x10];

const REGISTERED: Cell = Cell { lac: 100, ci: 7 };

const MOVED: Cell = Cell { lac: 100, ci: 9 };

const DOWN: Cell = Cell { lac: 200, ci: 1 };

/// The line of the first warning in a cell of the BSC.
fn key(b: BscId, cell: Cell) -> LineKey {
    LineKey {
        bsc: b,
        cell,
        warning: WarningId::new(1),
    }
}

/// A line whose first version is on air.
fn on_air() -> Line {
    let state = KeyState {
        presence: Presence::OnAir,
        hold: None,
        count: 0,
    };
    Line::blank().with_state(Serial::from_u16(0xc000), state)
}

/// BSC 1 with one cell, and BSC 2 without cells.
fn registered(rt: &impl Abort, alloc: Global) -> Register {
    let mut register = Register::new(alloc);
    register.add_bsc(bsc(rt, 1)).expect(rt, "BSC 1 is added");
    register.add_bsc(bsc(rt, 2)).expect(rt, "BSC 2 is added");
    register
        .add_cell(REGISTERED, bsc(rt, 1))
        .expect(rt, "the cell is added");
    register
}

/// A line in a cell that is not registered, and a cell that is down for emergency warnings, both at BSC 1.
fn reported(rt: &impl Abort, alloc: Global) -> LineTable {
    let mut table = LineTable::new(alloc);
    sets_line(rt, &mut table, key(bsc(rt, 1), MOVED), on_air());
    sets_down(rt, &mut table, bsc(rt, 1), true);
    table
}

fn sets_line(rt: &impl Abort, table: &mut LineTable, key: LineKey, line: Line) {
    table.set_line(key, line).expect(rt, "memory");
}

fn sets_down(rt: &impl Abort, table: &mut LineTable, b: BscId, is_down: bool) {
    table
        .set_down(Kind::Emergency, b, DOWN, is_down)
        .expect(rt, "memory");
}

fn names(
    rt: &impl Abort,
    table: &LineTable,
    register: &Register,
    b: BscId,
    ids: &[CellId],
    want: &[Cell],
) {
    let cells = table.cells_named(register, NETWORK, b, ids);
    let cells = cells.expect(rt, "memory");
    yes(rt, cells.as_slice() == want, "the cells that are named");
}

/// Compares the cells after the given one in which that version of the first warning is on air at BSC 1.
fn finds(
    rt: &impl Abort,
    table: &mut LineTable,
    serial: u16,
    after: Option<Cell>,
    most: usize,
    want: &[Cell],
) {
    let version = Serial::from_u16(serial);
    let cells = table
        .cells_on_air(bsc(rt, 1), WarningId::new(1), version, after, most)
        .expect(rt, "the cells are found");
    yes(rt, cells.as_slice() == want, "the cells on air");
}

/// The first version is on air in two cells, page by page, and the second in none.
fn finds_pages(rt: &impl Abort, table: &mut LineTable) {
    finds(rt, table, 0xc000, None, 1, &[MOVED]);
    finds(rt, table, 0xc000, Some(MOVED), 9, &[DOWN]);
    finds(rt, table, 0xc000, Some(DOWN), 9, &[]);
    finds(rt, table, 0xc001, None, 9, &[]);
    finds(rt, table, 0xc000, None, 0, &[]);
    yes(rt, table.meter() == 7, "the lines that were read");
}

#[test]
fn cells_on_air_are_found_page_by_page(rt: HostRuntime) {
    let b = bsc(&rt, 1);
    let mut table = reported(&rt, rt.alloc());
    sets_line(&rt, &mut table, key(b, DOWN), on_air());
    let mut other = key(b, REGISTERED);
    other.warning = WarningId::new(2);
    sets_line(&rt, &mut table, other, on_air());
    finds_pages(&rt, &mut table);
}

/// At BSC 1 all three cells are known, and at BSC 2 none.
fn names_known(rt: &impl Abort, table: &LineTable, register: &Register, b: BscId) {
    let every = [REGISTERED, MOVED, DOWN];
    let known = table.known_cells(register, b).expect(rt, "memory");
    yes(rt, known.as_slice() == &every[..], "the cells known");
    let in_area = [CellId::Lac { lac: 100 }];
    names(rt, table, register, b, &in_area, &[REGISTERED, MOVED]);
    names(rt, table, register, b, &[CellId::All], &every);
    names(rt, table, register, bsc(rt, 2), &[CellId::All], &[]);
    names(rt, table, register, b, &[], &[]);
}

#[test]
fn a_report_names_the_known_cells(rt: HostRuntime) {
    let register = registered(&rt, rt.alloc());
    let table = reported(&rt, rt.alloc());
    names_known(&rt, &table, &register, bsc(&rt, 1));
    table.tell_soundness();
    table.tell_line_count();
}

/// The table has a line and a cell that is down for emergency warnings at BSC 1.
fn are_reported(rt: &impl Abort, table: &mut LineTable, b: BscId) {
    let line = table.read_line(key(b, MOVED));
    yes(rt, line == on_air(), "a line that was set");
    let other = table.read_line(key(b, REGISTERED));
    yes(rt, other.is_blank(), "a line that was not");
    let kind = Kind::Emergency;
    yes(rt, table.is_down(kind, b, DOWN), "the cell that is down");
    yes(rt, !table.is_down(Kind::Cbs, b, DOWN), "for CBS warnings");
    yes(
        rt,
        !table.is_down(kind, bsc(rt, 2), DOWN),
        "another BSC's cell",
    );
}

/// The line is blank again, and the cell is up.
fn are_forgotten(rt: &impl Abort, table: &mut LineTable, register: &Register, b: BscId) {
    sets_line(rt, table, key(b, MOVED), Line::blank());
    sets_down(rt, table, b, false);
    names(rt, table, register, b, &[CellId::All], &[REGISTERED]);
    yes(rt, table.meter() == 4, "the lines that were read or set");
}

#[test]
fn a_blank_line_and_a_cell_that_is_up_are_not_known(rt: HostRuntime) {
    let b = bsc(&rt, 1);
    let register = registered(&rt, rt.alloc());
    let mut table = reported(&rt, rt.alloc());
    are_reported(&rt, &mut table, b);
    are_forgotten(&rt, &mut table, &register, b);
}

#[test]
fn a_held_key_is_not_blank(rt: HostRuntime) {
    let serial = Serial::from_u16(0xc00f);
    let mut state = KeyState::blank();
    state.hold = Some(Cause::UNSPECIFIED_ERROR);
    let line = Line::blank().with_state(serial, state);
    yes(&rt, !line.is_blank(), "a line with a hold");
    let blank = line.with_state(serial, KeyState::blank());
    yes(&rt, blank.is_blank(), "the line without it");
    same(&rt, &line.state(serial), &state, "the hold");
}

/// A line whose first version is held.
fn held() -> Line {
    let mut state = KeyState::blank();
    state.hold = Some(Cause::UNSPECIFIED_ERROR);
    Line::blank().with_state(Serial::from_u16(0xc000), state)
}

/// The line of warning 7 in the cell at the BSC.
fn seventh(bsc: BscId, cell: Cell) -> LineKey {
    LineKey {
        bsc,
        cell,
        warning: WarningId::new(7),
    }
}

/// Compares the warnings whose line in the cell at BSC 1 is held.
fn holds(rt: &impl Abort, table: &mut LineTable, cell: Cell, want: &[u32]) {
    let found = table.held_at(bsc(rt, 1), cell).expect(rt, "memory");
    yes(rt, found.len() == want.len(), "how many are held");
    for (warning, number) in found.iter().zip(want) {
        yes(rt, warning.number() == *number, "a line that is held");
    }
}

/// Lines come to be held in two cells, and are so no more in one of them.
fn come_to_be_held(rt: &impl Abort, table: &mut LineTable, b: BscId) {
    holds(rt, table, MOVED, &[]);
    sets_line(rt, table, key(b, MOVED), held());
    sets_line(rt, table, key(b, DOWN), held());
    sets_line(rt, table, seventh(b, MOVED), held());
    holds(rt, table, MOVED, &[1, 7]);
    sets_line(rt, table, key(b, MOVED), on_air());
    holds(rt, table, MOVED, &[7]);
    sets_line(rt, table, seventh(b, MOVED), Line::blank());
    holds(rt, table, MOVED, &[]);
    holds(rt, table, DOWN, &[1]);
    holds(rt, table, REGISTERED, &[]);
}

#[test]
fn held_lines_are_found_by_their_cell(rt: HostRuntime) {
    let mut table = reported(&rt, rt.alloc());
    come_to_be_held(&rt, &mut table, bsc(&rt, 1));
}

/// Each call counts the lines of which it tells that something is kept, and no other.
fn tells_and_counts(rt: &impl Abort, table: &mut LineTable, b: BscId) {
    let told = table.warnings_at(b, MOVED).expect(rt, "memory");
    yes(rt, told.len() == 2, "the warnings of a cell");
    yes(rt, table.meter() == 5, "the two lines of a cell");
    holds(rt, table, MOVED, &[7]);
    yes(rt, table.meter() == 6, "the line that is held");
    let places = table.places_of(WarningId::new(1)).expect(rt, "memory");
    yes(rt, places.len() == 2, "the places of a warning");
    yes(rt, table.meter() == 8, "the two lines of a warning");
    let none = table.warnings_at(b, REGISTERED).expect(rt, "memory");
    yes(rt, none.is_empty(), "a cell without lines");
    yes(rt, table.meter() == 8, "no line");
}

/// Three lines are set, two of them in one cell and two of one warning.
#[test]
fn lines_that_are_told_of_are_counted(rt: HostRuntime) {
    let b = bsc(&rt, 1);
    let mut table = reported(&rt, rt.alloc());
    sets_line(&rt, &mut table, seventh(b, MOVED), held());
    sets_line(&rt, &mut table, key(b, DOWN), on_air());
    tells_and_counts(&rt, &mut table, b);
}

/// A copy; where memory runs out once, the table is as it was. It has a line, one that is held, and a cell that is down.
/// Both lines are counted, in the table and in the copy.
fn copied(rt: &impl Abort, table: &mut LineTable, b: BscId) -> LineTable {
    let mut before = table.meter();
    let copy = match table.copied() {
        Ok(copy) => copy,
        Err(_) => {
            are_reported(rt, table, b);
            before = table.meter();
            table.copied().expect(rt, "memory")
        }
    };
    yes(rt, table.meter().saturating_sub(before) == 2, "both lines");
    yes(rt, copy.meter() == table.meter(), "the meter of the copy");
    copy
}

/// The lines are blank again, and the cell is up.
fn are_taken_out(rt: &impl Abort, table: &mut LineTable, b: BscId) {
    sets_line(rt, table, key(b, MOVED), Line::blank());
    sets_line(rt, table, seventh(b, MOVED), Line::blank());
    sets_down(rt, table, b, false);
    holds(rt, table, MOVED, &[]);
}

/// The copy has all of that.
fn is_whole(rt: &impl Abort, copy: &mut LineTable, register: &Register, b: BscId) {
    are_reported(rt, copy, b);
    holds(rt, copy, MOVED, &[7]);
    names_known(rt, copy, register, b);
}

#[test]
fn a_copy_of_the_lines_stands_alone(rt: HostRuntime) {
    let b = bsc(&rt, 1);
    let register = registered(&rt, rt.alloc());
    let mut table = reported(&rt, rt.alloc());
    sets_line(&rt, &mut table, seventh(b, MOVED), held());
    let mut copy = copied(&rt, &mut table, b);
    are_taken_out(&rt, &mut table, b);
    is_whole(&rt, &mut copy, &register, b);
    are_taken_out(&rt, &mut copy, b);
}

/// A version is on air in a cell that is registered nowhere. Where it is looked for the lines of its warning are read.
#[test]
fn a_version_on_air_is_found_anywhere(rt: HostRuntime) {
    let mut table = reported(&rt, rt.alloc());
    let first = Serial::from_u16(0xc000);
    let found = table.is_present_anywhere(WarningId::new(1), first);
    yes(&rt, found, "the first version");
    let next = table.is_present_anywhere(WarningId::new(1), first.next());
    yes(&rt, !next, "the next version");
    let other = table.is_present_anywhere(WarningId::new(7), first);
    yes(&rt, !other, "another warning");
    yes(&rt, table.meter() == 3, "a line set and two read");
}

#[test]
fn a_state_is_read_as_it_was_set(rt: HostRuntime) {
    let serial = Serial::from_u16(0xc00f);
    let state = KeyState {
        presence: Presence::Unknown,
        hold: Some(Cause(255)),
        count: 65535,
    };
    let mut line = Line::blank();
    line.set_state(serial, state);
    line.tell_counts();
    same(&rt, &line.state(serial), &state, "the state that was set");
    let other = line.state(Serial::from_u16(0xc000));
    same(&rt, &other, &KeyState::blank(), "another");
    let again = Line::blank().with_state(serial, state);
    yes(&rt, line == again, "the line at once");
    let third = Line::of_each(state).state(Serial::from_u16(0xc003));
    same(&rt, &third, &state, "a state of each");
}
