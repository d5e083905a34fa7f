//! What no clause says: that each call can succeed, and worked values from the rules.

use crate::values::{name, same, yes};
use areas::{Area, Areas, Limit, Refusal, Selector, Selectors};
use common::{Cell, Name};
use std::alloc::Global;
use std::process::Abort;

const CELL: Cell = Cell { lac: 100, ci: 7 };

const NEXT: Cell = Cell { lac: 100, ci: 8 };

const FAR: Cell = Cell { lac: 101, ci: 7 };

fn made(rt: &impl Abort, found: Result<(), Refusal>, at: &str) {
    same(rt, &found, &Ok(()), at);
}

/// Areas with these names, which are added in this order.
fn named(rt: &impl Abort, alloc: Global, names: &[&[u8]]) -> Areas {
    let mut areas = Areas::new(alloc);
    for octets in names {
        adds(rt, alloc, &mut areas, octets);
    }
    areas
}

/// The names of the areas that cover the cell, with a space behind each.
fn has_areas(rt: &impl Abort, alloc: Global, areas: &Areas, cell: Cell, want: &[u8]) {
    let found = areas.areas_of(cell).expect(rt, "memory");
    let mut text = Vec::new(alloc);
    for name in found.as_slice() {
        text.extend_from_slice(name.as_slice()).expect(rt, "memory");
        text.push(b' ').expect(rt, "memory");
    }
    yes(rt, text.as_slice() == want, "the areas of a cell");
}

/// The area has the one cell, which is cut out again. Then it is dropped, and could be added again.
fn is_taken_away(rt: &impl Abort, areas: &mut Areas, area: &Name) {
    let cell = Selector::Cell(CELL);
    yes(rt, areas.selectors_of(area) == &[cell][..], "its selectors");
    made(rt, areas.check_put(area, Selector::Lac(100)), "a put");
    made(rt, areas.check_cut(area, cell), "a cut");
    made(rt, areas.cut(area, cell), "it is cut");
    made(rt, areas.check_drop_area(area), "a drop");
    made(rt, areas.drop_area(area), "it is dropped");
    made(rt, areas.check_add_area(area), "an addition");
}

#[test]
fn every_call_answers(rt: HostRuntime) {
    let alloc = rt.alloc();
    let coast = name(&rt, alloc, b"Coast");
    let mut areas = named(&rt, alloc, &[b"Coast"]);
    made(&rt, areas.put(&coast, Selector::Cell(CELL)), "a put");
    is_taken_away(&rt, &mut areas, &coast);
    areas.tell_soundness();
}

/// A copy; where memory runs out once, the areas are as they were.
fn copied(rt: &impl Abort, alloc: Global, areas: &Areas) -> Areas {
    match areas.copied() {
        Ok(copy) => copy,
        Err(_) => {
            has_areas(rt, alloc, areas, CELL, b"Coast ");
            areas.copied().expect(rt, "memory")
        }
    }
}

#[test]
fn a_copy_of_the_areas_stands_alone(rt: HostRuntime) {
    let alloc = rt.alloc();
    let coast = name(&rt, alloc, b"Coast");
    let mut areas = named(&rt, alloc, &[b"Hills", b"Coast"]);
    made(&rt, areas.put(&coast, Selector::Cell(CELL)), "a put");
    let mut copy = copied(&rt, alloc, &areas);
    is_taken_away(&rt, &mut areas, &coast);
    has_areas(&rt, alloc, &copy, CELL, b"Coast ");
    put_all(&rt, alloc, &mut copy, &[b"Hills"]);
    has_areas(&rt, alloc, &copy, NEXT, b"Hills ");
    has_areas(&rt, alloc, &areas, NEXT, b"");
}

#[test]
fn selectors_are_copied(rt: HostRuntime) {
    let alloc = rt.alloc();
    let all = Vec::from_slice(alloc, &[Selector::Lac(100)]);
    let selectors = Selectors::from_vec(all.expect(&rt, "memory"));
    let copy = selectors.clone().expect(&rt, "memory");
    yes(&rt, copy == selectors, "the copy");
    let area = Area {
        name: name(&rt, alloc, b"Coast"),
        selectors,
    };
    same(&rt, &area.selectors.into_vec().len(), &1, "the selectors");
}

/// Location area 100 is put into these areas.
fn put_all(rt: &impl Abort, alloc: Global, areas: &mut Areas, all: &[&[u8]]) {
    for octets in all {
        let area = name(rt, alloc, octets);
        made(rt, areas.put(&area, Selector::Lac(100)), "a put");
    }
}

#[test]
fn the_areas_of_a_cell_are_in_order_of_octets(rt: HostRuntime) {
    let alloc = rt.alloc();
    let all: [&[u8]; 6] = [b"b", b"a-1", b"B", b"a", b"9", b"other"];
    let mut areas = named(&rt, alloc, &all);
    put_all(&rt, alloc, &mut areas, &[b"9", b"a", b"B", b"a-1", b"b"]);
    has_areas(&rt, alloc, &areas, CELL, b"9 B a a-1 b ");
    has_areas(&rt, alloc, &areas, FAR, b"");
}

/// What is done to an area.
#[derive(Clone, Copy)]
enum Doing {
    Put(Selector),
    Cut(Selector),
    Add,
    Drop,
}

fn done(areas: &mut Areas, area: &Name, doing: Doing) -> Result<(), Refusal> {
    match doing {
        Doing::Put(selector) => areas.put(area, selector),
        Doing::Cut(selector) => areas.cut(area, selector),
        Doing::Add => areas.add_area(area),
        Doing::Drop => areas.drop_area(area),
    }
}

/// An area and what is done to it, and the areas that then cover the cell, its neighbour in the same location area, and a
/// cell of another.
type Row = (&'static [u8], Doing, [&'static [u8]; 3]);

const ROWS: &[Row] = &[
    (b"a", Doing::Put(Selector::Cell(CELL)), [b"a ", b"", b""]),
    (b"a", Doing::Put(Selector::Lac(100)), [b"a ", b"a ", b""]),
    (
        b"b",
        Doing::Put(Selector::Cell(CELL)),
        [b"a b ", b"a ", b""],
    ),
    (
        b"c",
        Doing::Put(Selector::Lac(101)),
        [b"a b ", b"a ", b"c "],
    ),
    (b"a", Doing::Cut(Selector::Lac(100)), [b"a b ", b"", b"c "]),
    (b"a", Doing::Cut(Selector::Cell(CELL)), [b"b ", b"", b"c "]),
    (b"b", Doing::Drop, [b"", b"", b"c "]),
    (b"b", Doing::Add, [b"", b"", b"c "]),
    (b"b", Doing::Put(Selector::Lac(100)), [b"b ", b"b ", b"c "]),
    (
        b"a",
        Doing::Put(Selector::Lac(101)),
        [b"b ", b"b ", b"a c "],
    ),
];

fn follows(rt: &impl Abort, alloc: Global, areas: &mut Areas, row: &Row) {
    let (area, doing, [cell, next, far]) = *row;
    let area = name(rt, alloc, area);
    made(rt, done(areas, &area, doing), "an area changes");
    has_areas(rt, alloc, areas, CELL, cell);
    has_areas(rt, alloc, areas, NEXT, next);
    has_areas(rt, alloc, areas, FAR, far);
}

fn follows_all(rt: &impl Abort, alloc: Global, areas: &mut Areas) {
    for row in ROWS {
        follows(rt, alloc, areas, row);
    }
}

#[test]
fn the_areas_of_a_cell_follow_each_edit(rt: HostRuntime) {
    let mut areas = named(&rt, rt.alloc(), &[b"c", b"b", b"a"]);
    follows_all(&rt, rt.alloc(), &mut areas);
}

/// The area covers the cell or not, also once what it covers was looked for.
fn covers(rt: &impl Abort, areas: &Areas, area: &Name, cell: Cell, want: bool) {
    yes(rt, areas.covers(area, cell) == want, "a cell of an area");
    let coverage = areas.coverage(area);
    yes(rt, coverage.covers(cell) == want, "a cell of a coverage");
}

/// Cells, and whether location area 100 has them.
const CELLS: &[(Cell, bool)] = &[
    (CELL, true),
    (NEXT, true),
    (
        Cell {
            lac: 100,
            ci: 65535,
        },
        true,
    ),
    (FAR, false),
    (Cell { lac: 7, ci: 100 }, false),
];

/// The area covers the cells of location area 100, or none.
fn covers_all(rt: &impl Abort, alloc: Global, areas: &Areas, area: &[u8], has_some: bool) {
    let area = name(rt, alloc, area);
    for (cell, is_there) in CELLS {
        covers(rt, areas, &area, *cell, has_some && *is_there);
    }
}

#[test]
fn a_location_area_covers_each_of_its_cells(rt: HostRuntime) {
    let alloc = rt.alloc();
    let mut areas = named(&rt, alloc, &[b"Coast", b"Hills"]);
    put_all(&rt, alloc, &mut areas, &[b"Coast"]);
    covers_all(&rt, alloc, &areas, b"Coast", true);
    covers_all(&rt, alloc, &areas, b"Hills", false);
    covers_all(&rt, alloc, &areas, b"nowhere", false);
}

/// The area has the selectors of the first 4,096 location areas: no other is put until one of them is cut.
fn is_full(rt: &impl Abort, areas: &mut Areas, area: &Name) {
    let full = Refusal::Limit {
        which: Limit::Selectors,
    };
    let more = areas.put(area, Selector::Lac(4096));
    same(rt, &more, &Err(full), "one more");
    let there = areas.put(area, Selector::Lac(0));
    same(
        rt,
        &there,
        &Err(Refusal::SelectorThere),
        "one that is there",
    );
    made(rt, areas.cut(area, Selector::Lac(0)), "one is cut");
    made(rt, areas.put(area, Selector::Lac(4096)), "another is put");
}

#[test]
fn an_area_has_4096_selectors_at_most(rt: HostRuntime) {
    let coast = name(&rt, rt.alloc(), b"Coast");
    let mut areas = named(&rt, rt.alloc(), &[b"Coast"]);
    for lac in 0..4096u16 {
        made(&rt, areas.put(&coast, Selector::Lac(lac)), "a put");
    }
    is_full(&rt, &mut areas, &coast);
}

/// The name of an area by two numbers, four digits.
fn digits(first: u8, second: u8) -> [u8; 4] {
    [
        b'0' + first / 8,
        b'0' + first % 8,
        b'0' + second / 8,
        b'0' + second % 8,
    ]
}

/// No area more is added until one is dropped.
fn are_all(rt: &impl Abort, areas: &mut Areas, more: &Name, there: &Name) {
    let full = Refusal::Limit {
        which: Limit::Areas,
    };
    same(rt, &areas.add_area(more), &Err(full), "one more");
    let again = areas.add_area(there);
    same(rt, &again, &Err(Refusal::AreaExists), "one that is there");
    made(rt, areas.drop_area(there), "one is dropped");
    made(rt, areas.add_area(more), "another is added");
}

fn adds(rt: &impl Abort, alloc: Global, areas: &mut Areas, octets: &[u8]) {
    let area = name(rt, alloc, octets);
    made(rt, areas.add_area(&area), "an area is added");
}

fn adds_4096(rt: &impl Abort, alloc: Global, areas: &mut Areas) {
    for first in 0..64u8 {
        for second in 0..64u8 {
            adds(rt, alloc, areas, &digits(first, second));
        }
    }
}

#[test]
fn there_are_4096_areas_at_most(rt: HostRuntime) {
    let alloc = rt.alloc();
    let mut areas = Areas::new(alloc);
    adds_4096(&rt, alloc, &mut areas);
    let more = name(&rt, alloc, b"one-more");
    are_all(&rt, &mut areas, &more, &name(&rt, alloc, b"0000"));
}

fn has_text(rt: &impl Abort, alloc: Global, refusal: &Refusal, want: &str) {
    let text = format!(in alloc; "{refusal}").expect(rt, "memory");
    yes(rt, text.as_str() == want, want);
}

const FULL: Refusal = Refusal::Limit {
    which: Limit::Selectors,
};

const TEXTS: &[(Refusal, &str)] = &[
    (
        Refusal::BadName,
        "a name is 1 to 32 letters, digits or hyphens",
    ),
    (Refusal::AreaExists, "the area is there already"),
    (Refusal::NoSuchArea, "no such area"),
    (Refusal::SelectorThere, "the area has this selector already"),
    (
        Refusal::SelectorNotThere,
        "the area does not have this selector",
    ),
    (FULL, "a limit would be passed: Selectors"),
    (Refusal::Memory, "out of memory"),
];

#[test]
fn refusals_have_texts(rt: HostRuntime) {
    for (refusal, want) in TEXTS {
        has_text(&rt, rt.alloc(), refusal, want);
    }
}
