//! What no clause says: that each call can succeed, and worked values from the rules.

use crate::values::{bsc, content, name, names, same, yes};
use areas::Selector;
use common::{Cell, Name};
use coverage_plan::{Edit, Limit, Made, Plan, PlanItem, Refusal, covered_cells};
use serials::{Scope, Serial};
use std::alloc::Global;
use std::process::Abort;
use std::slice;
use warning_book::{Notice, WarningId};

const SEVEN: Cell = Cell { lac: 100, ci: 7 };

const EIGHT: Cell = Cell { lac: 100, ci: 8 };

const FAR: Cell = Cell { lac: 200, ci: 7 };

/// Selectors: the location area of the first two cells, the first, and the second.
const LAC: Selector = Selector::Lac(100);

const AT_SEVEN: Selector = Selector::Cell(SEVEN);

const AT_EIGHT: Selector = Selector::Cell(EIGHT);

/// The serial number of a first warning that is sent to cells (its message code and its update number are 0), that of its
/// second version, and that of a second warning (its message code is 1; TS 23.041, 9.4.1.2.1).
const FIRST_SERIAL: u16 = 0xc000;

const SECOND_SERIAL: u16 = 0xc001;

const OTHER_SERIAL: u16 = 0xc010;

fn first_id() -> WarningId {
    WarningId::new(1)
}

/// An edit, by the numbers of BSCs and warnings and the names of areas.
#[derive(Clone, Copy)]
enum Doing {
    AddBsc(u16),
    RemoveBsc(u16),
    AddCell(Cell, u16),
    MoveCell(Cell, u16),
    RemoveCell(Cell),
    AddArea(&'static [u8]),
    DropArea(&'static [u8]),
    Put(&'static [u8], Selector),
    Cut(&'static [u8], Selector),
    Issue(&'static [&'static [u8]]),
    Update(u32),
    Widen(u32, &'static [u8]),
    Narrow(u32, &'static [u8]),
    Stop(u32),
    Forget(u32),
}

fn edit_of(rt: &impl Abort, alloc: Global, doing: Doing) -> Edit {
    match doing {
        Doing::AddBsc(b) => Edit::AddBsc(bsc(rt, b)),
        Doing::RemoveBsc(b) => Edit::RemoveBsc(bsc(rt, b)),
        Doing::AddCell(cell, b) => Edit::AddCell(cell, bsc(rt, b)),
        Doing::MoveCell(cell, b) => Edit::MoveCell(cell, bsc(rt, b)),
        Doing::RemoveCell(cell) => Edit::RemoveCell(cell),
        Doing::AddArea(area) => Edit::AddArea(name(rt, alloc, area)),
        Doing::DropArea(area) => Edit::DropArea(name(rt, alloc, area)),
        Doing::Put(area, selector) => Edit::Put(name(rt, alloc, area), selector),
        Doing::Cut(area, selector) => Edit::Cut(name(rt, alloc, area), selector),
        Doing::Issue(areas) => issue(rt, alloc, areas),
        Doing::Update(w) => Edit::Update(WarningId::new(w), content(rt, alloc, b"A")),
        Doing::Widen(w, area) => Edit::Widen(WarningId::new(w), name(rt, alloc, area)),
        Doing::Narrow(w, area) => Edit::Narrow(WarningId::new(w), name(rt, alloc, area)),
        Doing::Stop(w) => Edit::Stop(WarningId::new(w)),
        Doing::Forget(w) => Edit::Forget(WarningId::new(w)),
    }
}

/// Issues a warning in these areas.
fn issue(rt: &impl Abort, alloc: Global, areas: &[&[u8]]) -> Edit {
    let notice = Notice {
        message_id: 4370,
        scope: Scope::Cell,
        content: content(rt, alloc, b"A"),
    };
    Edit::Issue(notice, names(rt, alloc, areas))
}

/// Two cells at BSC 1. Area A has their location area and the first cell, area B has the first cell.
const BEGUN: &[Doing] = &[
    Doing::AddBsc(1),
    Doing::AddCell(SEVEN, 1),
    Doing::AddCell(EIGHT, 1),
    Doing::AddArea(b"A"),
    Doing::AddArea(b"B"),
    Doing::Put(b"A", LAC),
    Doing::Put(b"A", AT_SEVEN),
    Doing::Put(b"B", AT_SEVEN),
];

/// Makes the edit, which gives that.
fn gives(rt: &impl Abort, alloc: Global, plan: &mut Plan, doing: Doing, want: Made) {
    let edit = edit_of(rt, alloc, doing);
    let made = plan.make(&edit);
    drop(edit);
    same(rt, &made, &Ok(want), "what an edit gives");
}

/// The plan of `BEGUN`, in which warning 1 names both areas.
fn begun(rt: &impl Abort, alloc: Global) -> Plan {
    let mut plan = Plan::new(alloc);
    for doing in BEGUN {
        gives(rt, alloc, &mut plan, *doing, Made::Done);
    }
    let issued = Made::Issued(first_id(), Serial::from_u16(FIRST_SERIAL));
    gives(rt, alloc, &mut plan, Doing::Issue(&[b"A", b"B"]), issued);
    plan
}

/// The pairs of these cells and the first warning, and no others.
fn are_pairs(rt: &impl Abort, found: &[(Cell, WarningId)], cells: &[Cell]) {
    yes(rt, found.len() == cells.len(), "the number of pairs");
    for (pair, cell) in found.iter().zip(cells) {
        yes(rt, pair.0 == *cell && pair.1 == first_id(), "a pair");
    }
}

/// Makes the edit, which changes the first warning in these cells and no other pair.
fn changes(rt: &impl Abort, plan: &mut Plan, edit: &Edit, cells: &[Cell]) {
    same(rt, &plan.check(edit), &Ok(()), "a check");
    let pairs = plan.edit(edit).expect(rt, "the edit is made");
    are_pairs(rt, pairs.as_slice(), cells);
}

/// The edit is refused so, each time.
fn refuses(rt: &impl Abort, plan: &mut Plan, edit: &Edit, want: Refusal) {
    same(rt, &plan.check(edit), &Err(want), "a check that refuses");
    same(rt, &plan.make(edit), &Err(want), "an edit that is refused");
    let refusal = plan.edit(edit).err();
    same(rt, &refusal, &Some(want), "its pairs");
}

/// At the BSC the first warning is planned in these cells, with this serial number.
fn is_planned(rt: &impl Abort, plan: &Plan, number: u16, cells: &[Cell], serial: u16) {
    let items = plan.plan_of(bsc(rt, number)).expect(rt, "the plan");
    let found = items.as_slice();
    yes(rt, found.len() == cells.len(), "the number of items");
    for (item, cell) in found.iter().zip(cells) {
        is_item(rt, plan, item, *cell, Serial::from_u16(serial));
    }
}

/// The item plans the first warning in that cell, with that serial number.
fn is_item(rt: &impl Abort, plan: &Plan, item: &PlanItem, cell: Cell, serial: Serial) {
    let want = PlanItem {
        cell,
        message_id: 4370,
        serial,
    };
    yes(rt, *item == want, "an item");
    let wanted = plan.wanted(cell, first_id());
    yes(rt, wanted == Some(serial), "what is wanted in its cell");
}

/// A step of a scenario.
#[derive(Clone, Copy)]
enum Step {
    /// The edit changes the first warning in these cells.
    Changes(Doing, &'static [Cell]),
    /// The edit is refused.
    Refuses(Doing, Refusal),
    /// At the BSC the first warning is planned in these cells, with that serial number.
    Planned(u16, &'static [Cell], u16),
    /// The first warning is not wanted in the cell.
    Unwanted(Cell),
}

use Doing::{
    AddArea, AddBsc, AddCell, Cut, DropArea, Forget, Issue, MoveCell, Narrow, Put, RemoveBsc,
    RemoveCell, Stop, Update, Widen,
};
use Step::{Changes, Planned, Refuses, Unwanted};

fn takes(rt: &impl Abort, alloc: Global, plan: &mut Plan, step: Step) {
    match step {
        Changes(doing, cells) => {
            let edit = edit_of(rt, alloc, doing);
            changes(rt, plan, &edit, cells);
            drop(edit);
        }
        Refuses(doing, refusal) => {
            let edit = edit_of(rt, alloc, doing);
            refuses(rt, plan, &edit, refusal);
            drop(edit);
        }
        Planned(number, cells, serial) => is_planned(rt, plan, number, cells, serial),
        Unwanted(cell) => {
            let wanted = plan.wanted(cell, first_id());
            yes(rt, wanted.is_none(), "nothing is wanted in a cell");
        }
    }
}

/// Each begins with the same plan.
const SCENARIOS: &[&[Step]] = &[
    // what covers the cells is cut away, one selector after another
    &[
        Planned(1, &[SEVEN, EIGHT], FIRST_SERIAL),
        Changes(Cut(b"A", AT_SEVEN), &[]),
        Changes(Cut(b"A", LAC), &[SEVEN, EIGHT]),
        Planned(1, &[SEVEN], FIRST_SERIAL),
        Changes(Cut(b"B", AT_SEVEN), &[SEVEN]),
        Planned(1, &[], FIRST_SERIAL),
        Changes(AddBsc(2), &[]),
    ],
    // a cell is registered at the second BSC, the first cell moves there, and the second is taken out
    &[
        Changes(AddBsc(2), &[]),
        Changes(AddCell(FAR, 2), &[FAR]),
        Changes(MoveCell(SEVEN, 2), &[SEVEN]),
        Planned(1, &[EIGHT], FIRST_SERIAL),
        Changes(RemoveCell(EIGHT), &[EIGHT]),
        Changes(RemoveBsc(1), &[]),
        Planned(2, &[SEVEN], FIRST_SERIAL),
        Unwanted(EIGHT),
        Unwanted(FAR),
    ],
    // the second cell is covered by area A already, and not by area B
    &[
        Changes(Put(b"A", AT_EIGHT), &[]),
        Changes(Put(b"B", LAC), &[EIGHT]),
        Planned(1, &[SEVEN, EIGHT], FIRST_SERIAL),
    ],
    // a third area, which no warning names, changes nothing; then the warning has a second version, loses area B, has it
    // again, is stopped and is forgotten
    &[
        Changes(AddArea(b"C"), &[]),
        Changes(Put(b"C", LAC), &[]),
        Changes(DropArea(b"C"), &[]),
        Changes(Update(1), &[SEVEN, EIGHT]),
        Planned(1, &[SEVEN, EIGHT], SECOND_SERIAL),
        Changes(Narrow(1, b"B"), &[SEVEN]),
        Changes(Widen(1, b"B"), &[SEVEN]),
        Changes(Stop(1), &[SEVEN, EIGHT]),
        Planned(1, &[], FIRST_SERIAL),
        Changes(Forget(1), &[SEVEN, EIGHT]),
        Unwanted(SEVEN),
    ],
    // a refusal leaves the plan: a missing area comes before the rest, and what is in use stays
    &[
        Refuses(Issue(&[b"C", b"C"]), Refusal::NoSuchArea),
        Refuses(Issue(&[b"A", b"A"]), Refusal::AreaThere),
        Refuses(Widen(2, b"C"), Refusal::NoSuchArea),
        Refuses(Narrow(2, b"A"), Refusal::NoSuchWarning),
        Refuses(DropArea(b"A"), Refusal::AreaInUse),
        Refuses(Forget(1), Refusal::StillActive),
        Planned(1, &[SEVEN, EIGHT], FIRST_SERIAL),
    ],
];

fn goes(rt: &impl Abort, alloc: Global, steps: &[Step]) {
    let mut plan = begun(rt, alloc);
    for step in steps {
        takes(rt, alloc, &mut plan, *step);
    }
}

#[test]
fn scenarios_go_as_planned(rt: HostRuntime) {
    for steps in SCENARIOS {
        goes(&rt, rt.alloc(), steps);
    }
}

#[test]
fn edits_give_the_numbers_of_what_they_add(rt: HostRuntime) {
    let alloc = rt.alloc();
    let mut plan = begun(&rt, alloc);
    let updated = Made::Updated(Serial::from_u16(SECOND_SERIAL));
    let issued = Made::Issued(WarningId::new(2), Serial::from_u16(OTHER_SERIAL));
    gives(&rt, alloc, &mut plan, Update(1), updated);
    gives(&rt, alloc, &mut plan, Issue(&[b"B"]), issued);
    gives(&rt, alloc, &mut plan, Stop(1), Made::Done);
}

#[test]
fn the_plan_follows_updates_past_the_sixteenth(rt: HostRuntime) {
    let alloc = rt.alloc();
    let mut plan = begun(&rt, alloc);
    for n in 1..18u16 {
        let serial = FIRST_SERIAL.saturating_add(n % 16);
        takes(&rt, alloc, &mut plan, Changes(Update(1), &[SEVEN, EIGHT]));
        takes(&rt, alloc, &mut plan, Planned(1, &[SEVEN, EIGHT], serial));
    }
}

/// An Issue is copied, and adds a second warning in area B.
fn a_copy_is_issued(rt: &impl Abort, alloc: Global, plan: &mut Plan) {
    let edit = issue(rt, alloc, &[b"B"]);
    let copy = edit.copied(alloc).expect(rt, "memory");
    let is_same = copy.same(&edit);
    drop(edit);
    yes(rt, is_same, "the copy of an edit");
    let pairs = plan.edit(&copy).expect(rt, "the warning is issued");
    drop(copy);
    let want = [(SEVEN, WarningId::new(2))];
    yes(rt, pairs.as_slice() == want.as_slice(), "its pairs");
}

/// The plan lends its parts, and the area covers the first cell.
fn parts_are_lent(rt: &impl Abort, alloc: Global, plan: &Plan, area: &Name) {
    let first = Some(bsc(rt, 1));
    yes(rt, plan.register().bsc_of(SEVEN) == first, "the register");
    yes(rt, plan.areas().has_area(area), "the areas");
    yes(rt, plan.book().is_active(first_id()), "the book");
    let other = plan.wanted(SEVEN, WarningId::new(2));
    yes(rt, other.is_none(), "no other warning");
    let areas = slice::from_ref(area);
    let found = covered_cells(alloc, plan.register(), plan.areas(), areas);
    let cells = found.expect(rt, "memory");
    yes(rt, cells.as_slice() == &[SEVEN][..], "the cells covered");
}

#[test]
fn every_call_answers(rt: HostRuntime) {
    let alloc = rt.alloc();
    let mut plan = begun(&rt, alloc);
    parts_are_lent(&rt, alloc, &plan, &name(&rt, alloc, b"B"));
    a_copy_is_issued(&rt, alloc, &mut plan);
}

fn has_text(rt: &impl Abort, alloc: Global, refusal: &Refusal, want: &str) {
    let text = format!(in alloc; "{refusal}").expect(rt, "memory");
    yes(rt, text.as_str() == want, want);
}

#[test]
fn refusals_have_texts(rt: HostRuntime) {
    for (refusal, want) in &[
        (Refusal::NoSuchBsc, "no such BSC"),
        (Refusal::AreaInUse, "a warning names the area"),
        (
            Refusal::Limit {
                which: Limit::Selectors,
            },
            "a limit would be passed: Selectors",
        ),
        (Refusal::Memory, "out of memory"),
    ] {
        has_text(&rt, rt.alloc(), refusal, want);
    }
}
