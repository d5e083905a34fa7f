//! The pairs that an edit of the plan gives, against a comparison of whole plans: all that a pair depends on is read
//! before the edit and after it, of every cell and warning that the edits can name.

use crate::values::{bsc, content, name, yes};
use areas::Selector;
use cell_register::BscId;
use common::{Cell, Name, Names};
use coverage_plan::{Edit, Plan};
use serials::Scope;
use std::alloc::{AllocError, Global};
use std::process::Abort;
use warning_book::{Notice, WarningId};

/// So many edits are accepted, of so many at most that are drawn.
const EDITS: u32 = 200;

const DRAWN: u32 = 1_000;

/// The numbers of warnings that are compared, which are more than are issued.
const WARNINGS: u32 = 64;

/// The cells, in their order.
const CELLS: [Cell; 6] = [
    Cell { lac: 100, ci: 7 },
    Cell { lac: 100, ci: 8 },
    Cell { lac: 100, ci: 9 },
    Cell { lac: 101, ci: 7 },
    Cell { lac: 101, ci: 8 },
    Cell { lac: 102, ci: 7 },
];

/// What a pair of a cell and a warning depends on.
#[derive(Clone, Copy, PartialEq, Eq)]
struct Part {
    cell: Cell,
    warning: WarningId,
    /// The number of the cell's BSC; 0 where it has none.
    place: u16,
    is_there: bool,
    /// The wanted serial number; 65,536 where none is wanted.
    wanted: u32,
    /// The letters of the warning's areas that cover the cell, in the order in which the warning names them.
    covering: u32,
}

/// Numbers drawn one after another, the same in each run.
#[derive(Drop)]
struct Draw {
    state: u32,
}

impl Draw {
    /// A number below that one, which is above 0.
    fn below(&mut self, end: u32) -> u32 {
        self.state = self
            .state
            .wrapping_mul(1_664_525)
            .wrapping_add(1_013_904_223);
        (self.state >> 8).checked_rem(end).unwrap_or(0)
    }

    fn bsc(&mut self, rt: &impl Abort) -> BscId {
        let number = match self.below(3) {
            0 => 1,
            1 => 2,
            _ => 3,
        };
        bsc(rt, number)
    }

    fn cell(&mut self) -> Cell {
        let place = self.below(6);
        CELLS
            .get(place as usize)
            .copied()
            .unwrap_or(Cell { lac: 100, ci: 7 })
    }

    fn selector(&mut self) -> Selector {
        let cell = self.cell();
        match self.below(3) {
            0 => Selector::Lac(cell.lac),
            _ => Selector::Cell(cell),
        }
    }

    fn name(&mut self, rt: &impl Abort, alloc: Global) -> Name {
        area(rt, alloc, self.below(4))
    }

    fn warning(&mut self) -> WarningId {
        WarningId::new(self.below(20).saturating_add(1))
    }
}

/// The name of the first, second, third or fourth area: one letter.
fn area(rt: &impl Abort, alloc: Global, place: u32) -> Name {
    let letter = match place {
        0 => b'A',
        1 => b'B',
        2 => b'C',
        _ => b'D',
    };
    name(rt, alloc, &[letter])
}

/// An Issue in that area and in one that is drawn.
fn issue(rt: &impl Abort, alloc: Global, draw: &mut Draw, first: Name) -> Edit {
    let second = draw.name(rt, alloc);
    let notice = Notice {
        message_id: 4370,
        scope: Scope::Cell,
        content: content(rt, alloc, b"A"),
    };
    Edit::Issue(notice, two_names(rt, alloc, first, second))
}

fn two_names(rt: &impl Abort, alloc: Global, first: Name, second: Name) -> Names {
    let names = vec![in alloc; first, second].expect(rt, "memory");
    Names::from_vec(names)
}

fn register_edit(rt: &impl Abort, draw: &mut Draw) -> Edit {
    let b = draw.bsc(rt);
    let c = draw.cell();
    match draw.below(8) {
        0 => Edit::AddBsc(b),
        1 => Edit::RemoveBsc(b),
        2 => Edit::RemoveCell(c),
        3 | 4 => Edit::MoveCell(c, b),
        _ => Edit::AddCell(c, b),
    }
}

fn area_edit(rt: &impl Abort, alloc: Global, draw: &mut Draw) -> Edit {
    let name = draw.name(rt, alloc);
    let selector = draw.selector();
    match draw.below(9) {
        0 => Edit::AddArea(name),
        1 => Edit::DropArea(name),
        2..=4 => Edit::Cut(name, selector),
        _ => Edit::Put(name, selector),
    }
}

fn warning_edit(rt: &impl Abort, alloc: Global, draw: &mut Draw) -> Edit {
    let number = draw.warning();
    let name = draw.name(rt, alloc);
    match draw.below(10) {
        0 => Edit::Stop(number),
        1 => Edit::Forget(number),
        2 | 3 => Edit::Update(number, content(rt, alloc, b"A")),
        4 | 5 => Edit::Narrow(number, name),
        6 | 7 => issue(rt, alloc, draw, name),
        _ => Edit::Widen(number, name),
    }
}

fn next_edit(rt: &impl Abort, alloc: Global, draw: &mut Draw) -> Edit {
    match draw.below(3) {
        0 => register_edit(rt, draw),
        1 => area_edit(rt, alloc, draw),
        _ => warning_edit(rt, alloc, draw),
    }
}

/// The letters of the warning's areas that cover the cell.
fn covering(plan: &Plan, c: Cell, w: WarningId) -> u32 {
    let mut letters: u32 = 0;
    for name in plan.book().areas_of(w) {
        if plan.areas().covers(name, c) {
            let letter = name.as_slice().first().copied().unwrap_or(0);
            letters = letters.wrapping_mul(256).wrapping_add(u32::from(letter));
        }
    }
    letters
}

fn place(plan: &Plan, c: Cell) -> u16 {
    match plan.register().bsc_of(c) {
        Some(b) => b.number(),
        None => 0,
    }
}

fn wanted(plan: &Plan, c: Cell, w: WarningId) -> u32 {
    match plan.wanted(c, w) {
        Some(serial) => u32::from(serial.to_u16()),
        None => 65_536,
    }
}

fn read_part(plan: &Plan, c: Cell, w: WarningId) -> Part {
    Part {
        cell: c,
        warning: w,
        place: place(plan, c),
        is_there: plan.book().find(w).is_some(),
        wanted: wanted(plan, c, w),
        covering: covering(plan, c, w),
    }
}

/// The parts of the cell, by warning.
fn add_parts(plan: &Plan, c: Cell, parts: &mut Vec<Part>) -> Result<(), AllocError> {
    for number in 1..=WARNINGS {
        parts.push(read_part(plan, c, WarningId::new(number)))?;
    }
    Ok(())
}

/// All parts of the plan, by cell and by warning.
fn parts(alloc: Global, plan: &Plan) -> Result<Vec<Part>, AllocError> {
    let mut parts = Vec::new(alloc);
    for cell in &CELLS {
        add_parts(plan, *cell, &mut parts)?;
    }
    Ok(parts)
}

/// Whether the pair is registered and in the book on either side, and something of it differs.
fn is_changed(old: &Part, new: &Part) -> bool {
    (old.place != 0 || new.place != 0)
        && (old.is_there || new.is_there)
        && (old.place != new.place || old.wanted != new.wanted || old.covering != new.covering)
}

/// The pairs that differ.
fn compared(
    alloc: Global,
    before: &[Part],
    after: &[Part],
) -> Result<Vec<(Cell, WarningId)>, AllocError> {
    let mut pairs = Vec::new(alloc);
    for (old, new) in before.iter().zip(after) {
        if is_changed(old, new) {
            pairs.push((new.cell, new.warning))?;
        }
    }
    Ok(pairs)
}

/// Makes the edit. Its pairs are those that differ; a refused one changes nothing. How many pairs it gives, or none
/// where it is refused.
fn make(rt: &impl Abort, alloc: Global, plan: &mut Plan, edit: &Edit) -> Option<usize> {
    let before = parts(alloc, plan).expect(rt, "memory");
    let made = plan.edit(edit);
    let after = parts(alloc, plan).expect(rt, "memory");
    match made {
        Ok(pairs) => {
            let expected = compared(alloc, before.as_slice(), after.as_slice());
            let expected = expected.expect(rt, "memory");
            let is_same = pairs.as_slice() == expected.as_slice();
            yes(rt, is_same, "the pairs that differ");
            Some(expected.len())
        }
        Err(_) => {
            let is_same = before.as_slice() == after.as_slice();
            yes(rt, is_same, "a refused edit changes nothing");
            None
        }
    }
}

fn makes(rt: &impl Abort, plan: &mut Plan, edit: Edit) {
    let made = plan.make(&edit);
    drop(edit);
    yes(rt, made.is_ok(), "an edit is made");
}

/// Three BSCs, all cells at the first, and the four areas.
fn begun(rt: &impl Abort, alloc: Global) -> Plan {
    let mut plan = Plan::new(alloc);
    let first = bsc(rt, 1);
    makes(rt, &mut plan, Edit::AddBsc(first));
    for cell in &CELLS {
        makes(rt, &mut plan, Edit::AddCell(*cell, first));
    }
    for place in 0..4 {
        makes(rt, &mut plan, Edit::AddArea(area(rt, alloc, place)));
    }
    plan
}

/// Draws an edit and makes it. How many pairs it gives, or none where it is refused.
fn draws(rt: &impl Abort, alloc: Global, plan: &mut Plan, draw: &mut Draw) -> Option<usize> {
    let edit = next_edit(rt, alloc, draw);
    let pairs = make(rt, alloc, plan, &edit);
    drop(edit);
    pairs
}

/// Makes drawn edits until so many are accepted. How many are, and how many pairs they give.
fn draws_all(rt: &impl Abort, alloc: Global, plan: &mut Plan) -> (u32, usize) {
    let mut draw = Draw { state: 1 };
    let mut accepted: u32 = 0;
    let mut changed: usize = 0;
    for _ in 0..DRAWN {
        if let Some(pairs) = draws(rt, alloc, plan, &mut draw) {
            accepted = accepted.saturating_add(1);
            changed = changed.saturating_add(pairs);
        }
        if accepted == EDITS {
            break;
        }
    }
    (accepted, changed)
}

#[test]
fn edit_as_before(rt: HostRuntime) {
    let mut plan = begun(&rt, rt.alloc());
    let (accepted, changed) = draws_all(&rt, rt.alloc(), &mut plan);
    yes(&rt, accepted == EDITS, "the edits that are accepted");
    yes(&rt, changed >= 400, "the pairs that they give");
    yes(&rt, plan.book().issued() <= WARNINGS, "the warnings issued");
}
