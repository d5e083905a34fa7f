//! What no clause says: that each call can succeed, and worked values from the rules.

use crate::values::{bsc, same, yes};
use cell_register::{BscId, Refusal, Register};
use common::{Cell, Cells};
use std::alloc::{AllocError, Global};
use std::process::Abort;

const FIRST: Cell = Cell { lac: 100, ci: 7 };

const SECOND: Cell = Cell { lac: 100, ci: 9 };

const THIRD: Cell = Cell { lac: 200, ci: 1 };

fn made(rt: &impl Abort, found: Result<(), Refusal>, at: &str) {
    same(rt, &found, &Ok(()), at);
}

/// BSCs 1 and 2, with two cells at the first and one at the second, each added out of order.
fn begun(rt: &impl Abort, alloc: Global) -> Register {
    let (first, second) = (bsc(rt, 1), bsc(rt, 2));
    let mut register = Register::new(alloc);
    made(rt, register.add_bsc(second), "BSC 2 is added");
    made(rt, register.add_bsc(first), "BSC 1 is added");
    made(rt, register.add_cell(THIRD, first), "the third is added");
    made(rt, register.add_cell(SECOND, second), "the second is added");
    made(rt, register.add_cell(FIRST, first), "the first is added");
    register
}

fn are(rt: &impl Abort, found: Result<Cells, AllocError>, want: &[Cell], at: &str) {
    let cells = found.expect(rt, "memory");
    yes(rt, cells.as_slice() == want, at);
}

/// The BSC loses both of its cells, one of them to the other BSC, and is taken out.
fn is_taken_out(rt: &impl Abort, register: &mut Register, b: BscId, other: BscId) {
    made(rt, register.move_cell(FIRST, other), "the cell moves");
    made(rt, register.remove_cell(THIRD), "the cell is removed");
    made(rt, register.remove_bsc(b), "the BSC is removed");
    yes(rt, !register.has_bsc(b), "the BSC is gone");
    same(rt, &register.bsc_of(FIRST), &Some(other), "the cell moved");
}

/// Each cell is found from where the one before it stood, and from anywhere else.
fn are_near(rt: &impl Abort, register: &Register) {
    let mut near = 0;
    for (cell, number) in &[(FIRST, 1), (SECOND, 2), (THIRD, 1), (FIRST, 1)] {
        let found = register.bsc_near(*cell, &mut near);
        same(rt, &found, &Some(bsc(rt, *number)), "a cell that is near");
    }
    let unknown = register.bsc_near(Cell { lac: 100, ci: 8 }, &mut near);
    same(rt, &unknown, &None, "an unknown cell");
}

#[test]
fn every_call_answers(rt: HostRuntime) {
    let (first, second) = (bsc(&rt, 1), bsc(&rt, 2));
    let mut register = begun(&rt, rt.alloc());
    are_near(&rt, &register);
    let all = [FIRST, SECOND, THIRD];
    are(&rt, register.all_cells(), &all, "all cells");
    is_taken_out(&rt, &mut register, first, second);
    register.tell_soundness();
}

/// What each edit would answer at the second BSC, and that a third can be added.
fn checks(rt: &impl Abort, register: &Register, second: BscId, third: BscId) {
    let cell = Cell { lac: 7, ci: 7 };
    made(rt, register.check_add_bsc(third), "a BSC");
    let removed = register.check_remove_bsc(second);
    same(rt, &removed, &Err(Refusal::BscHasCells), "a BSC with cells");
    made(rt, register.check_add_cell(cell, second), "a cell");
    made(rt, register.check_move_cell(FIRST, second), "a move");
    made(rt, register.check_remove_cell(FIRST), "a removal");
}

#[test]
fn a_check_accepts_what_its_edit_does(rt: HostRuntime) {
    let register = begun(&rt, rt.alloc());
    checks(&rt, &register, bsc(&rt, 2), bsc(&rt, 3));
}

/// Cells that come first and between the others are listed there.
fn lists_in_order(rt: &impl Abort, register: &mut Register, first: BscId) {
    let least = Cell { lac: 3, ci: 65535 };
    let between = Cell { lac: 100, ci: 8 };
    made(rt, register.add_cell(least, first), "the least");
    made(rt, register.add_cell(between, first), "the one between");
    lists(rt, register, &[least, FIRST, between, THIRD]);
    let of_area = [FIRST, between, SECOND];
    are(rt, register.cells_in(100), &of_area, "location area 100");
    are(rt, register.cells_in(7), &[], "location area 7");
}

/// A copy; where memory runs out once, the register is as it was.
fn copied(rt: &impl Abort, register: &Register) -> Register {
    match register.copied() {
        Ok(copy) => copy,
        Err(_) => {
            lists(rt, register, &[FIRST, THIRD]);
            register.copied().expect(rt, "memory")
        }
    }
}

#[test]
fn a_copy_of_the_register_stands_alone(rt: HostRuntime) {
    let mut register = begun(&rt, rt.alloc());
    let mut copy = copied(&rt, &register);
    is_taken_out(&rt, &mut register, bsc(&rt, 1), bsc(&rt, 2));
    lists(&rt, &copy, &[FIRST, THIRD]);
    lists_in_order(&rt, &mut copy, bsc(&rt, 1));
    yes(&rt, !register.has_bsc(bsc(&rt, 1)), "the BSC is gone");
}

#[test]
fn cells_are_told_in_order(rt: HostRuntime) {
    let mut register = begun(&rt, rt.alloc());
    lists_in_order(&rt, &mut register, bsc(&rt, 1));
}

/// The first BSC has these cells, the second has the second cell, and the third has none.
fn lists(rt: &impl Abort, register: &Register, first: &[Cell]) {
    are(rt, register.cells_of(bsc(rt, 1)), first, "BSC 1");
    are(rt, register.cells_of(bsc(rt, 2)), &[SECOND], "BSC 2");
    are(rt, register.cells_of(bsc(rt, 3)), &[], "BSC 3");
}
