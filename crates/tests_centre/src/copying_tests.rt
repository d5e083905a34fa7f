//! What no clause says of a copy of all that a centre keeps: that memory for it is had, and that it stands alone.

use crate::checks::{same, yes};
use crate::steps::{COAST, MESSAGE_ID, SEVEN, bsc, first_id, first_serial, name, names, notice};
use areas::Selector;
use cell_register::BscId;
use centre_events::in_flight::InFlight;
use centre_past::kept::Kept;
use centre_past::links::{flight_in, generation};
use centre_past::up_or_down::UpOrDown;
use common::Cells;
use coverage_plan::Edit;
use std::alloc::Global;
use std::process::Abort;
use warning_book::Kind;

fn makes(rt: &impl Abort, kept: &mut Kept, edit: Edit) {
    let made = kept.plan.make(&edit);
    drop(edit);
    yes(rt, made.is_ok(), "an edit is made");
}

/// The coast has a cell of the BSC, and a warning is issued on it.
fn plans(rt: &impl Abort, alloc: Global, kept: &mut Kept, b: BscId) {
    let coast = name(alloc, COAST).expect(rt, "memory");
    let put = Edit::Put(coast, Selector::Cell(SEVEN));
    let coast = name(alloc, COAST).expect(rt, "memory");
    let areas = names(alloc, COAST).expect(rt, "memory");
    let notice = notice(alloc).expect(rt, "memory");
    makes(rt, kept, Edit::AddBsc(b));
    makes(rt, kept, Edit::AddCell(SEVEN, b));
    makes(rt, kept, Edit::AddArea(coast));
    makes(rt, kept, put);
    makes(rt, kept, Edit::Issue(notice, areas));
}

fn query(rt: &impl Abort, alloc: Global) -> InFlight {
    let cells = Vec::from_slice(alloc, &[SEVEN]).expect(rt, "memory");
    InFlight::Query {
        message_id: MESSAGE_ID,
        serial: first_serial(),
        cells: Cells::from_vec(cells),
    }
}

/// The BSC's link is up, a query is in flight to it, and its cell is down.
fn reports(rt: &impl Abort, alloc: Global, kept: &mut Kept, b: BscId) {
    let up = UpOrDown::Up {
        flight: Some(query(rt, alloc)),
    };
    kept.links.put(b, 5, up).expect(rt, "memory");
    let set = kept.tables.set_down(Kind::Cbs, b, SEVEN, true);
    set.expect(rt, "memory");
}

/// Whether the query is in flight to the BSC.
fn has_query(rt: &impl Abort, alloc: Global, kept: &Kept, b: BscId) -> bool {
    match flight_in(&kept.links, b) {
        Some(flight) => flight.same(&query(rt, alloc)),
        None => false,
    }
}

/// All of that is there.
fn is_whole(rt: &impl Abort, alloc: Global, kept: &Kept, b: BscId) {
    let bsc = kept.plan.register().bsc_of(SEVEN);
    same(rt, bsc, Some(b), "the cell");
    let coast = name(alloc, COAST).expect(rt, "memory");
    let is_covered = kept.plan.areas().covers(&coast, SEVEN);
    yes(rt, is_covered, "the area");
    let is_active = kept.plan.book().is_active(first_id());
    yes(rt, is_active, "the warning");
    same(rt, generation(&kept.links, b), 5, "the link");
    yes(rt, has_query(rt, alloc, kept, b), "the query");
    let is_down = kept.tables.lines().is_down(Kind::Cbs, b, SEVEN);
    yes(rt, is_down, "the cell is down");
}

/// The cell, the link and the flight are gone, the warning is stopped, and no cell is down.
fn is_undone(rt: &impl Abort, kept: &mut Kept, b: BscId) {
    makes(rt, kept, Edit::RemoveCell(SEVEN));
    makes(rt, kept, Edit::Stop(first_id()));
    kept.links.take_out(b);
    let set = kept.tables.set_down(Kind::Cbs, b, SEVEN, false);
    set.expect(rt, "memory");
}

/// A copy; where memory runs out once, what is copied is as it was.
fn copied(rt: &impl Abort, alloc: Global, kept: &mut Kept, b: BscId) -> Kept {
    match kept.copied(alloc) {
        Ok(copy) => copy,
        Err(_) => {
            is_whole(rt, alloc, kept, b);
            kept.copied(alloc).expect(rt, "memory")
        }
    }
}

#[test]
fn a_copy_of_what_is_kept_stands_alone(rt: HostRuntime) {
    let alloc = rt.alloc();
    let b = bsc(&rt, 1);
    let mut kept = Kept::new(alloc);
    plans(&rt, alloc, &mut kept, b);
    reports(&rt, alloc, &mut kept, b);
    let copy = copied(&rt, alloc, &mut kept, b);
    is_undone(&rt, &mut kept, b);
    is_whole(&rt, alloc, &copy, b);
}
