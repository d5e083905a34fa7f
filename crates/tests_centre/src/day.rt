//! A day at two BSCs, with events of every kind but a query, and the numbers that the centre tells after each of them.

use crate::steps::{COAST, Change, EIGHT, HILLS, NETWORK, SEVEN, Step, takes};
use areas::Selector;
use centre_core::centre::Centre;
use std::alloc::Global;
use std::process::Abort;

/// The body of a WRITE-REPLACE FAILURE of the first version: the seventh cell has no room for it (cause 7), the eighth has
/// it.
pub(crate) const WRITE_FAILURE: &[u8] = &[
    0x0e, 0x11, 0x12, 0x03, 0xc0, 0x00, 0x09, 0x00, 0x09, 0x00, 0x00, 0xf1, 0x10, 0x00, 0x64, 0x00,
    0x07, 0x07, 0x04, 0x00, 0x05, 0x01, 0x00, 0x64, 0x00, 0x08, 0x12, 0x00,
];

/// The body of a FAILURE: the eighth cell is down (cause 10).
const FAILURE: &[u8] = &[
    0x09, 0x00, 0x09, 0x00, 0x00, 0xf1, 0x10, 0x00, 0x64, 0x00, 0x08, 0x0a, 0x16, 0x00,
];

/// The body of a RESTART: the eighth cell is up, without its messages.
const RESTART: &[u8] = &[
    0x04, 0x00, 0x05, 0x01, 0x00, 0x64, 0x00, 0x08, 0x16, 0x00, 0x0d, 0x01,
];

/// The body of a KILL FAILURE of the first version: the seventh cell refuses it (cause 14), the eighth has carried it out.
const KILL_FAILURE: &[u8] = &[
    0x0e, 0x11, 0x12, 0x02, 0xc0, 0x00, 0x09, 0x00, 0x09, 0x00, 0x00, 0xf1, 0x10, 0x00, 0x64, 0x00,
    0x07, 0x0e, 0x04, 0x00, 0x05, 0x01, 0x00, 0x64, 0x00, 0x08, 0x12, 0x00,
];

/// The body of an ERROR INDICATION: the message isn't there (cause 2).
pub(crate) const NOT_THERE: &[u8] = &[0x0b, 0x02];

/// The steps, and after each of them: how many cells await the warning, have it on air and failed, and where it is left,
/// none while it isn't in the book; then how many orders are pending for the first BSC, and how many of its keys it has
/// reported, none while it isn't registered.
pub(crate) static DAY: [(Step, [u64; 6]); 34] = [
    // planned: two cells at the first BSC, an area that has their location area, and a warning there
    (Step::Plan(Change::AddBsc(1)), [0, 0, 0, 0, 0, 0]),
    (Step::Plan(Change::AddCell(SEVEN, 1)), [0, 0, 0, 0, 0, 0]),
    (Step::Plan(Change::AddCell(EIGHT, 1)), [0, 0, 0, 0, 0, 0]),
    (Step::Plan(Change::AddArea(COAST)), [0, 0, 0, 0, 0, 0]),
    (
        Step::Plan(Change::Put(COAST, Selector::Lac(100))),
        [0, 0, 0, 0, 0, 0],
    ),
    (Step::Plan(Change::Issue), [2, 0, 0, 0, 1, 0]),
    // refused: the seventh cell refuses, the eighth takes the message and goes down
    (Step::LinkUp, [2, 0, 0, 0, 1, 0]),
    (Step::Send(7), [2, 0, 0, 0, 1, 0]),
    (Step::Report(7, 0x03, WRITE_FAILURE), [0, 1, 1, 0, 0, 1]),
    (Step::Report(7, 0x14, FAILURE), [0, 0, 2, 0, 0, 1]),
    // retried: the seventh is free, the eighth is up without its message, both are unknown
    (Step::Retry, [1, 0, 1, 0, 1, 1]),
    (Step::Report(7, 0x13, RESTART), [2, 0, 0, 0, 1, 0]),
    (Step::Send(7), [2, 0, 0, 0, 1, 0]),
    (Step::LinkDown(7), [2, 0, 0, 0, 1, 2]),
    // corrected: the new version is to be written, the old one to be killed in both
    (Step::Plan(Change::Update), [2, 0, 0, 2, 2, 2]),
    (Step::Plan(Change::AddBsc(2)), [2, 0, 0, 2, 2, 2]),
    (Step::Plan(Change::MoveCell(EIGHT, 2)), [2, 0, 0, 2, 2, 2]),
    // narrowed: the eighth is no longer covered
    (Step::Plan(Change::AddArea(HILLS)), [2, 0, 0, 2, 2, 2]),
    (
        Step::Plan(Change::Put(HILLS, Selector::Cell(SEVEN))),
        [2, 0, 0, 2, 2, 2],
    ),
    (Step::Plan(Change::Widen(HILLS)), [2, 0, 0, 2, 2, 2]),
    (Step::Plan(Change::Narrow(COAST)), [1, 0, 0, 2, 2, 2]),
    // the first area goes
    (
        Step::Plan(Change::Cut(COAST, Selector::Lac(100))),
        [1, 0, 0, 2, 2, 2],
    ),
    (Step::Plan(Change::DropArea(COAST)), [1, 0, 0, 2, 2, 2]),
    // stopped: the seventh refuses the KILL
    (Step::Plan(Change::Stop), [0, 0, 0, 2, 1, 2]),
    (Step::LinkUp, [0, 0, 0, 2, 1, 2]),
    (Step::Send(25), [0, 0, 0, 2, 1, 2]),
    (Step::Report(25, 0x06, KILL_FAILURE), [0, 0, 0, 1, 0, 1]),
    // killed and forgotten
    (Step::Retry, [0, 0, 0, 1, 1, 1]),
    (Step::Send(25), [0, 0, 0, 1, 1, 1]),
    (Step::Report(25, 0x15, NOT_THERE), [0, 0, 0, 0, 0, 0]),
    (Step::Plan(Change::Forget), [0, 0, 0, 0, 0, 0]),
    // taken out
    (Step::Plan(Change::RemoveCell(SEVEN)), [0, 0, 0, 0, 0, 0]),
    (Step::LinkDown(25), [0, 0, 0, 0, 0, 0]),
    (Step::Plan(Change::RemoveBsc(1)), [0, 0, 0, 0, 0, 0]),
];

/// A centre after so many steps.
pub(crate) fn after(rt: &impl Abort, alloc: Global, count: usize) -> Centre {
    let mut centre = Centre::new(alloc, NETWORK, 100);
    for (step, _) in DAY.iter().take(count) {
        takes(rt, alloc, &mut centre, *step);
    }
    centre
}
