//! What the tests share: an office, its desks, an office with a link, octets of a BSC, and a gate.

ghost use Rattle.std.specs.Prelude.{◌≡◌};

use crate::given_events::{NETWORK, SEVEN, bsc, coast, issue};
use areas::Selector;
use cell_register::BscId;
use centre_events::event::Event;
use coverage_plan::Edit;
use link_worker::{Gate, Passage, Step};
use office::desk::Desk;
use office::office::Office;
use std::alloc::Global;
use std::process::Abort;
use std::sync::Wait;
use std::sync::ledger::{Blank, Ledger};

/// The generation of the link, which comes up in the sixth entry.
pub(crate) const LINK: u64 = 6;

/// The WRITE-REPLACE COMPLETE of the first order.
pub(crate) const COMPLETE: [u8; 20] = [
    0x02, 0x00, 0x00, 0x10, 0x0e, 0x11, 0x12, 0x03, 0xc0, 0x00, 0x04, 0x00, 0x05, 0x01, 0x00, 0x64,
    0x00, 0x07, 0x12, 0x00,
];

/// That COMPLETE, a type that is not in use, and a RESTART in which all cells have lost their messages, one after another.
pub(crate) const STREAM: [u8; 38] = [
    0x02, 0x00, 0x00, 0x10, 0x0e, 0x11, 0x12, 0x03, 0xc0, 0x00, 0x04, 0x00, 0x05, 0x01, 0x00, 0x64,
    0x00, 0x07, 0x12, 0x00, 0x08, 0x00, 0x00, 0x02, 0xaa, 0xbb, 0x13, 0x00, 0x00, 0x08, 0x04, 0x00,
    0x01, 0x06, 0x16, 0x00, 0x0d, 0x01,
];

/// The frame of the first order, a WRITE-REPLACE with one page of four octets, which zeros fill.
pub(crate) const ORDER: [u8; 116] = [
    0x01, 0x00, 0x00, 0x70, 0x0e, 0x11, 0x12, 0x03, 0xc0, 0x00, 0x04, 0x00, 0x05, 0x01, 0x00, 0x64,
    0x00, 0x07, 0x12, 0x00, 0x05, 0x00, 0x06, 0x00, 0x1e, 0x07, 0x00, 0x00, 0x13, 0x01, 0x0c, 0x0f,
    0x01, 0x04, 0xd4, 0xf2, 0x9c, 0x0e, 0x00, 0x00, 0x00, 0x00, 0x00, 0x00, 0x00, 0x00, 0x00, 0x00,
    0x00, 0x00, 0x00, 0x00, 0x00, 0x00, 0x00, 0x00, 0x00, 0x00, 0x00, 0x00, 0x00, 0x00, 0x00, 0x00,
    0x00, 0x00, 0x00, 0x00, 0x00, 0x00, 0x00, 0x00, 0x00, 0x00, 0x00, 0x00, 0x00, 0x00, 0x00, 0x00,
    0x00, 0x00, 0x00, 0x00, 0x00, 0x00, 0x00, 0x00, 0x00, 0x00, 0x00, 0x00, 0x00, 0x00, 0x00, 0x00,
    0x00, 0x00, 0x00, 0x00, 0x00, 0x00, 0x00, 0x00, 0x00, 0x00, 0x00, 0x00, 0x00, 0x00, 0x00, 0x00,
    0x00, 0x00, 0x00, 0x00,
];

/// A desk is opened.
pub(crate) fn opens<L: Ledger, R: Wait + Abort>(rt: &R, office: &Office<L>) -> Desk<L> {
    office.open_desk(rt).expect(rt, "a desk is opened")
}

/// The desk's event is accepted.
pub(crate) fn enters<L: Ledger, R: Wait + Abort>(
    rt: &R,
    office: &Office<L>,
    desk: &mut Desk<L>,
    event: Event,
) {
    office
        .submit(rt, desk, event)
        .expect(rt, "the event is entered");
}

/// The desk's edit is accepted.
pub(crate) fn edits<L: Ledger, R: Wait + Abort>(
    rt: &R,
    office: &Office<L>,
    desk: &mut Desk<L>,
    edit: Edit,
) {
    enters(rt, office, desk, Event::Edit(edit));
}

/// An office whose journal holds so many entries.
pub(crate) fn new_office<L: Ledger>(alloc: Global, blank: Blank, journal_limit: u32) -> Office<L>
    requires name { blank.name ≡ L.name }
    requires parts { blank.parts ≡ L.parts }
    requires desks { blank.parts ≡ 1025 }
{
    Office::new(alloc, blank, NETWORK, journal_limit.min(4_000_000))
}

/// A cell is registered at the BSC, a warning is issued there, and the link of the BSC comes up.
fn links<L: Ledger, R: Wait + Abort>(
    rt: &R,
    alloc: Global,
    office: &Office<L>,
    desk: &mut Desk<L>,
    b: BscId,
) {
    let put = Edit::Put(coast(rt, alloc), Selector::Cell(SEVEN));
    edits(rt, office, desk, Edit::AddBsc(b));
    edits(rt, office, desk, Edit::AddCell(SEVEN, b));
    edits(rt, office, desk, Edit::AddArea(coast(rt, alloc)));
    edits(rt, office, desk, put);
    enters(rt, office, desk, issue(rt, alloc));
    enters(rt, office, desk, Event::LinkUp(b));
}

/// An office whose journal holds so many entries, and its first desk. An order is pending over the link of the BSC.
pub(crate) fn linked<L: Ledger, R: Wait + Abort>(
    rt: &R,
    alloc: Global,
    blank: Blank,
    journal_limit: u32,
) -> (Office<L>, Desk<L>)
    requires name { blank.name ≡ L.name }
    requires parts { blank.parts ≡ L.parts }
    requires desks { blank.parts ≡ 1025 }
{
    let office = new_office::<L>(alloc, blank, journal_limit);
    let mut desk = opens(rt, &office);
    links(rt, alloc, &office, &mut desk, first_bsc(rt));
    (office, desk)
}

/// The BSC of that link.
pub(crate) fn first_bsc(rt: &impl Abort) -> BscId {
    bsc(rt, 1)
}

/// A gate that is shut at one step.
#[derive(Drop)]
pub(crate) struct ShutAt {
    pub(crate) step: Step,
}

impl Gate for ShutAt {
    fn pass<R: Wait>(&self, _rt: &R, _b: BscId, passage: Passage<'_>) -> bool {
        passage.step() != self.step
    }
}
