//! An office with a warning and a link, for the lines that an operator types there.

ghost use Rattle.std.specs.Prelude.{◌≡◌};

use areas::Selector;
use cell_register::BscId;
use centre_events::event::Event;
use centre_events::network::Network;
use common::{Cell, Name, Names, Octets};
use coverage_plan::Edit;
use office::desk::Desk;
use office::office::Office;
use serials::Scope;
use std::alloc::Global;
use std::process::Abort;
use std::sync::Wait;
use std::sync::ledger::{Blank, Ledger};
use warning_book::{Category, CbsContent, Content, ContentPages, Notice, WarningId};

/// The network 001-01, in which messages are broadcast until they are killed.
const NETWORK: Network = Network {
    plmn: [0x00, 0xf1, 0x10],
    broadcasts: 0,
};

pub(crate) const SEVEN: Cell = Cell { lac: 100, ci: 7 };

/// The generation of the link, which comes up in the sixth entry.
pub(crate) const LINK: u64 = 6;

/// The WRITE-REPLACE COMPLETE of the first order.
pub(crate) const COMPLETE: [u8; 20] = [
    0x02, 0x00, 0x00, 0x10, 0x0e, 0x11, 0x12, 0x03, 0xc0, 0x00, 0x04, 0x00, 0x05, 0x01, 0x00, 0x64,
    0x00, 0x07, 0x12, 0x00,
];

pub(crate) fn first_warning() -> WarningId {
    WarningId::new(1)
}

/// The BSC of that number.
pub(crate) fn bsc(rt: &impl Abort, number: u16) -> BscId {
    BscId::new(number).expect(rt, "the number is a BSC's")
}

pub(crate) fn coast(rt: &impl Abort, alloc: Global) -> Name {
    Name::from_vec(Vec::from_slice(alloc, b"Coast").expect(rt, "memory"))
}

/// The coast alone.
fn the_coast(rt: &impl Abort, alloc: Global) -> Names {
    let mut names = Vec::new(alloc);
    names.push(coast(rt, alloc)).expect(rt, "memory");
    Names::from_vec(names)
}

/// Issues a warning of one page on the coast.
fn issue(rt: &impl Abort, alloc: Global) -> Event {
    let page = Vec::from_slice(alloc, &[0xd4, 0xf2, 0x9c, 0x0e]).expect(rt, "memory");
    let mut pages = Vec::new(alloc);
    pages.push(Octets::from_vec(page)).expect(rt, "memory");
    let notice = Notice {
        message_id: 4370,
        scope: Scope::Cell,
        content: Content::Cbs(CbsContent {
            dcs: 15,
            category: Category::HighPriority,
            period: 30,
            pages: ContentPages::from_vec(pages),
        }),
    };
    Event::Edit(Edit::Issue(notice, the_coast(rt, alloc)))
}

/// A desk is opened.
pub(crate) fn opens<L: Ledger, R: Wait + Abort>(rt: &R, office: &Office<L>) -> Desk<L> {
    office.open_desk(rt).expect(rt, "a desk is opened")
}

/// The desk's event is accepted.
pub(crate) fn enters<L: Ledger, R: Wait + Abort>(
    rt: &R,
    office: &Office<L>,
    desk: &mut Desk<L>,
    event: Event,
) {
    office
        .submit(rt, desk, event)
        .expect(rt, "the event is entered");
}

/// The desk's edit is accepted.
pub(crate) fn edits<L: Ledger, R: Wait + Abort>(
    rt: &R,
    office: &Office<L>,
    desk: &mut Desk<L>,
    edit: Edit,
) {
    enters(rt, office, desk, Event::Edit(edit));
}

/// A cell is registered at the BSC, a warning is issued there, and the link of the BSC comes up.
fn links<L: Ledger, R: Wait + Abort>(
    rt: &R,
    alloc: Global,
    office: &Office<L>,
    desk: &mut Desk<L>,
    b: BscId,
) {
    let put = Edit::Put(coast(rt, alloc), Selector::Cell(SEVEN));
    edits(rt, office, desk, Edit::AddBsc(b));
    edits(rt, office, desk, Edit::AddCell(SEVEN, b));
    edits(rt, office, desk, Edit::AddArea(coast(rt, alloc)));
    edits(rt, office, desk, put);
    enters(rt, office, desk, issue(rt, alloc));
    enters(rt, office, desk, Event::LinkUp(b));
}

/// An office whose journal holds so many entries, and its first desk. An order is pending over the link of the BSC.
pub(crate) fn linked<L: Ledger, R: Wait + Abort>(
    rt: &R,
    alloc: Global,
    blank: Blank,
    journal_limit: u32,
) -> (Office<L>, Desk<L>)
    requires name { blank.name ≡ L.name }
    requires parts { blank.parts ≡ L.parts }
    requires desks { blank.parts ≡ 1025 }
{
    let office = Office::new(alloc, blank, NETWORK, journal_limit.min(4_000_000));
    let mut desk = opens(rt, &office);
    links(rt, alloc, &office, &mut desk, first_bsc(rt));
    (office, desk)
}

/// The BSC of that link.
pub(crate) fn first_bsc(rt: &impl Abort) -> BscId {
    bsc(rt, 1)
}
