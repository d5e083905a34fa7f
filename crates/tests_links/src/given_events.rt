//! What the offices of the tests are given: a network, BSCs, cells, an area, and a warning.

use cell_register::BscId;
use centre_events::event::Event;
use centre_events::network::Network;
use common::{Cell, Name, Names, Octets};
use coverage_plan::Edit;
use serials::{Scope, Serial};
use std::alloc::Global;
use std::process::Abort;
use warning_book::{Category, CbsContent, Content, ContentPages, Notice, WarningId};

/// The network 001-01, in which messages are broadcast until they are killed.
pub(crate) const NETWORK: Network = Network {
    plmn: [0x00, 0xf1, 0x10],
    broadcasts: 0,
};

pub(crate) const SEVEN: Cell = Cell { lac: 100, ci: 7 };

pub(crate) const EIGHT: Cell = Cell { lac: 100, ci: 8 };

pub(crate) const MESSAGE_ID: u16 = 4370;

/// The serial number of the first version of a first warning that is valid in one cell: 3 * 16384 and no more.
pub(crate) fn first_serial() -> Serial {
    Serial::from_u16(0xc000)
}

pub(crate) fn first_warning() -> WarningId {
    WarningId::new(1)
}

/// The BSC of that number.
pub(crate) fn bsc(rt: &impl Abort, number: u16) -> BscId {
    BscId::new(number).expect(rt, "the number is a BSC's")
}

pub(crate) fn coast(rt: &impl Abort, alloc: Global) -> Name {
    Name::from_vec(Vec::from_slice(alloc, b"Coast").expect(rt, "memory"))
}

/// The coast alone.
fn the_coast(rt: &impl Abort, alloc: Global) -> Names {
    let mut names = Vec::new(alloc);
    names.push(coast(rt, alloc)).expect(rt, "memory");
    Names::from_vec(names)
}

/// A page of four octets.
pub(crate) fn content(rt: &impl Abort, alloc: Global) -> Content {
    let page = Vec::from_slice(alloc, &[0xd4, 0xf2, 0x9c, 0x0e]).expect(rt, "memory");
    let mut pages = Vec::new(alloc);
    pages.push(Octets::from_vec(page)).expect(rt, "memory");
    Content::Cbs(CbsContent {
        dcs: 15,
        category: Category::HighPriority,
        period: 30,
        pages: ContentPages::from_vec(pages),
    })
}

/// Issues a warning on the coast.
pub(crate) fn issue(rt: &impl Abort, alloc: Global) -> Event {
    let notice = Notice {
        message_id: MESSAGE_ID,
        scope: Scope::Cell,
        content: content(rt, alloc),
    };
    Event::Edit(Edit::Issue(notice, the_coast(rt, alloc)))
}
