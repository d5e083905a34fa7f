//! What the desks submit: events of the first BSC, of its eight cells, of the coast, which is their location area, and of the
//! first warning.

use areas::Selector;
use cbsp_messages::read;
use cell_register::BscId;
use centre_events::event::Event;
use centre_events::network::Network;
use common::{Cell, Name, Names, Octets};
use coverage_plan::Edit;
use serials::Scope;
use std::alloc::{AllocError, Global};
use warning_book::{Category, CbsContent, Content, ContentPages, Notice, WarningId};

/// The network 001-01, in which messages are broadcast until they are killed.
pub(crate) const NETWORK: Network = Network {
    plmn: [0x00, 0xf1, 0x10],
    broadcasts: 0,
};

/// The location area of the cells.
const LAC: u16 = 100;

/// The generation of the link, which comes up in the thirteenth entry.
pub(crate) const LINK: u64 = 13;

/// The body of the WRITE-REPLACE COMPLETE of the first order, with the cells 7 to 14.
const COMPLETE: [u8; 44] = [
    0x0e, 0x11, 0x12, 0x03, 0xc0, 0x00, 0x04, 0x00, 0x21, 0x01, 0x00, 0x64, 0x00, 0x07, 0x00, 0x64,
    0x00, 0x08, 0x00, 0x64, 0x00, 0x09, 0x00, 0x64, 0x00, 0x0a, 0x00, 0x64, 0x00, 0x0b, 0x00, 0x64,
    0x00, 0x0c, 0x00, 0x64, 0x00, 0x0d, 0x00, 0x64, 0x00, 0x0e, 0x12, 0x00,
];

/// What a desk submits.
#[derive(Clone, Copy)]
pub(crate) enum Step {
    AddBsc,
    /// The cell of that cell identity.
    AddCell(u16),
    AddArea,
    Put,
    Issue,
    LinkUp,
    Send,
    Complete,
    Update,
}

impl Step {
    /// The word for it.
    pub(crate) fn word(self) -> &'static str {
        match self {
            Step::AddBsc => "bsc",
            Step::AddCell(_) => "cell",
            Step::AddArea => "area",
            Step::Put => "put",
            Step::Issue => "issue",
            Step::LinkUp => "up",
            Step::Send => "send",
            Step::Complete => "complete",
            Step::Update => "update",
        }
    }
}

pub(crate) fn first_warning() -> WarningId {
    WarningId::new(1)
}

fn coast(alloc: Global) -> Result<Name, AllocError> {
    Ok(Name::from_vec(Vec::from_slice(alloc, b"Coast")?))
}

fn coast_alone(alloc: Global) -> Result<Names, AllocError> {
    let mut names = Vec::new(alloc);
    names.push(coast(alloc)?)?;
    Ok(Names::from_vec(names))
}

/// A page of four octets.
fn content(alloc: Global) -> Result<Content, AllocError> {
    let page = Octets::from_vec(Vec::from_slice(alloc, &[0xd4, 0xf2, 0x9c, 0x0e])?);
    let mut pages = Vec::new(alloc);
    pages.push(page)?;
    Ok(Content::Cbs(CbsContent {
        dcs: 15,
        category: Category::HighPriority,
        period: 30,
        pages: ContentPages::from_vec(pages),
    }))
}

fn issue(alloc: Global) -> Result<Edit, AllocError> {
    let names = coast_alone(alloc)?;
    let notice = Notice {
        message_id: 4370,
        scope: Scope::Cell,
        content: content(alloc)?,
    };
    Ok(Edit::Issue(notice, names))
}

fn complete(alloc: Global, b: BscId) -> Result<Event, AllocError> {
    match read(alloc, 0x02, &COMPLETE) {
        Ok(message) => Ok(Event::Report(b, LINK, message)),
        Err(_) => Err(AllocError),
    }
}

/// The event of the step.
pub(crate) fn event_of(alloc: Global, b: BscId, step: Step) -> Result<Event, AllocError> {
    match step {
        Step::AddBsc => Ok(Event::Edit(Edit::AddBsc(b))),
        Step::AddCell(ci) => Ok(Event::Edit(Edit::AddCell(Cell { lac: LAC, ci }, b))),
        Step::AddArea => Ok(Event::Edit(Edit::AddArea(coast(alloc)?))),
        Step::Put => Ok(Event::Edit(Edit::Put(coast(alloc)?, Selector::Lac(LAC)))),
        Step::Issue => Ok(Event::Edit(issue(alloc)?)),
        Step::LinkUp => Ok(Event::LinkUp(b)),
        Step::Send => Ok(Event::Send(b, LINK)),
        Step::Complete => complete(alloc, b),
        Step::Update => Ok(Event::Edit(Edit::Update(first_warning(), content(alloc)?))),
    }
}
