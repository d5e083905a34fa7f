//! The steps of a scenario, as rows: the event of a step is made each time that it is given to the centre.

use crate::checks::yes;
use areas::Selector;
use cbsp_messages::read;
use cell_register::BscId;
use centre_core::centre::Centre;
use centre_core::{Content, ContentPages, Notice, Scope, Serial, WarningId};
use centre_events::answer::Answer;
use centre_events::event::Event;
use centre_events::network::Network;
use centre_events::refusal::Refusal;
use common::{Cell, Name, Names, Octets};
use coverage_plan::Edit;
use std::alloc::{AllocError, Global};
use std::process::Abort;
use warning_book::{Category, CbsContent};

/// The network 001-01, in which messages are broadcast until they are killed.
pub(crate) const NETWORK: Network = Network {
    plmn: [0x00, 0xf1, 0x10],
    broadcasts: 0,
};

pub(crate) const SEVEN: Cell = Cell { lac: 100, ci: 7 };

pub(crate) const EIGHT: Cell = Cell { lac: 100, ci: 8 };

pub(crate) const COAST: &[u8] = b"Coast";

pub(crate) const HILLS: &[u8] = b"Hills";

pub(crate) const MESSAGE_ID: u16 = 4370;

/// The serial number of the first version of a first warning that is valid in one cell: 3 * 16384 and no more.
pub(crate) fn first_serial() -> Serial {
    Serial::from_u16(0xc000)
}

pub(crate) fn first_id() -> WarningId {
    WarningId::new(1)
}

/// The BSC of that number.
pub(crate) fn bsc(rt: &impl Abort, number: u16) -> BscId {
    BscId::new(number).expect(rt, "the number is a BSC's")
}

/// What an operator changes. A number is that of a BSC, and the warning is the first.
#[derive(Clone, Copy)]
pub(crate) enum Change {
    AddBsc(u16),
    RemoveBsc(u16),
    AddCell(Cell, u16),
    MoveCell(Cell, u16),
    RemoveCell(Cell),
    AddArea(&'static [u8]),
    DropArea(&'static [u8]),
    Put(&'static [u8], Selector),
    Cut(&'static [u8], Selector),
    /// Issues the warning on the coast.
    Issue,
    Update,
    Widen(&'static [u8]),
    Narrow(&'static [u8]),
    Stop,
    Forget,
}

/// A change, or what happens at the first BSC. A first number is the generation of its link.
#[derive(Clone, Copy)]
pub(crate) enum Step {
    Plan(Change),
    Retry,
    LinkUp,
    LinkDown(u64),
    Send(u64),
    /// The type and the body of the frame.
    Report(u64, u8, &'static [u8]),
}

pub(crate) fn name(alloc: Global, octets: &[u8]) -> Result<Name, AllocError> {
    Ok(Name::from_vec(Vec::from_slice(alloc, octets)?))
}

fn content(alloc: Global) -> Result<Content, AllocError> {
    let page = Octets::from_vec(Vec::from_slice(alloc, &[0xd4, 0xf2, 0x9c, 0x0e])?);
    let mut pages = Vec::new(alloc);
    pages.push(page)?;
    Ok(Content::Cbs(CbsContent {
        dcs: 15,
        category: Category::HighPriority,
        period: 30,
        pages: ContentPages::from_vec(pages),
    }))
}

pub(crate) fn notice(alloc: Global) -> Result<Notice, AllocError> {
    Ok(Notice {
        message_id: MESSAGE_ID,
        scope: Scope::Cell,
        content: content(alloc)?,
    })
}

pub(crate) fn names(alloc: Global, octets: &[u8]) -> Result<Names, AllocError> {
    let mut names = Vec::new(alloc);
    names.push(name(alloc, octets)?)?;
    Ok(Names::from_vec(names))
}

fn issue(alloc: Global) -> Result<Edit, AllocError> {
    let names = names(alloc, COAST)?;
    Ok(Edit::Issue(notice(alloc)?, names))
}

fn edit_of(rt: &impl Abort, alloc: Global, change: Change) -> Result<Edit, AllocError> {
    match change {
        Change::AddBsc(b) => Ok(Edit::AddBsc(bsc(rt, b))),
        Change::RemoveBsc(b) => Ok(Edit::RemoveBsc(bsc(rt, b))),
        Change::AddCell(cell, b) => Ok(Edit::AddCell(cell, bsc(rt, b))),
        Change::MoveCell(cell, b) => Ok(Edit::MoveCell(cell, bsc(rt, b))),
        Change::RemoveCell(cell) => Ok(Edit::RemoveCell(cell)),
        Change::AddArea(area) => Ok(Edit::AddArea(name(alloc, area)?)),
        Change::DropArea(area) => Ok(Edit::DropArea(name(alloc, area)?)),
        Change::Put(area, selector) => Ok(Edit::Put(name(alloc, area)?, selector)),
        Change::Cut(area, selector) => Ok(Edit::Cut(name(alloc, area)?, selector)),
        Change::Issue => issue(alloc),
        Change::Update => Ok(Edit::Update(first_id(), content(alloc)?)),
        Change::Widen(area) => Ok(Edit::Widen(first_id(), name(alloc, area)?)),
        Change::Narrow(area) => Ok(Edit::Narrow(first_id(), name(alloc, area)?)),
        Change::Stop => Ok(Edit::Stop(first_id())),
        Change::Forget => Ok(Edit::Forget(first_id())),
    }
}

fn report(
    alloc: Global,
    b: BscId,
    generation: u64,
    kind: u8,
    body: &[u8],
) -> Result<Event, AllocError> {
    match read(alloc, kind, body) {
        Ok(message) => Ok(Event::Report(b, generation, message)),
        Err(_) => Err(AllocError),
    }
}

fn made(rt: &impl Abort, alloc: Global, step: Step) -> Result<Event, AllocError> {
    let b = bsc(rt, 1);
    match step {
        Step::Plan(change) => Ok(Event::Edit(edit_of(rt, alloc, change)?)),
        Step::Retry => Ok(Event::Retry(b)),
        Step::LinkUp => Ok(Event::LinkUp(b)),
        Step::LinkDown(generation) => Ok(Event::LinkDown(b, generation)),
        Step::Send(generation) => Ok(Event::Send(b, generation)),
        Step::Report(generation, kind, body) => report(alloc, b, generation, kind, body),
    }
}

/// The event of the step; where memory ran out once it is made again.
pub(crate) fn event_of(rt: &impl Abort, alloc: Global, step: Step) -> Event {
    match made(rt, alloc, step) {
        Ok(event) => event,
        Err(_) => made(rt, alloc, step).expect(rt, "the event is made"),
    }
}

fn refusal_in(answer: &Result<Answer, Refusal>) -> Option<Refusal> {
    match answer {
        Ok(_) => None,
        Err(refusal) => Some(*refusal),
    }
}

/// What the event is refused with.
pub(crate) fn refusal(centre: &mut Centre, event: Event) -> Option<Refusal> {
    let answer = centre.accept(1, event);
    let refusal = refusal_in(&answer);
    drop(answer);
    refusal
}

/// The centre accepts the event of the step.
pub(crate) fn takes(rt: &impl Abort, alloc: Global, centre: &mut Centre, step: Step) {
    let event = event_of(rt, alloc, step);
    yes(rt, refusal(centre, event).is_none(), "the event is taken");
}
