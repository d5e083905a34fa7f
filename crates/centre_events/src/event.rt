//! What can happen to a centre.

ghost use Rattle.std.specs.Prelude.{◌≡◌, ◌↔◌, true, IsTrue, IsOk, IfOk};
ghost use Rattle.centre_events.specs.Kept.{is_plain_event};
ghost use Rattle.centre_events.specs.Links.{bsc_of};

use cbsp_messages::Message;
use cell_register::BscId;
use common::Cell;
use coverage_plan::Edit;
use std::alloc::{AllocError, Global};
use warning_book::WarningId;

/// What can happen to a centre: an edit, a retry, a link, an order, a query or a report.
#[derive(Drop)]
pub enum Event {
    /// An edit of the register, of the areas or of the book.
    Edit(Edit),
    /// Orders again what a BSC refused: nothing is held back there any more.
    Retry(BscId),
    /// The link of a BSC has come up.
    LinkUp(BscId),
    /// The link of this generation is lost.
    LinkDown(BscId, u64),
    /// Takes the first pending order of a BSC, over the link of this generation.
    Send(BscId, u64),
    /// Asks a BSC, over the link of this generation, how often the current version of a warning was broadcast: in the first
    /// cells after that one, if one is given, in which it is on air.
    Ask(BscId, u64, WarningId, Option<Cell>),
    /// A message of a BSC, over the link of this generation.
    Report(BscId, u64, Message),
}

impl Event {
    /// The BSC of the event; none where it is an edit.
    pub fn bsc(&self) -> Option<BscId>
        ensures { result ≡ bsc_of self.now }
    {
        match self {
            Event::Edit(_) => None,
            Event::Retry(b)
            | Event::LinkUp(b)
            | Event::LinkDown(b, _)
            | Event::Send(b, _)
            | Event::Ask(b, _, _, _)
            | Event::Report(b, _, _) => Some(*b),
        }
    }

    /// The same event in memory of its own. It takes none where the event has no name, list, content or message.
    pub fn copied(&self, alloc: Global) -> Result<Event, AllocError>
        ensures copy { IfOk result (λ copy. copy ≡ self.now) }
        ensures plain { is_plain_event self.now ≡ true → IsOk result }
    {
        match self {
            Event::Edit(edit) => Ok(Event::Edit(edit.copied(alloc)?)),
            Event::Retry(bsc) => Ok(Event::Retry(*bsc)),
            Event::LinkUp(bsc) => Ok(Event::LinkUp(*bsc)),
            Event::LinkDown(bsc, generation) => Ok(Event::LinkDown(*bsc, *generation)),
            Event::Send(bsc, generation) => Ok(Event::Send(*bsc, *generation)),
            Event::Ask(bsc, generation, warning, after) => {
                Ok(Event::Ask(*bsc, *generation, *warning, *after))
            }
            Event::Report(bsc, generation, message) => {
                Ok(Event::Report(*bsc, *generation, message.copied(alloc)?))
            }
        }
    }

    pub fn same(&self, other: &Event) -> bool
        ensures { IsTrue result ↔ (self.now ≡ other.now) }
    {
        match (self, other) {
            (Event::Edit(e), Event::Edit(f)) => e.same(f),
            (Event::Retry(b), Event::Retry(d)) => b == d,
            (Event::LinkUp(b), Event::LinkUp(d)) => b == d,
            (Event::LinkDown(b, g), Event::LinkDown(d, h)) => b == d && g == h,
            (Event::Send(b, g), Event::Send(d, h)) => b == d && g == h,
            (Event::Ask(b, g, w, c), Event::Ask(d, h, v, e)) => {
                b == d && g == h && w == v && c == e
            }
            (Event::Report(b, g, m), Event::Report(d, h, n)) => b == d && g == h && m.same(n),
            _ => false,
        }
    }
}
