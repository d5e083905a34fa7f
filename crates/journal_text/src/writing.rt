//! The lines of a journal.

ghost use Rattle.std.specs.Prelude.{◌≡◌, Some, codes, IfOk};
ghost use Rattle.console_text.specs.declared.line.Line.TheVariants as request;
ghost use Rattle.journal_text.specs.Reading.{IsLineFor, request_of};

use crate::events::write_event;
use centre_events::entry::Entry;
use common::Octets;
use std::alloc::{AllocError, Global};

/// The line of the console that asks for the entry's event, without its end: at most 600,000 octets. `None` where the event
/// has no line: a name is none of an area's, pages can't be broadcast, the only area is named `-`, or no frame carries the
/// message. A generation isn't written: the line means the one that is kept for its BSC.
#[tactic(auto, using(crate::proofs::EventLemmas::line_for))]
pub fn line_of(alloc: Global, entry: &Entry) -> Result<Option<Octets>, AllocError>
    ensures { IfOk result (IsLineFor entry.now.event) }
{
    let mut line = Vec::new(alloc);
    if write_event(alloc, &mut line, &entry.event)? {
        Ok(Some(Octets::from_vec(line)))
    } else {
        Ok(None)
    }
}

/// The line that stands where the journal was folded.
pub fn checkpoint_line() -> &'static [u8]
    ensures text { result.now ≡ codes "checkpoint" }
    ensures asked { request_of result.now ≡ Some request.Checkpoint }
{
    b"checkpoint"
}
