//! What a gate is told.

ghost use Rattle.std.specs.Prelude.{◌≡◌};
ghost use Rattle.link_worker.specs.Passages.{report_passage, step_of};

use crate::gate::Step;
use centre_events::answer::Answer;

/// What passes a gate.
#[derive(Clone, Copy, Debug)]
pub enum Passage<'f> {
    /// This frame of an order or a query is to be written. Its entry is in the journal, at that place.
    Order(&'f [u8], u64),
    /// A report was entered that answered what was in flight.
    Reply,
    /// Another report was submitted: an indication, which was entered, or a reply to nothing in flight, which was refused
    /// (`NoOrder`).
    Report,
}

impl<'f> Passage<'f> {
    /// The step at which it passes.
    pub fn step(&self) -> Step
        ensures { result ≡ step_of self.now }
    {
        match self {
            Passage::Order(..) => Step::BeforeWrite,
            Passage::Reply | Passage::Report => Step::AfterReport,
        }
    }
}

/// What a report is that was entered, by its answer.
pub(crate) fn report_passage(answer: &Answer) -> Passage<'static>
    ensures { result ≡ report_passage answer.now }
{
    match answer {
        Answer::Replied(_) => Passage::Reply,
        _ => Passage::Report,
    }
}
