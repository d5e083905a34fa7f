//! A start enters a line of a kept file into an office, in a hold of its lock.

ghost use Rattle.std.specs.Prelude.{◌≡◌, ◌≢◌, ℕ, true, false, Some, Err, IfOk, IfErr, OnOk, OnErr};
ghost use Rattle.centre_events.specs.Links.{is_bsc};
ghost use Rattle.centre_events.specs.Verdict.{verdict};
ghost use Rattle.centre_events.specs.declared.refusal.Refusal.{Refusal as Cause};
ghost use Rattle.centre_past.specs.Legal.{Known, checkpointed, past};
ghost use Rattle.console_text.specs.Events.{IsLineEvent, link_of};
ghost use Rattle.console_text.specs.declared.line.Line.TheVariants as line;
ghost use Rattle.console_text.specs.declared.line_event.LineEvent.{LineEvent as Came};
ghost use Rattle.console_text.specs.declared.line_event.LineEvent.TheVariants as came;
ghost use Rattle.journal_laws.specs.Starts.{ComesTo, EntersEvent, EntersRequest, IsLeft, IsNoEvent, IsNotTaken, IsRefused, IsStarved, MayFold, RefusesRequest, TakesLine, TakesRequest, generation_for};
ghost use Rattle.journal_office.specs.Entered.{fault_of};

use centre_events::event::Event;
use centre_events::refusal::Refusal;
use console_text::events::{event_of, link_of};
use console_text::line::Line;
use console_text::line_event::LineEvent;
use console_text::text_fault::TextFault;
use journal_file::NotTaken;
use journal_text::request_of;
use office::desk::Desk;
use office::held::Held;
use office::office::Office;
use std::alloc::Global;
use std::sync::Wait;
use std::sync::ledger::Ledger;

/// A start, which enters into an office. Its journal is folded after every so many entries, which are at most its limit.
#[derive(Drop)]
pub struct Start<'a, L: Ledger, R: Wait> {
    pub rt: &'a R,
    pub alloc: Global,
    pub office: &'a Office<L>,
    pub every: u64,
}

/// What the refusal of an event says of its line. No line is at fault where memory ran out, now or before, or where the desk is of
/// another office.
pub(crate) fn not_taken(refusal: Refusal) -> NotTaken
    ensures { result ≡ fault_of refusal }
{
    match refusal {
        Refusal::Memory | Refusal::Stale | Refusal::WrongDesk { position: _ } => NotTaken::Memory,
        _ => NotTaken::BadLine,
    }
}

/// Whether the request is a checkpoint.
fn is_checkpoint(request: &Line) -> bool
    ensures is { result ≡ true → request.now ≡ line.Checkpoint }
    ensures differs { result ≡ false → request.now ≢ line.Checkpoint }
{
    matches!(request, Line::Checkpoint)
}

/// The generation of the latest link of which the request speaks, as the centre knows it; 0 where it speaks of none.
fn generation_for<L: Ledger>(held: &Held<L>, request: &Line) -> Result<u64, NotTaken>
    ensures generation { IfOk result (λ g. g ≡ generation_for (past held.now.centre) (link_of request.now)) }
    ensures bad { IfErr result (λ f. f ≡ NotTaken.BadLine → (b : ℕ) × (link_of request.now ≡ Some b) × (is_bsc (past held.now.centre) b ≡ false)) }
{
    let Some(bsc) = link_of(request) else {
        return Ok(0);
    };
    match held.link_of(bsc) {
        Ok(link) => Ok(link.last),
        Err(Refusal::NoSuchBsc) => Err(NotTaken::BadLine),
        Err(_) => Err(NotTaken::Memory),
    }
}

/// The event of a request, over the link of that generation.
fn event_for(alloc: Global, request: Line, generation: u64) -> Result<Event, NotTaken>
    ensures event { IfOk result (λ e. IsLineEvent generation request (came.Event e)) }
    ensures bad { IfErr result (λ f. f ≡ NotTaken.BadLine → (x : Came) × IsNoEvent x × IsLineEvent generation request x) }
{
    match event_of(alloc, request, generation) {
        Ok(LineEvent::Event(event)) => Ok(event),
        Ok(LineEvent::Bad(TextFault::Memory)) => Err(NotTaken::Memory),
        Ok(LineEvent::Bad(_)) => Err(NotTaken::BadLine),
        Ok(LineEvent::Other(other)) => {
            drop(other);
            Err(NotTaken::BadLine)
        }
        Err(_) => Err(NotTaken::Memory),
    }
}

/// The event of a request, over the latest link of its BSC that the centre knows.
#[tactic(auto, using(crate::proofs::TakingLemmas::comes_if, crate::proofs::TakingLemmas::bad_event, crate::proofs::TakingLemmas::bad_generation))]
fn event_in<L: Ledger>(alloc: Global, held: &Held<L>, request: Line) -> Result<Event, NotTaken>
    ensures comes { IfOk result (λ e. ComesTo (past held.now.centre) request (came.Event e)) }
    ensures bad { IfErr result (λ f. f ≡ NotTaken.BadLine → IsRefused held.now.centre request) }
{
    let generation = generation_for(held, &request)?;
    event_for(alloc, request, generation)
}

impl<L: Ledger, R: Wait> Start<'_, L, R> {
    /// Folds the journal, and lets go of the receipts of its entries.
    pub(crate) fn fold(&self, held: &mut Held<L>, desk: &mut Desk<L>) -> Result<(), NotTaken>
        ensures folded { OnOk result (held.new.centre ≡ checkpointed held.old.centre) }
        ensures unchanged { OnErr result (held.new.centre ≡ held.old.centre) }
        ensures memory { IfErr result (λ f. f ≡ NotTaken.Memory) }
    {
        match held.checkpoint() {
            Ok(_) => {
                self.office.let_go(self.rt, desk, held.folded());
                Ok(())
            }
            Err(_) => Err(NotTaken::Memory),
        }
    }

    /// Folds the journal where that is due.
    fn fold_if_due(&self, held: &mut Held<L>, desk: &mut Desk<L>) -> Result<(), NotTaken>
        ensures folded { OnOk result (MayFold held.old.centre held.new.centre) }
        ensures unchanged { OnErr result (held.new.centre ≡ held.old.centre) }
        ensures memory { IfErr result (λ f. f ≡ NotTaken.Memory) }
    {
        if held.unfolded() >= self.every {
            self.fold(held, desk)
        } else {
            Ok(())
        }
    }

    /// Submits an event.
    #[tactic(auto, using(crate::proofs::TakingLemmas::event_entered, crate::proofs::TakingLemmas::event_refused, crate::proofs::TakingLemmas::starved_by))]
    pub(crate) fn submit(
        &self,
        held: &mut Held<L>,
        desk: &mut Desk<L>,
        event: Event,
    ) -> Result<(), NotTaken>
        ensures entered { OnOk result (EntersEvent held.old.centre event held.new.centre) }
        ensures bad { IfErr result (λ f. f ≡ NotTaken.BadLine → (r : Cause) × (verdict held.old.centre.settings (past held.old.centre) event ≡ Err r)) }
        ensures left { OnErr result (IsStarved held.old.centre held.new.centre) }
    {
        match self.office.submit_in(self.rt, held, desk, event) {
            Ok(()) => Ok(()),
            Err(refusal) => Err(not_taken(refusal)),
        }
    }

    /// Enters the event of a request.
    #[tactic(auto, using(crate::proofs::TakingLemmas::request_entered, crate::proofs::TakingLemmas::bad_submit))]
    fn take_request(
        &self,
        held: &mut Held<L>,
        desk: &mut Desk<L>,
        request: Line,
    ) -> Result<(), NotTaken>
        ensures entered { OnOk result (EntersRequest held.old.centre request held.new.centre) }
        ensures bad { IfErr result (λ f. f ≡ NotTaken.BadLine → IsRefused held.old.centre request) }
        ensures left { OnErr result (IsStarved held.old.centre held.new.centre) }
    {
        let event = event_in(self.alloc, held, request)?;
        self.submit(held, desk, event)
    }

    /// Enters the event of a request, and folds the journal before it where that is due.
    #[tactic(auto, using(crate::proofs::TakingLemmas::no_bad, crate::proofs::TakingLemmas::left_as_before, crate::proofs::TakingLemmas::left_behind))]
    fn take_behind_fold(
        &self,
        held: &mut Held<L>,
        desk: &mut Desk<L>,
        request: Line,
    ) -> Result<(), NotTaken>
        ensures entered { OnOk result ((mid : Known) × MayFold held.old.centre mid × EntersRequest mid request held.new.centre) }
        ensures bad { IfErr result (λ f. f ≡ NotTaken.BadLine → (mid : Known) × MayFold held.old.centre mid × IsRefused mid request) }
        ensures left { OnErr result (IsLeft held.old.centre held.new.centre) }
    {
        self.fold_if_due(held, desk)?;
        self.take_request(held, desk, request)
    }

    /// Takes a request: a checkpoint folds the journal.
    #[tactic(auto, using(crate::proofs::TakingLemmas::request_folds, crate::proofs::TakingLemmas::request_taken, crate::proofs::TakingLemmas::request_refused, crate::proofs::TakingLemmas::no_bad, crate::proofs::TakingLemmas::left_as_before))]
    fn take_any(
        &self,
        held: &mut Held<L>,
        desk: &mut Desk<L>,
        request: Line,
    ) -> Result<(), NotTaken>
        ensures taken { OnOk result (TakesRequest held.old.centre request held.new.centre) }
        ensures bad { IfErr result (λ f. f ≡ NotTaken.BadLine → RefusesRequest held.old.centre request) }
        ensures left { OnErr result (IsLeft held.old.centre held.new.centre) }
    {
        if is_checkpoint(&request) {
            drop(request);
            self.fold(held, desk)
        } else {
            self.take_behind_fold(held, desk, request)
        }
    }

    /// Takes the next line, which is given without its end: a checkpoint folds the journal, and any other is entered as the event that
    /// it asks for, over the link that the office knows. The journal is folded before it where that is due.
    #[tactic(auto, using(crate::proofs::TakingLemmas::line_taken, crate::proofs::TakingLemmas::line_refused, crate::proofs::TakingLemmas::line_of_nothing, crate::proofs::TakingLemmas::left_as_before))]
    pub fn take_line(
        &self,
        held: &mut Held<L>,
        desk: &mut Desk<L>,
        line: &[u8],
    ) -> Result<(), NotTaken>
        ensures taken { OnOk result (TakesLine held.old.centre line.now held.new.centre) }
        ensures bad { IfErr result (λ f. f ≡ NotTaken.BadLine → IsNotTaken held.old.centre line.now) }
        ensures left { OnErr result (IsLeft held.old.centre held.new.centre) }
    {
        match request_of(self.alloc, line) {
            Ok(Some(request)) => self.take_any(held, desk, request),
            Ok(None) => Err(NotTaken::BadLine),
            Err(_) => Err(NotTaken::Memory),
        }
    }
}
