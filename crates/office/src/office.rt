//! An office: one centre under one lock, for many callers.

ghost use Rattle.std.specs.Prelude.{◌≡◌, ◌≤◌, ◌<◌, ◌⊎◌, [], IfOk, IfErr, OnOk, OnErr};
ghost use Rattle.centre_core.specs.Centre.{Leaves};
ghost use Rattle.centre_past.specs.Legal.{Lawful, past};
ghost use Rattle.office.specs.Handing.{AreEntriesSomewhere, IsFoldedAfterSomewhere, IsProgressSomewhere};
ghost use Rattle.office.specs.Offices.{IsFoldedSomewhere, IsRefusedSomewhere, IsReleasedSomewhere, IsSameDesk, IsSeenSomewhere, IsSubmitted, IsUnseenSomewhere};
ghost use Rattle.office.specs.Releases.{LetsGo};
ghost use Rattle.office.specs.Sendings.{Enters, IsSent, IsUnsent, RefusesOf};
ghost use Rattle.office.specs.Shuffles.{IsSettled, IsUnsettled};
ghost use Rattle.office.specs.Statuses.{IsSurveySomewhere};
ghost use Rattle.office.specs.Wakes.{IsDueSomewhere};
ghost use Rattle.office.specs.Wishes.{IsUnwishedSomewhere, IsWishedSomewhere};

use crate::affected::Affected;
use crate::conditions::Conditions;
use crate::counting::count_sent;
use crate::counts::Counts;
use crate::desk::Desk;
use crate::entering::prepared;
use crate::entries::Entries;
use crate::event_kind::EventKind;
use crate::fault::Unsettled;
use crate::folded::Folded;
use crate::held::Held;
use crate::progress::Progress;
use crate::seen::Seen;
use crate::surveyed::Surveyed;
use crate::unsent::Unsent;
use crate::wake::Wake;
use crate::wish::Wish;
use cell_register::BscId;
use centre_core::centre::Centre;
use centre_events::event::Event;
use centre_events::network::Network;
use centre_events::refusal::{Limit, Refusal};
use centre_questions::question::Question;
use common::Cell;
use std::alloc::{AllocError, Global};
use std::sync::ledger::{Blank, Ledger};
use std::sync::{Condvar, Mutex, MutexGuard, Wait};
use warning_book::WarningId;

/// One centre, for as many callers as it opens desks for. Each call takes the one lock, and does under it what `Held` does.
pub struct Office<L: Ledger> {
    alloc: Global,
    pub(crate) held: Mutex<Held<L>>,
    /// On which those wait who have something to do for a link.
    pub(crate) conditions: Conditions,
    /// On which those wait who follow the journal.
    entered: Condvar,
    /// Whoever holds this and the lock took the lock first.
    counts: Mutex<Counts>,
}

/// Written out, so that no crate above proves anew how its parts are dropped.
impl<L: Ledger> Drop for Office<L> {
    fn drop(self) {
        let Office {
            alloc: _alloc,
            held: _held,
            conditions: _conditions,
            entered: _entered,
            counts: _counts,
        } = self;
    }
}

impl<L: Ledger> Office<L> {
    /// An office over a centre of the network without entries. The blank has a part for each desk that may be opened, and one more.
    pub fn new(alloc: Global, blank: Blank, network: Network, journal_limit: u32) -> Office<L>
        requires name { blank.name ≡ L.name }
        requires parts { blank.parts ≡ L.parts }
        requires desks { blank.parts ≡ 1025 }
        requires limit { journal_limit ≤ 4000000 }
    {
        let (book, rest) = blank.open::<L>();
        Office {
            alloc,
            held: Mutex::new(Held::new(alloc, network, journal_limit, book, rest)),
            conditions: Conditions::new(alloc),
            entered: Condvar::new(),
            counts: Mutex::new(Counts::new()),
        }
    }

    /// Opens one more desk: the first is 1. `Limit` after 1,024 desks, then `Memory`.
    pub fn open_desk<R: Wait>(&self, rt: &R) -> Result<Desk<L>, Refusal>
        ensures number { IfOk result (λ d. (0 < d.number) × (d.number ≤ 1024)) }
        ensures receipts { IfOk result (λ d. d.receipts ≡ []) }
        ensures refused { IfErr result (λ r. (r ≡ Refusal.Memory) ⊎ (r ≡ Refusal.Limit Limit.Desks)) }
    {
        self.held.lock(rt).open()
    }

    /// Takes an event that the desk submits. Where it is accepted, the desk gets its receipt; where it is refused, the desk is as
    /// it was, but for its room. `Memory` may come before the centre looked at the event.
    pub fn submit<R: Wait>(&self, rt: &R, desk: &mut Desk<L>, event: Event) -> Result<(), Refusal>
        ensures submitted { OnOk result (IsSubmitted desk.old event desk.new) }
        ensures refused { IfErr result (IsRefusedSomewhere desk.old event) }
        ensures unchanged { OnErr result (desk.new ≡ record desk.old { spare = desk.new.spare }) }
    {
        let mut guard = self.hold(rt);
        self.submit_in(rt, &mut guard, desk, event)
    }

    /// Takes the lock for several events: for as long as what is handed out is there, no other caller goes on.
    pub fn hold<R: Wait>(&self, rt: &R) -> MutexGuard<'_, Held<L>> {
        self.held.lock(rt)
    }

    /// Takes an event as `submit` does, in a hold of the lock of this office. Beside the event that is accepted nothing changes there, but
    /// that the centre may be stale after memory ran out.
    pub fn submit_in<R: Wait>(
        &self,
        rt: &R,
        held: &mut Held<L>,
        desk: &mut Desk<L>,
        event: Event,
    ) -> Result<(), Refusal>
        ensures submitted { OnOk result (IsSubmitted desk.old event desk.new) }
        ensures refused { IfErr result (IsRefusedSomewhere desk.old event) }
        ensures unchanged { OnErr result (desk.new ≡ record desk.old { spare = desk.new.spare }) }
        ensures entered { OnOk result (Enters event held.old desk.old held.new desk.new) }
        ensures cause { IfErr result (λ r. (r ≡ Refusal.Memory) ⊎ RefusesOf event held.old desk.old r) }
        ensures left { IfErr result (λ r. Leaves held.old.centre r held.new.centre) }
        ensures others { OnErr result (held.new ≡ record held.old { centre = held.new.centre }) }
    {
        let Ok(copy) = prepared(self.alloc, desk, &event) else {
            drop(event);
            return Err(self.refuse(rt, Refusal::Memory));
        };
        let kind = EventKind::of(&event);
        held.tell_soundness();
        let affected = held.affected_by(&event);
        let result = held.submit(desk, event, copy);
        self.counts.lock(rt).count(kind, result);
        self.entered.notify_all();
        let entered = affected.if_entered(result);
        self.conditions.wake(rt, held, &entered);
        result
    }

    /// Puts a question of the desk's caller, whose answer is copied.
    pub fn look<R: Wait>(&self, rt: &R, desk: &Desk<L>, question: Question) -> Result<Seen, Refusal>
        ensures seen { IfOk result (IsSeenSomewhere desk.now question) }
        ensures refused { IfErr result (IsUnseenSomewhere desk.now question) }
    {
        let mut guard = self.held.lock(rt);
        guard.tell_soundness();
        let look = guard.look(desk, question);
        self.count_refused(rt, &look);
        look
    }

    /// The refusal, which is counted.
    fn refuse<R: Wait>(&self, rt: &R, refusal: Refusal) -> Refusal
        ensures { result ≡ refusal }
    {
        self.counts.lock(rt).refuse(refusal);
        refusal
    }

    /// Counts the refusal, if the answer is one.
    fn count_refused<T, R: Wait>(&self, rt: &R, answer: &Result<T, Refusal>) {
        if let Err(refusal) = answer {
            self.counts.lock(rt).refuse(*refusal);
        }
    }

    /// What is seen of the whole centre now, and what was counted by then, in one hold of the lock. At an `Err` there was no memory
    /// for it.
    pub fn survey<R: Wait>(&self, rt: &R) -> Result<Surveyed, AllocError>
        ensures { IfOk result (λ s. IsSurveySomewhere s.survey) }
    {
        let guard = self.held.lock(rt);
        guard.tell_soundness();
        let survey = guard.survey()?;
        let counts = *self.counts.lock(rt);
        Ok(Surveyed { survey, counts })
    }

    /// Keeps a wish to ask the BSC about a warning, in the cells after that one. A BSC has one wish, the latest. `Stale`, then
    /// `NoSuchBsc`, then `NoSuchWarning`, then `Memory`, which doesn't come where it takes an earlier one's place.
    pub fn wish<R: Wait>(
        &self,
        rt: &R,
        b: BscId,
        warning: WarningId,
        after: Option<Cell>,
    ) -> Result<(), Refusal>
        ensures wished { OnOk result (IsWishedSomewhere b warning after) }
        ensures refused { IfErr result (IsUnwishedSomewhere b warning) }
    {
        let mut guard = self.held.lock(rt);
        guard.tell_soundness();
        let result = guard.wish(Wish {
            bsc: b,
            warning,
            after,
        });
        let affected = Affected::These(Some(b), None);
        self.conditions.wake(rt, &guard, &affected);
        self.count_refused(rt, &result);
        result
    }

    /// Waits until there is something to do for the link of that generation: the centre is stale, or the link isn't up, or an order
    /// is pending and nothing is in flight, or nothing of either and a query is wished for, which takes the wish out. Where the
    /// link is up and the journal is full it answers `Order`, whose event is then refused.
    #[tactic(auto, using(crate::proofs::WishLemmas::due_if))]
    ///
    /// Before it waits, and each time entries are folded, the desk of the side lets go of its receipts of folded entries.
    pub fn wait_pending<R: Wait>(
        &self,
        rt: &R,
        desk: &mut Desk<L>,
        b: BscId,
        generation: u64,
    ) -> Wake
        ensures due { IsDueSomewhere b generation result }
        ensures same { IsSameDesk desk.old desk.new }
    {
        for _ in rt.forever() {
            let folded = self.release(rt, desk);
            let mut guard = self.conditions.wait(rt, &self.held, b, generation, folded);
            guard.tell_soundness();
            if let Some(wake) = guard.take_wake(b, generation) {
                return wake;
            }
        }
        unreachable!()
    }

    /// Waits until there is something to do for the link of that generation, as `wait_pending` does, and enters it in the same hold of
    /// the lock: an order by a Send of the desk, a query by an Ask, which takes the wish out whatever it is answered. So an order is
    /// never refused since another was sent meanwhile.
    ///
    /// At `Ok` the desk's latest receipt has the message. `Ended` where the link isn't up, `StaleCentre`, or else what the event
    /// is refused for; `JournalFull` where the journal is full and the link up, `Memory` where there is none for the receipt.
    pub fn send_due<R: Wait>(
        &self,
        rt: &R,
        desk: &mut Desk<L>,
        b: BscId,
        generation: u64,
    ) -> Result<(), Unsent>
        ensures sent { OnOk result (IsSent b generation desk.old desk.new) }
        ensures unsent { IfErr result (IsUnsent b generation desk.new) }
        ensures same { OnErr result (IsSameDesk desk.old desk.new) }
    {
        for _ in rt.forever() {
            let folded = self.release(rt, desk);
            let mut guard = self.conditions.wait(rt, &self.held, b, generation, folded);
            guard.tell_soundness();
            if let Some(result) = guard.send_due(desk, b, generation) {
                count_sent(&mut self.counts.lock(rt), desk, &result);
                self.entered.notify_all();
                self.conditions.wake(rt, &guard, &Affected::None);
                return result;
            }
        }
        unreachable!()
    }

    /// Has the desk let go of its receipts of folded entries, and answers how many entries are folded. Where memory runs out it
    /// keeps them until the next time.
    pub fn release<R: Wait>(&self, rt: &R, desk: &mut Desk<L>) -> u64
        ensures { IsReleasedSomewhere desk.old desk.new result }
    {
        let guard = self.held.lock(rt);
        guard.tell_soundness();
        let folded = guard.folded();
        drop(guard);
        self.let_go(rt, desk, folded);
        folded
    }

    /// Has the desk let go of its receipts of so many folded entries, in a hold of the lock or without. Where memory runs out it keeps
    /// them until the next time.
    pub fn let_go<R: Wait>(&self, rt: &R, desk: &mut Desk<L>, folded: u64)
        ensures { LetsGo folded desk.old desk.new }
    {
        let count = desk.receipts().len();
        let _ = desk.release(folded);
        self.count_released(rt, count, desk.receipts().len());
    }

    /// Counts the receipts that a desk let go of: it had so many, and has so many now.
    fn count_released<R: Wait>(&self, rt: &R, before: usize, now: usize) {
        let gone = before.saturating_sub(now);
        if gone > 0 {
            self.counts.lock(rt).let_go(gone as u64);
        }
    }

    /// Folds the entries of the journal, and answers how many there were: `Stale`, then `Memory`, or else the journal is empty, and
    /// all that the past says is as before. It isn't an event. Those who wait are woken, since their desks may let go of receipts,
    /// and wait on.
    pub fn checkpoint<R: Wait>(&self, rt: &R) -> Result<u64, Refusal>
        ensures folded { IfOk result IsFoldedSomewhere }
        ensures refused { IfErr result (λ r. (r ≡ Refusal.Stale) ⊎ (r ≡ Refusal.Memory)) }
    {
        let mut guard = self.held.lock(rt);
        guard.tell_soundness();
        let result = guard.checkpoint();
        if result.is_ok() {
            self.conditions.wake_all(rt);
        }
        result
    }

    /// Copies of the entries behind that place, the oldest first, at most so many, and how many of those behind it can't be handed
    /// out any more, since they are folded. At an `Err` there was no memory for the copies.
    pub fn entries<R: Wait>(&self, rt: &R, after: u64, most: u64) -> Result<Entries, AllocError>
        ensures { IfOk result (AreEntriesSomewhere after most) }
    {
        let mut guard = self.held.lock(rt);
        guard.tell_soundness();
        guard.entries(after, most)
    }

    /// Folds the entries of the journal as `checkpoint` does, and hands out copies of all those behind that place, in one hold of
    /// the lock. `Stale`, then `Memory`, where there is none for the copies or for the fold; then nothing is folded.
    pub fn checkpoint_after<R: Wait>(&self, rt: &R, after: u64) -> Result<Folded, Refusal>
        ensures folded { IfOk result (IsFoldedAfterSomewhere after) }
        ensures refused { IfErr result (λ r. (r ≡ Refusal.Stale) ⊎ (r ≡ Refusal.Memory)) }
    {
        let mut guard = self.held.lock(rt);
        guard.tell_soundness();
        let result = guard.checkpoint_after(after);
        self.conditions.wake_all(rt);
        result
    }

    /// Waits until there are more entries than `after`, or until `interrupt` was called since it had been called so often.
    pub fn wait_entries<R: Wait>(&self, rt: &R, after: u64, interrupts: u64) -> Progress
        ensures { IsProgressSomewhere after interrupts result }
    {
        for _ in rt.forever() {
            let guard = self.entered.wait_while(rt, self.held.lock(rt), |held| {
                held.position() <= after && held.interrupts() == interrupts
            });
            guard.tell_soundness();
            let position = guard.position();
            let now = guard.interrupts();
            if position > after || now != interrupts {
                return Progress {
                    position,
                    interrupts: now,
                };
            }
        }
        unreachable!()
    }

    /// Has all who wait for entries go on.
    pub fn interrupt<R: Wait>(&self, rt: &R) {
        self.held.lock(rt).interrupt();
        self.entered.notify_all();
    }

    /// Ends the office, once all desks are handed in: the entries of its centre are a shuffle of their receipts. Else the centre
    /// and the desks are handed back, with what is wrong. This takes no memory and no lock.
    pub fn settle(self, desks: Vec<Desk<L>>) -> Result<Centre, Unsettled<L>>
        ensures settled { IfOk result (λ c. IsSettled c.known desks.items) }
        ensures lawful { IfOk result (λ c. Lawful c.known.settings (past c.known)) }
        ensures fault { IfErr result (λ u. IsUnsettled u.centre.known desks.items u.fault) }
        ensures lawful_fault { IfErr result (λ u. Lawful u.centre.known.settings (past u.centre.known)) }
        ensures desks { IfErr result (λ u. u.desks ≡ desks) }
    {
        let Office {
            alloc: _,
            held,
            conditions: _conditions,
            entered: _entered,
            counts: _counts,
        } = self;
        let held = held.into_inner();
        held.tell_soundness();
        held.settle(desks)
    }
}
