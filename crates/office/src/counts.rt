//! What an office counts.

ghost use Rattle.std.specs.Prelude.{◌≡◌, ◌<◌, IfErr, OnOk};
ghost use Rattle.office.specs.Counts.{cause_count, cause_number, kind_count, no_counts, with_entry, with_refusal, without_receipts};

use crate::event_kind::EventKind;
use centre_events::refusal::Refusal;

/// How many kinds of events there are.
const KINDS: usize = 21;

/// One more than the highest number of a refusal.
const CAUSES: usize = 38;

/// How many events of each kind were entered, how many events and questions were refused for each cause, and how many receipts
/// the desks keep. No count goes on above 2^64 - 1.
#[derive(Clone, Copy, Debug)]
pub struct Counts {
    entries: [u64; KINDS],
    refusals: [u64; CAUSES],
    receipts: u64,
}

/// The number of the cause; 0, which no cause has, for none.
fn cause_number(refusal: Refusal) -> usize
    ensures value { result ≡ cause_number refusal }
    ensures few { result < 38 }
{
    let number = usize::from(refusal.number());
    if number < CAUSES { number } else { 0 }
}

impl Counts {
    /// Nothing was counted.
    pub(crate) fn new() -> Counts
        ensures { result ≡ no_counts }
    {
        Counts {
            entries: [0; KINDS],
            refusals: [0; CAUSES],
            receipts: 0,
        }
    }

    /// An event of that kind was entered, for which a desk keeps a receipt.
    pub(crate) fn enter(&mut self, kind: EventKind)
        ensures { self.new ≡ with_entry kind self.old }
    {
        let k = kind.number();
        self.entries[k] = self.entries[k].saturating_add(1);
        self.receipts = self.receipts.saturating_add(1);
    }

    /// An event or a question was refused for that cause.
    pub(crate) fn refuse(&mut self, refusal: Refusal)
        ensures { self.new ≡ with_refusal refusal self.old }
    {
        let k = cause_number(refusal);
        self.refusals[k] = self.refusals[k].saturating_add(1);
    }

    /// An event of that kind was submitted, and answered so.
    pub(crate) fn count(&mut self, kind: EventKind, answer: Result<(), Refusal>)
        ensures entered { OnOk answer (self.new ≡ with_entry kind self.old) }
        ensures refused { IfErr answer (λ refusal. self.new ≡ with_refusal refusal self.old) }
    {
        match answer {
            Ok(()) => self.enter(kind),
            Err(refusal) => self.refuse(refusal),
        }
    }

    /// A desk let go of so many receipts.
    pub(crate) fn let_go(&mut self, receipts: u64)
        ensures { self.new ≡ without_receipts receipts self.old }
    {
        self.receipts = self.receipts.saturating_sub(receipts);
    }

    /// How many events of that kind were entered.
    pub fn entries(&self, kind: EventKind) -> u64
        ensures { result ≡ kind_count self.now kind }
    {
        self.entries[kind.number()]
    }

    /// How many events and questions were refused for that cause, whatever number that names.
    pub fn refusals(&self, refusal: Refusal) -> u64
        ensures { result ≡ cause_count self.now refusal }
    {
        self.refusals[cause_number(refusal)]
    }

    /// How many receipts the desks keep.
    pub fn receipts(&self) -> u64
        ensures { result ≡ self.now.receipts }
    {
        self.receipts
    }
}
