//! The journal of a centre: its entries can be added to, counted, read and let go, and nothing else.

ghost use Rattle.std.specs.Prelude.{◌≡◌, ◌<◌, ◌≤◌, ◌+◌, ◌-◌, ◌^◌, ◌++◌, ◌∷◌, ◌||◌, [], length, nat_le, slice_get, OnOk, ⊤, if◌then◌else◌};
ghost use Rattle.std.specs.Borrow.{sem, follows_so};
ghost use Rattle.std.specs.Option.{option_copied};
ghost use mathlib.Core.Option.{none};
ghost use Rattle.mirror.specs.Table.{counted};
ghost use Rattle.centre_core.specs.contracts.journal.Journal.{the_row};
ghost use Rattle.centre_core.specs.Centre.{past_over};
ghost use Rattle.centre_events.specs.Past.{past_of};
ghost use Rattle.centre_events.specs.Verdict.{last_position};
ghost use Rattle.centre_past.specs.Alike.{SaysTheSame};

use centre_events::entry::Entry;
use histories::History;
use std::alloc::{AllocError, Global};
use std::marker::Model;

/// The entries, the oldest first, each of which has a number, from 1. Those that were folded away are counted, and only
/// proofs know them. The others are lent by `read` alone, one at a time, and each of its calls is counted.
#[derive(Drop)]
pub(crate) struct Journal {
    history: History<Entry>,
    folded: u64,
    entries: Vec<Entry>,
    reads: u64,
}

impl Model for Journal {
    ghost use Rattle.std.specs.Prelude.{◌≡◌, ◌<◌, ◌+◌, ◌-◌, ◌^◌, length};
    ghost use Rattle.std.specs.Vec.{vec_len, vec_capacity};
    ghost use Rattle.centre_core.specs.Journal.{JournalState, IsNumbered};

    ghost Value = { JournalState };

    ghost view = { λ j. record { folded = j.history.items; entries = j.entries.items; reads = j.reads; room = vec_capacity j.entries - vec_len j.entries } };

    ghost invariant = { λ j. IsNumbered j.folded j.history.items j.entries.items };
}

impl Journal {
    /// Without entries and room, and nothing read.
    pub(crate) fn new(alloc: Global) -> Journal
        ensures { result ≡ record { folded = []; entries = []; reads = 0; room = 0 } }
    {
        Journal {
            history: History::new(),
            folded: 0,
            entries: Vec::new(alloc),
            reads: 0,
        }
    }

    /// The number of entries that weren't folded away.
    pub(crate) fn len(&self) -> u64
        ensures { result ≡ length self.now.entries }
    {
        self.entries.len() as u64
    }

    /// The number of entries that were folded away.
    pub(crate) fn folded(&self) -> u64
        ensures { result ≡ length self.now.folded }
    {
        self.folded
    }

    /// The number of the last entry, 0 where there was none.
    pub(crate) fn position(&self) -> u64
        ensures value { result ≡ length self.now.folded + length self.now.entries }
        ensures fits { length self.now.folded + length self.now.entries < 2 ^ 64 }
    {
        self.folded + self.entries.len() as u64
    }

    /// Whether no entry can be added: where so many are the most, or the last number is taken.
    pub(crate) fn is_full(&self, limit: u32) -> bool
        ensures { result ≡ (nat_le limit (length self.now.entries) || nat_le last_position (length self.now.folded + length self.now.entries)) }
    {
        self.len() >= u64::from(limit) || self.position() >= u64::MAX
    }

    /// How often entries were read, up to the greatest value, which stays.
    pub(crate) fn entries(&self) -> u64
        ensures { result ≡ self.now.reads }
    {
        self.reads
    }

    /// Makes room for one more entry.
    pub(crate) fn make_room(&mut self) -> Result<(), AllocError>
        ensures folded { self.new.folded ≡ self.old.folded }
        ensures entries { self.new.entries ≡ self.old.entries }
        ensures unread { self.new.reads ≡ self.old.reads }
        ensures room { OnOk result (1 ≤ self.new.room) }
    {
        self.entries.try_reserve(1)
    }

    /// Puts the entry last. There is room for it, so this takes no memory, and a number.
    pub(crate) fn push(&mut self, entry: Entry)
        requires room { 1 ≤ self.old.room }
        requires number { length self.old.folded + length self.old.entries < 2 ^ 64 - 1 }
        ensures folded { self.new.folded ≡ self.old.folded }
        ensures entries { self.new.entries ≡ self.old.entries ++ entry ∷ [] }
        ensures unread { self.new.reads ≡ self.old.reads }
        ensures room { self.old.room ≤ self.new.room + 1 }
    {
        drop(self.entries.push(entry));
    }

    /// Folds all entries away, none of which is read, and gives their memory back.
    pub(crate) fn clear(&mut self, alloc: Global)
        ensures folded { self.new.folded ≡ self.old.folded ++ self.old.entries }
        ensures entries { self.new.entries ≡ [] }
        ensures unread { self.new.reads ≡ self.old.reads }
    {
        self.history = self.history.then(&self.entries);
        self.folded += self.entries.len() as u64;
        self.entries = Vec::new(alloc);
    }

    fn count(&mut self)
        ensures { self.new ≡ record self.old { reads = counted self.old.reads } }
    {
        self.reads = self.reads.saturating_add(1);
    }

    fn nth(&self, number: u64) -> Option<&Entry>
        ensures { option_copied result ≡ (if nat_le number (length self.now.folded) then None else slice_get self.now.entries (number - length self.now.folded - 1)) }
    {
        if number <= self.folded || number - self.folded > self.entries.len() as u64 {
            return None;
        }
        self.entries
            .as_slice()
            .get((number - self.folded) as usize - 1)
    }

    /// The entry of that number, from 1; `None` where it was folded away, and past the last. Each call is counted.
    pub(crate) fn read(&mut self, number: u64) -> Option<&Entry>
        ensures* after { sem 𝓛 (follows_so the_row the_row self.entry.ghost_name none (λ _ _. ⊤) (λ j. j ≡ record self.old { reads = counted self.old.reads })) }
        ensures value { option_copied result ≡ (if nat_le number (length self.old.folded) then None else slice_get self.old.entries (number - length self.old.folded - 1)) }
    {
        self.count();
        self.nth(number)
    }
}

/// Lemma: the past of a centre with that journal, whose base has the entries that were folded away, says what all entries say.
pub(crate) fn tell_over(journal: &Journal)
    ensures { SaysTheSame (past_over journal.now.folded journal.now.entries) (past_of (journal.now.folded ++ journal.now.entries)) }
{}
