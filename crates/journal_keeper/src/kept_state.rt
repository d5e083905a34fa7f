//! What stands under the lock of those who wait for a journal to be kept.

ghost use Rattle.std.specs.Prelude.{◌≡◌};

use crate::kept_up_to::KeptUpTo;
use journal_file::Synced;
use std::marker::Model;

/// How far a journal is kept, which folds are asked for and made, and whether the thread is to end, or has ended.
#[derive(Drop)]
pub struct KeptState<A: Copy + Drop> {
    place: u64,
    failed: bool,
    is_ending: bool,
    has_ended: bool,
    asked: u64,
    made: u64,
    answer: Option<A>,
}

impl<A: Copy + Drop> Model for KeptState<A> {
    ghost use Rattle.std.specs.Prelude.{◌≤◌};
    ghost use Rattle.journal_keeper.specs.Kept.{KeptFields};

    ghost Value = { KeptFields A };

    ghost view = { λ s. record { place = s.place; failed = s.failed; ending = s.is_ending; ended = s.has_ended; asked = s.asked; made = s.made; answer = s.answer } };

    ghost invariant = { λ s. s.made ≤ s.asked };
}

impl<A: Copy + Drop> KeptState<A> {
    ghost use Rattle.std.specs.Prelude.{◌≡◌, ◌+◌, ◌≤◌, ◌<◌, ◌^◌, ◌-◌, ◌⊎◌, ◌↔◌, IsTrue, true, false, max, min, nat_le, nat_lt, None, Some, IfSome, if◌then◌else◌};
    ghost use Rattle.std.specs.Option.{is_some};
    ghost use Rattle.journal_keeper.specs.Kept.{kept_up_to, Covers, IsKept, IsOver};

    /// No entry is kept yet, and no fold is asked for.
    pub fn new() -> KeptState<A>
        ensures { result ≡ kept_up_to 0 }
    {
        KeptState {
            place: 0,
            failed: false,
            is_ending: false,
            has_ended: false,
            asked: 0,
            made: 0,
            answer: None,
        }
    }

    /// All entries up to the place are kept. It never goes back.
    pub fn keep(&mut self, synced: Synced)
        ensures { self.new ≡ record self.old { place = max self.old.place synced.place } }
    {
        self.place = self.place.max(synced.place());
    }

    /// Up to which place all entries are kept.
    pub fn place(&self) -> u64
        ensures { result ≡ self.now.place }
    {
        self.place
    }

    /// The file has failed: nothing more is kept.
    pub fn fail(&mut self)
        ensures { self.new ≡ record self.old { failed = true; ended = true } }
    {
        self.failed = true;
        self.has_ended = true;
    }

    /// The thread is to end once all is kept that there is then.
    pub fn end(&mut self)
        ensures { self.new ≡ record self.old { ending = true } }
    {
        self.is_ending = true;
    }

    /// The thread has ended.
    pub fn ended(&mut self)
        ensures { self.new ≡ record self.old { ended = true } }
    {
        self.has_ended = true;
    }

    pub fn is_ending(&self) -> bool
        ensures { result ≡ self.now.ending }
    {
        self.is_ending
    }

    pub fn has_failed(&self) -> bool
        ensures { result ≡ self.now.failed }
    {
        self.failed
    }

    /// That all entries up to the place are kept, where they are.
    pub fn kept(&self, place: u64) -> Option<KeptUpTo>
        ensures some { is_some result ≡ nat_le place self.now.place }
        ensures kept { IfSome result (λ kept. kept.place ≡ Some self.now.place) }
        ensures is_kept { IfSome result (IsKept place) }
        ensures covers { IfSome result (λ kept. Covers kept place) }
    {
        if place <= self.place {
            Some(KeptUpTo::up_to(self.place))
        } else {
            None
        }
    }

    /// Whether nothing is to be waited for any more: all up to the place is kept, or the thread has ended.
    pub fn is_over(&self, place: u64) -> bool
        ensures { IsTrue result ↔ IsOver self.now place }
    {
        place <= self.place || self.has_ended
    }

    /// Asks for a fold. The answer is its number.
    pub fn ask(&mut self) -> u64
        ensures number { result ≡ min (self.old.asked + 1) (2 ^ 64 - 1) }
        ensures state { self.new ≡ record self.old { asked = result } }
    {
        self.asked = self.asked.saturating_add(1);
        self.asked
    }

    /// The number of the last fold that is asked for and not made; `None` where all are made.
    pub fn wanted(&self) -> Option<u64>
        ensures { result ≡ (if nat_lt self.now.made self.now.asked then Some self.now.asked else None) }
    {
        if self.made < self.asked {
            Some(self.asked)
        } else {
            None
        }
    }

    /// Folds up to that number are made, by one fold, with this answer.
    pub fn make(&mut self, number: u64, answer: A)
        ensures { self.new ≡ record self.old { made = min number self.old.asked; answer = Some answer } }
    {
        self.made = number.min(self.asked);
        self.answer = Some(answer);
    }

    /// Whether the fold of that number is made, or never will be.
    pub fn is_made(&self, number: u64) -> bool
        ensures { IsTrue result ↔ ((number ≤ self.now.made) ⊎ (self.now.ended ≡ true)) }
    {
        number <= self.made || self.has_ended
    }

    /// The answer to the last fold that was made; `None` where the file has failed.
    pub fn answer(&self) -> Option<A>
        ensures { result ≡ (if self.now.failed then None else self.now.answer) }
    {
        if self.failed { None } else { self.answer }
    }
}
