//! The journal is folded by itself: where the event of a thread makes that due.

use crate::shared::Shared;
use centre_events::refusal::Refusal;
use link_rules::FoldPace;
use server_errors::{Level, say_of_centre, say_of_centre_at};
use std::io::Write;
use std::sync::Wait;
use std::sync::ledger::Ledger;
use std::time::Clock;

const NO_MEMORY: &str =
    "the journal isn't folded: out of memory; that is tried again after 1,000 entries more, or once it is full";

impl<L: Ledger, E: Write + Drop> Shared<L, E> {
    /// A small event may have been entered.
    pub fn submitted<R: Wait + Clock>(&self, rt: &R) {
        self.submitted_large(rt, 0);
    }

    /// An event may have been entered, of which so many octets or cells are kept. Folds the journal where that is due: other threads that
    /// submit wait that long before they go on. So the journal doesn't fill up meanwhile, where a file is kept and the fold waits for it. A
    /// stale centre isn't folded.
    pub(crate) fn submitted_large<R: Wait + Clock>(&self, rt: &R, kept: u64) {
        let mut pace = self.folds.lock(rt);
        if pace.count(kept) && pace.is_due(self.office.unfolded(rt)) {
            self.fold(rt, &mut pace);
        }
    }

    /// The entries that there are already, from the file of the journal, count for the next fold.
    pub fn count_entered<R: Wait>(&self, rt: &R) {
        let mut pace = self.folds.lock(rt);
        let _ = pace.is_due(self.office.unfolded(rt));
    }

    /// Says how many entries were folded.
    fn tell_fold<R: Wait + Clock>(&self, rt: &R, count: u64) {
        if let Ok(text) = format!(in self.alloc; "the journal was folded, entries: {count}") {
            say_of_centre(rt, self.alloc, &self.errors, text);
        }
    }

    /// Folds the journal. Where a file is kept, the thread that keeps it does, and this waits until the fold is kept too.
    fn fold_now<R: Wait>(&self, rt: &R) -> Result<u64, Refusal> {
        let Some(kept) = &self.kept else {
            return self.office.checkpoint(rt);
        };
        let number = kept.ask_fold(rt);
        self.office.interrupt(rt);
        kept.wait_fold(rt, number).unwrap_or(Err(Refusal::Stale))
    }

    /// Folds the journal, and says so.
    fn fold<R: Wait + Clock>(&self, rt: &R, pace: &mut FoldPace) {
        match self.fold_now(rt) {
            Ok(count) => {
                pace.fold();
                self.tell_fold(rt, count);
            }
            Err(Refusal::Memory) => {
                if pace.put_off() {
                    let level = Level::Warning;
                    say_of_centre_at(rt, self.alloc, &self.errors, level, NO_MEMORY);
                }
            }
            Err(_) => {}
        }
    }

    /// Folds the journal now. The answer is how many entries it had.
    pub fn checkpoint<R: Wait>(&self, rt: &R) -> Result<u64, Refusal> {
        let mut pace = self.folds.lock(rt);
        let count = self.fold_now(rt)?;
        pace.fold();
        Ok(count)
    }
}
