//! A journal that is followed.

ghost use Rattle.std.specs.Prelude.{ℕ, IfOk, OnOk};
ghost use Rattle.journal_keeper.specs.Following.{Portion, PutsFold, PutsNext};

use crate::keep_fault::KeepFault;
use journal_file::Writing;
use std::sync::Wait;

/// How far a journal is, and how often those who wait for it were interrupted.
#[derive(Clone, Copy, Debug, PartialEq, Eq)]
pub struct Seen {
    pub position: u64,
    pub interrupts: u64,
}

/// A journal that is followed into a file: an office, as the thread sees it. It tells what it may give behind a place.
pub trait Followed {
    ghost gives: { Self → ℕ → Portion → Type 0 };

    /// What a fold may be refused with.
    type Refusal: Copy + Drop + Send;

    /// Waits until there are more entries than `after`, or until `interrupt` was called since it had been called so often.
    fn wait_entries<R: Wait>(&self, rt: &R, after: u64, interrupts: u64) -> Seen;

    /// Has those who wait for entries go on.
    fn interrupt<R: Wait>(&self, rt: &R);

    /// Puts the lines of the next entries, behind the last that was put, but not of very many.
    fn put_entries<R: Wait>(&self, rt: &R, writing: &mut Writing) -> Result<(), KeepFault>
        ensures put { OnOk result (PutsNext (gives self.now) writing.old writing.new) };

    /// Folds the journal, and puts the lines of the entries behind the last that was put and then that of the fold, all from one hold
    /// of the lock. The answer is how many entries were folded. Where it is refused nothing is folded and nothing put.
    fn put_fold<R: Wait>(
        &self,
        rt: &R,
        writing: &mut Writing,
    ) -> Result<Result<u64, Self::Refusal>, KeepFault>
        ensures folded { IfOk result (PutsFold (gives self.now) writing.old writing.new) };
}
