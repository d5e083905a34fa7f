//! What those who wait for a journal to be kept share with the thread that keeps it.

ghost use Rattle.std.specs.Prelude.{◌≡◌, true, false, IfSome, None};
ghost use Rattle.std.specs.Option.{is_some};
ghost use Rattle.journal_keeper.specs.Kept.{Covers, IsKept};

use crate::kept_state::KeptState;
use crate::kept_up_to::KeptUpTo;
use journal_file::Synced;
use std::sync::{Condvar, Mutex, Wait};

/// How far a journal is kept in its file, for those who wait for that. `A` is what a fold is answered.
#[derive(Drop)]
pub struct Kept<A: Copy + Drop> {
    state: Mutex<KeptState<A>>,
    changed: Condvar,
}

impl<A: Copy + Drop> Kept<A> {
    /// No entry is kept yet.
    pub fn new() -> Kept<A> {
        Kept {
            state: Mutex::new(KeptState::new()),
            changed: Condvar::new(),
        }
    }

    /// Waits until all entries up to the place are kept. `None` where the file has failed, or the thread that keeps them has ended.
    pub fn wait_kept<R: Wait>(&self, rt: &R, place: u64) -> Option<KeptUpTo>
        ensures is_kept { IfSome result (IsKept place) }
        ensures covers { IfSome result (λ kept. Covers kept place) }
    {
        let state = self
            .changed
            .wait_while(rt, self.state.lock(rt), |state| !state.is_over(place));
        state.kept(place)
    }

    /// Up to which place all entries are kept.
    pub fn place<R: Wait>(&self, rt: &R) -> u64 {
        self.state.lock(rt).place()
    }

    /// Whether the file has failed.
    pub fn has_failed<R: Wait>(&self, rt: &R) -> bool {
        self.state.lock(rt).has_failed()
    }

    /// Has the thread end once all is kept. It is to be interrupted then.
    pub fn end<R: Wait>(&self, rt: &R) {
        self.state.lock(rt).end();
    }

    /// Asks for a fold. The answer is its number. The thread is to be interrupted then.
    pub fn ask_fold<R: Wait>(&self, rt: &R) -> u64 {
        self.state.lock(rt).ask()
    }

    /// Waits until the fold of that number is made and kept. `None` where it never will be: the file has failed.
    pub fn wait_fold<R: Wait>(&self, rt: &R, number: u64) -> Option<A> {
        let state = self
            .changed
            .wait_while(rt, self.state.lock(rt), |state| !state.is_made(number));
        state.answer()
    }

    /// What is wanted of the thread: the number of the last fold that is asked for and not made, and whether it is to end.
    pub(crate) fn wanted<R: Wait>(&self, rt: &R) -> (Option<u64>, bool) {
        let state = self.state.lock(rt);
        (state.wanted(), state.is_ending())
    }

    /// All entries up to the place that is synced are kept, and folds up to a number are made.
    pub(crate) fn publish<R: Wait>(&self, rt: &R, synced: Synced, made: Option<(u64, A)>) {
        let mut state = self.state.lock(rt);
        state.keep(synced);
        if let Some((number, answer)) = made {
            state.make(number, answer);
        }
        drop(state);
        self.changed.notify_all();
    }

    /// The thread ends, since the file has failed or all is kept.
    pub(crate) fn close<R: Wait>(&self, rt: &R, failed: bool) {
        let mut state = self.state.lock(rt);
        if failed {
            state.fail();
        }
        state.ended();
        drop(state);
        self.changed.notify_all();
    }
}

/// Waits until all entries up to the place are kept, where the journal has a file. `None` where the file has failed, or the thread that
/// keeps them has ended: then nobody is told of them.
pub fn wait_kept<A: Copy + Drop, R: Wait>(
    rt: &R,
    kept: &Option<Kept<A>>,
    place: u64,
) -> Option<KeptUpTo>
    ensures covers { IfSome result (λ kept. Covers kept place) }
    ensures file { is_some kept.now ≡ true → IfSome result (IsKept place) }
    ensures without { is_some kept.now ≡ false → IfSome result (λ kept. kept.place ≡ None) }
{
    match kept {
        Some(kept) => kept.wait_kept(rt, place),
        None => Some(KeptUpTo::without_file()),
    }
}
