//! A program without links.

ghost use Rattle.std.specs.Prelude.{IfSome};
ghost use Rattle.journal_keeper.specs.Kept.{Covers};

use cell_register::BscId;
use centre_events::refusal::Refusal;
use centre_past::lists::WarningSheet;
use journal_keeper::{Kept, KeptUpTo, wait_kept};
use server_consoles::Program;
use server_operator::{Air, Server};
use std::alloc::{AllocError, Global};
use std::sync::atomic::{AtomicBool, Ordering};
use std::sync::{Condvar, Mutex, Wait};
use std::time::Clock;
use warning_book::WarningId;

/// That all is kept of a journal without a file.
pub(crate) fn kept_without_file<R: Wait>(rt: &R, place: u64) -> Option<KeptUpTo>
    ensures { IfSome result (λ kept. Covers kept place) }
{
    let kept: Option<Kept<u64>> = None;
    wait_kept(rt, &kept, place)
}

/// A program without links, which keeps no file.
#[derive(Drop)]
pub(crate) struct GivenProgram {
    is_ending: AtomicBool,
    /// It was asked whether entries are kept.
    is_asked: AtomicBool,
    /// Whoever asks that waits.
    holds: Mutex<bool>,
    changed: Condvar,
}

impl GivenProgram {
    pub(crate) fn new() -> GivenProgram {
        GivenProgram {
            is_ending: AtomicBool::new(false),
            is_asked: AtomicBool::new(false),
            holds: Mutex::new(false),
            changed: Condvar::new(),
        }
    }

    /// Has whoever asks whether entries are kept wait, or go on.
    pub(crate) fn hold<R: Wait>(&self, rt: &R, holds: bool) {
        *self.holds.lock(rt) = holds;
        self.changed.notify_all();
    }

    /// Whether it was asked whether entries are kept.
    pub(crate) fn is_asked(&self) -> bool {
        self.is_asked.load(Ordering::SeqCst)
    }
}

impl Server for GivenProgram {
    fn added<R: Wait + Clock>(&self, _rt: &R, _b: BscId) {}

    fn answered<R: Wait + Clock>(&self, _rt: &R) {}

    fn kept<R: Wait>(&self, rt: &R, place: u64) -> Option<KeptUpTo> {
        self.is_asked.store(true, Ordering::SeqCst);
        let holds = self.holds.lock(rt);
        drop(self.changed.wait_while(rt, holds, |holds| *holds));
        kept_without_file(rt, place)
    }

    fn is_ending<R: Wait>(&self, _rt: &R) -> bool {
        self.is_ending.load(Ordering::SeqCst)
    }

    fn checkpoint<R: Wait>(&self, _rt: &R) -> Result<u64, Refusal> {
        Ok(0)
    }

    fn cut<R: Wait>(&self, _rt: &R, _b: BscId, _generation: u64) {}

    fn air<R: Wait + Clock>(
        &self,
        _rt: &R,
        alloc: Global,
        _sheet: &WarningSheet,
    ) -> Result<Air, AllocError> {
        Ok(Air {
            silent: Vec::new(alloc),
            over: None,
        })
    }

    fn is_down<R: Wait>(&self, _rt: &R, _b: BscId) -> bool {
        false
    }

    fn reread_peers<R: Wait + Clock>(&self, _rt: &R) -> Result<String, AllocError> {
        Err(AllocError)
    }

    fn reset_since<R: Wait>(&self, _rt: &R, _b: BscId) -> Option<u64> {
        None
    }

    fn has_two_periods<R: Wait + Clock>(
        &self,
        _rt: &R,
        _warning: WarningId,
        _b: BscId,
        _other: WarningId,
    ) {}

    fn stays_on_air<R: Wait + Clock>(&self, _rt: &R, _warning: WarningId, _b: BscId) {}
}

impl Program for GivenProgram {
    fn end<R: Wait>(&self, _rt: &R) {
        self.is_ending.store(true, Ordering::SeqCst);
    }

    fn tell<R: Wait + Clock>(&self, _rt: &R, _what: &str) {}
}
