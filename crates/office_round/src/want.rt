//! What memory is taken from the calls, and what want of memory led to.

use crate::hoard::Hoard;
use crate::met::Met;
use std::alloc::Global;
use std::io::Print;

/// How often a call is made at most.
pub(crate) const TRIES: usize = 1_000;

/// All memory, or none of it, is taken while a call is made, and it is noted what that led to.
#[derive(Drop)]
pub(crate) struct Want {
    hoard: Hoard,
    takes: bool,
    is_full: bool,
    submits: bool,
    looks: bool,
    rebuilds: bool,
    checkpoints: bool,
    stales: bool,
}

impl Want {
    /// No memory is taken.
    pub(crate) fn none(alloc: Global) -> Want {
        Want {
            hoard: Hoard::new(alloc),
            takes: false,
            is_full: false,
            submits: false,
            looks: false,
            rebuilds: false,
            checkpoints: false,
            stales: false,
        }
    }

    /// All memory is taken, unless the system gives more and more.
    pub(crate) fn of_all(alloc: Global) -> Want {
        let mut want = Want::none(alloc);
        want.takes = true;
        want.is_full = want.hoard.fill();
        want
    }

    /// Whether memory is to be taken.
    pub(crate) fn takes(&self) -> bool {
        self.takes
    }

    /// Leaves so many small blocks to the next call.
    pub(crate) fn take(&mut self, blocks: usize) {
        if self.is_full {
            self.hoard.starve(blocks);
        }
    }

    /// Ends that.
    pub(crate) fn give(&mut self) {
        if self.is_full {
            self.hoard.feed();
        }
    }

    /// Notes it, and prints it where no memory is taken. How often it comes else depends on the system.
    pub(crate) fn note(&mut self, rt: &impl Print, met: Met) {
        match met {
            Met::Submit => self.submits = true,
            Met::Look => self.looks = true,
            Met::Stale => self.stales = true,
            Met::Rebuild => self.rebuilds = true,
            Met::Checkpoint => self.checkpoints = true,
            Met::Open | Met::WaitStale | Met::WaitedStale | Met::Rebuilt => {}
        }
        if !self.takes {
            let words = met.words();
            let _ = println!(rt; "  {words}");
        }
    }

    /// Whether an event, a question, a rebuild and a checkpoint were refused, and the centre was stale, where all memory was taken.
    pub(crate) fn is_met(&self) -> bool {
        let is_refused = self.submits && self.looks && self.rebuilds && self.checkpoints;
        !self.is_full || (is_refused && self.stales)
    }
}
