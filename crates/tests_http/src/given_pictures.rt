//! Pictures of a centre that has nothing.

use centre_past::lists::{CentreStatus, PlanCounts};
use journal_keeper::{Kept, KeptUpTo, Untold, wait_kept};
use server_http::Pictures;
use status_figures::{BscList, Picture, Tallies, WarningList};
use std::alloc::{AllocError, Global};
use std::sync::Wait;
use std::sync::atomic::{AtomicU64, Ordering};
use std::time::{Clock, SystemTime};

/// How a centre stands that has nothing.
const STATUS: CentreStatus = CentreStatus {
    entries: 3,
    folded: 1,
    limit: 1000,
    is_stale: false,
    counts: Some(PlanCounts {
        bscs: 0,
        links_up: 0,
        cells: 0,
        areas: 0,
        warnings: 0,
        active: 0,
    }),
};

/// How it is with a centre.
#[derive(Clone, Copy, PartialEq, Eq)]
pub(crate) enum Given {
    Whole,
    Stale,
    /// No entry is kept in its file.
    Unkept,
}

/// Pictures of a centre that has nothing, and how many were taken.
#[derive(Drop)]
pub(crate) struct GivenPictures {
    pub(crate) alloc: Global,
    pub(crate) given: Given,
    pub(crate) count: AtomicU64,
}

impl GivenPictures {
    pub(crate) fn new(alloc: Global, given: Given) -> GivenPictures {
        GivenPictures {
            alloc,
            given,
            count: AtomicU64::new(0),
        }
    }
}

/// The second, after 1970-01-01T00:00:00Z.
fn second_of<R: Clock>(rt: &R) -> u64 {
    let Ok(now) = SystemTime::now(rt) else {
        return 0;
    };
    match now.duration_since(SystemTime::UNIX_EPOCH) {
        Ok(since) => since.as_secs(),
        Err(_) => 0,
    }
}

impl Pictures for GivenPictures {
    fn take<R: Wait + Clock>(&self, rt: &R) -> Result<Untold<Picture>, AllocError> {
        self.count.fetch_add(1, Ordering::SeqCst);
        let mut status = STATUS;
        if self.given == Given::Stale {
            status.is_stale = true;
            status.counts = None;
        }
        let picture = Picture {
            taken: second_of(rt),
            begun: 0,
            status,
            bscs: BscList::from_vec(Vec::new(self.alloc)),
            warnings: WarningList::from_vec(Vec::new(self.alloc)),
            kept: None,
            receipts: 2,
            refusals: Tallies::from_vec(Vec::new(self.alloc)),
            entries: Tallies::from_vec(Vec::new(self.alloc)),
            memory: None,
        };
        Ok(Untold::new(STATUS.entries, picture))
    }

    fn kept<R: Wait>(&self, rt: &R, place: u64) -> Option<KeptUpTo> {
        if self.given == Given::Unkept {
            return None;
        }
        let no_file: Option<Kept<u64>> = None;
        wait_kept(rt, &no_file, place)
    }

    fn tell<R: Wait + Clock>(&self, _rt: &R, _what: &str) {}
}
