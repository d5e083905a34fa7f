//! Whose turn it is among the heavy reports.

use std::sync::{Condvar, Mutex, Wait};
use std::time::{Clock, Duration};

/// The turn of the heavy reports: one link has it at a time. So whoever else waits for the centre, waits for one heavy report and not for
/// those of all links.
#[derive(Drop)]
pub struct HeavyTurn {
    is_taken: Mutex<bool>,
    given: Condvar,
}

impl HeavyTurn {
    /// Nobody has it.
    pub fn new() -> HeavyTurn {
        HeavyTurn {
            is_taken: Mutex::new(false),
            given: Condvar::new(),
        }
    }

    /// Takes it, or waits so long until it is given back. `false` where another still has it then.
    pub fn take<R: Wait + Clock>(&self, rt: &R, time: Duration) -> bool {
        let (mut is_taken, _) = self
            .given
            .wait_timeout_while(rt, self.is_taken.lock(rt), time, |is_taken| *is_taken);
        let was_taken = *is_taken;
        *is_taken = true;
        !was_taken
    }

    /// Gives it back.
    pub fn give<R: Wait>(&self, rt: &R) {
        *self.is_taken.lock(rt) = false;
        self.given.notify_one();
    }
}
