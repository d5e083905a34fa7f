//! The conditions on which threads wait for what is due at BSCs.

use crate::waiter::Waiter;
use cell_register::BscId;
use std::alloc::{AllocError, Global};
use std::sync::{Arc, Condvar};

/// A condition for each BSC for which a thread has waited.
#[derive(Drop)]
pub(crate) struct Waiters {
    alloc: Global,
    waiters: Vec<Waiter>,
}

impl Waiters {
    /// Nobody has waited.
    pub(crate) fn new(alloc: Global) -> Waiters {
        Waiters {
            alloc,
            waiters: Vec::new(alloc),
        }
    }

    pub(crate) fn as_slice(&self) -> &[Waiter] {
        self.waiters.as_slice()
    }

    /// The condition on which a thread is to wait for the BSC. `None` where there is no memory for it.
    pub(crate) fn condition_of(&mut self, b: BscId) -> Option<Arc<Condvar, Global>> {
        for waiter in self.waiters.as_slice() {
            if waiter.bsc == b {
                return Arc::try_clone(&waiter.condition).ok();
            }
        }
        self.add(b).ok()
    }

    /// Adds a condition for the BSC.
    fn add(&mut self, b: BscId) -> Result<Arc<Condvar, Global>, AllocError> {
        let Ok(condition) = Arc::new(self.alloc, Condvar::new()) else {
            return Err(AllocError);
        };
        let shared = Arc::try_clone(&condition)?;
        self.waiters.push(Waiter { bsc: b, condition })?;
        Ok(shared)
    }
}
