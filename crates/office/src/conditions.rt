//! On what threads wait that have something to do for the links of BSCs.

use crate::affected::Affected;
use crate::held::Held;
use crate::waiters::Waiters;
use cell_register::BscId;
use std::alloc::Global;
use std::sync::ledger::Ledger;
use std::sync::{Condvar, Mutex, MutexGuard, Wait};

/// On what threads wait for what is due at BSCs: each BSC has a condition of its own, so that an event wakes no thread of a BSC for
/// which it makes nothing to do.
///
/// Whoever takes the lock of the office and the one here takes that of the office first.
#[derive(Drop)]
pub(crate) struct Conditions {
    waiters: Mutex<Waiters>,
    /// On which those wait for whose BSC there was no memory for a condition.
    others: Condvar,
}

/// Waits on the condition until there is something to do for the link of that generation, or not as many entries are folded any more.
fn wait_on<'a, L: Ledger, R: Wait>(
    rt: &R,
    condition: &Condvar,
    held: &'a Mutex<Held<L>>,
    b: BscId,
    generation: u64,
    folded: u64,
) -> MutexGuard<'a, Held<L>> {
    condition.wait_while(rt, held.lock(rt), |held| {
        held.folded() == folded && held.wake_of(b, generation).is_none()
    })
}

impl Conditions {
    pub(crate) fn new(alloc: Global) -> Conditions {
        Conditions {
            waiters: Mutex::new(Waiters::new(alloc)),
            others: Condvar::new(),
        }
    }

    /// Waits until there is something to do for the link of that generation, or not as many entries are folded any more. The condition
    /// of the BSC is there before the lock is taken, so whoever changes something under the lock later on finds it.
    pub(crate) fn wait<'a, L: Ledger, R: Wait>(
        &self,
        rt: &R,
        held: &'a Mutex<Held<L>>,
        b: BscId,
        generation: u64,
        folded: u64,
    ) -> MutexGuard<'a, Held<L>> {
        let condition = self.waiters.lock(rt).condition_of(b);
        match condition {
            Some(condition) => wait_on(rt, &condition, held, b, generation, folded),
            None => wait_on(rt, &self.others, held, b, generation, folded),
        }
    }

    /// Wakes those who wait for BSCs of these for which there may be something to do now, under the lock of the office.
    pub(crate) fn wake<L: Ledger, R: Wait>(&self, rt: &R, held: &Held<L>, affected: &Affected) {
        if !held.has_work(affected) {
            return;
        }
        let waiters = self.waiters.lock(rt);
        for waiter in waiters.as_slice() {
            if held.wakes(affected, waiter.bsc) {
                waiter.condition.notify_all();
            }
        }
        self.others.notify_all();
    }

    /// Wakes all who wait.
    pub(crate) fn wake_all<R: Wait>(&self, rt: &R) {
        let waiters = self.waiters.lock(rt);
        for waiter in waiters.as_slice() {
            waiter.condition.notify_all();
        }
        self.others.notify_all();
    }
}
