//! Where threads wait for what is due at one BSC.

use cell_register::BscId;
use std::alloc::Global;
use std::sync::{Arc, Condvar};

/// A BSC for which a thread has waited, and the condition on which threads wait for it.
#[derive(Drop)]
pub(crate) struct Waiter {
    pub(crate) bsc: BscId,
    pub(crate) condition: Arc<Condvar, Global>,
}
