//! A console.

use office::desk::Desk;
use std::sync::Mutex;
use std::sync::ledger::Ledger;

/// A console: the desk at which the events of its connections are submitted, one connection after another.
#[derive(Drop)]
pub struct Console<L: Ledger> {
    /// The desk, while no connection is at it.
    pub desk: Mutex<Option<Desk<L>>>,
}

impl<L: Ledger> Console<L> {
    /// A console without its desk.
    pub(crate) fn new() -> Console<L> {
        Console {
            desk: Mutex::new(None),
        }
    }
}
