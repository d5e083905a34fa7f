//! Why an office can't be settled.

use crate::desk::Desk;
use centre_core::centre::Centre;
use std::sync::ledger::Ledger;

/// Why an office can't be settled, in the order in which the causes are looked at.
#[derive(Clone, Copy, Debug, PartialEq, Eq)]
pub enum Fault {
    /// The receipts of this desk aren't its entries.
    Mismatch { desk: u32 },
    /// This desk was opened, and isn't among those handed in.
    MissingDesk { desk: u32 },
}

/// An office that can't be settled: why, its centre and the desks that were handed in.
pub struct Unsettled<L: Ledger> {
    pub fault: Fault,
    pub centre: Centre,
    pub desks: Vec<Desk<L>>,
}

/// Written out, so that no crate above proves anew how its parts are dropped.
impl<L: Ledger> Drop for Unsettled<L> {
    fn drop(self) {
        let Unsettled {
            fault: _fault,
            centre: _centre,
            desks: _desks,
        } = self;
    }
}
