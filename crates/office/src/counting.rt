//! What was sent is counted.

use crate::counts::Counts;
use crate::desk::Desk;
use crate::event_kind::EventKind;
use crate::unsent::Unsent;
use std::sync::ledger::Ledger;

/// What was due for a link was entered, for which the desk has its latest receipt, or not.
pub(crate) fn count_sent<L: Ledger>(
    counts: &mut Counts,
    desk: &Desk<L>,
    sent: &Result<(), Unsent>,
) {
    match sent {
        Ok(()) => {
            if let Some(receipt) = desk.receipts().last() {
                counts.enter(EventKind::of(&receipt.event));
            }
        }
        Err(Unsent::Refused(refusal)) => counts.refuse(*refusal),
        Err(Unsent::Ended | Unsent::StaleCentre) => {}
    }
}
