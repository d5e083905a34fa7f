//! Desks that are handed in are counted by their shares.

ghost use Rattle.std.specs.Prelude.{◌≤◌};
ghost use Rattle.office.specs.Shuffles.{receipt_count};

use crate::desk::Desk;
use std::sync::ledger::{Book, Ledger, Share};

/// Tells that desks have no more receipts, all together, than the book counts: their shares are merged with one that is left.
pub(crate) fn audit<L: Ledger>(mut book: Book<L>, mut rest: Share<L>, mut desks: Vec<Desk<L>>)
    ensures { receipt_count desks.items ≤ book.total }
{
    while let Some(desk) = desks.pop() {
        rest.merge(desk.into_share());
    }
    book.audit(&mut rest);
}
