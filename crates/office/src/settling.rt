//! The receipts of desks are compared with a journal.

ghost use Rattle.std.specs.Prelude.{◌≡◌, ◌↔◌, ◌<◌, ◌≤◌, ℕ, List, length, All, Any, IsTrue, IfSome, IsNone};
ghost use Rattle.centre_events.specs.declared.entry.Entry.{Entry};
ghost use Rattle.centre_past.specs.Legal.{all_entries};
ghost use Rattle.office.specs.Desks.{DeskState};
ghost use Rattle.office.specs.Helds.{AreRowsOf};
ghost use Rattle.office.specs.Receipts.{receipts_of};
ghost use Rattle.office.specs.Shuffles.{AreEntriesOf, AreSplit, HasItsEntries, IsEntryOf, IsMismatch, IsMissing};
ghost use Rattle.office.specs.declared.receipt.Receipt.{Receipt};

use crate::desk::Desk;
use crate::receipt::Receipt;
use crate::row::Row;
use centre_core::centre::Centre;
use std::sync::ledger::Ledger;

/// Whether the receipt's entry stands at its place in the journal, and is of the desk.
fn is_entry(centre: &mut Centre, desk: u32, receipt: &Receipt) -> bool
    ensures is { IsTrue result ↔ IsEntryOf desk (length centre.old.known.folded) centre.old.known.journal receipt.now }
    ensures unchanged { centre.new.known ≡ centre.old.known }
{
    match centre.entry(receipt.place) {
        Some(entry) => {
            entry.desk == desk
                && entry.event.same(&receipt.event)
                && entry.answer.same(&receipt.answer)
        }
        None => false,
    }
}

/// Whether each receipt's entry stands at its place in the journal, and each place is above the one before it.
fn are_entries(centre: &mut Centre, desk: u32, receipts: &[Receipt]) -> bool
    ensures are { IsTrue result ↔ AreEntriesOf desk (length centre.old.known.folded) centre.old.known.journal 0 receipts.now }
    ensures unchanged { centre.new.known ≡ centre.old.known }
{
    let mut before = 0;
    for receipt in receipts {
        if receipt.place <= before || !is_entry(centre, desk, receipt) {
            return false;
        }
        before = receipt.place;
    }
    true
}

/// Whether the place of each receipt is one of so many entries that were folded.
fn are_folded(folded: u64, receipts: &[Receipt]) -> bool
    ensures { IsTrue result ↔ All (λ (r : Receipt). r.place ≤ folded) receipts.now }
{
    receipts.iter().all(|receipt| receipt.place <= folded)
}

/// How many entries the desk has among those of which the rows are.
fn entries_of(rows: &[Row], desk: u32) -> u64
    ensures { (entries : List Entry) → AreRowsOf rows.now entries → result ≡ length (receipts_of desk entries) }
{
    let number = desk as usize;
    if number == 0 || number > rows.len() {
        return 0;
    }
    rows[number - 1].entries
}

/// Whether so many receipts have places among the folded entries, and each one after them has its entry in the journal.
fn are_split(
    centre: &mut Centre,
    desk: u32,
    folded: u64,
    count: usize,
    receipts: &[Receipt],
) -> bool
    requires within { count ≤ length receipts.now }
    requires folded { folded ≡ length centre.old.known.folded }
    ensures are { IsTrue result ↔ AreSplit desk folded centre.old.known.journal count receipts.now }
    ensures unchanged { centre.new.known ≡ centre.old.known }
{
    let (earlier, later) = receipts.split_at(count);
    are_folded(folded, earlier) && are_entries(centre, desk, later)
}

/// Whether the desk's receipts are its entries. There are as many as entries. The first of them, as many as entries of it were
/// folded, have places among the folded ones, of which alone the desk let go; each other one is at the place of another entry of
/// the desk.
fn has_its_entries<L: Ledger>(
    centre: &mut Centre,
    rows: &[Row],
    base_rows: &[Row],
    folded: u64,
    desk: &Desk<L>,
) -> bool
    requires all { AreRowsOf rows.now (all_entries centre.old.known) }
    requires base { AreRowsOf base_rows.now centre.old.known.folded }
    requires folded { folded ≡ length centre.old.known.folded }
    ensures has { IsTrue result ↔ HasItsEntries centre.old.known.folded centre.old.known.journal desk.now }
    ensures unchanged { centre.new.known ≡ centre.old.known }
{
    let number = desk.number();
    let count = entries_of(base_rows, number);
    if desk.len() != entries_of(rows, number)
        || desk.released() > count
        || !desk.is_released_within(folded)
    {
        return false;
    }
    let more = (count - desk.released()) as usize;
    are_split(centre, number, folded, more, desk.receipts())
}

/// The number of the first desk whose receipts aren't its entries.
pub(crate) fn mismatch<L: Ledger>(
    centre: &mut Centre,
    rows: &[Row],
    base_rows: &[Row],
    folded: u64,
    desks: &[Desk<L>],
) -> Option<u32>
    requires all { AreRowsOf rows.now (all_entries centre.old.known) }
    requires base { AreRowsOf base_rows.now centre.old.known.folded }
    requires folded { folded ≡ length centre.old.known.folded }
    ensures none { IsNone result → All (HasItsEntries centre.old.known.folded centre.old.known.journal) desks.now }
    ensures some { IfSome result (IsMismatch centre.old.known.folded centre.old.known.journal desks.now) }
    ensures unchanged { centre.new.known ≡ centre.old.known }
{
    for desk in desks {
        if !has_its_entries(centre, rows, base_rows, folded, desk) {
            return Some(desk.number());
        }
    }
    None
}

/// Whether a desk has that number.
fn has_number<L: Ledger>(desks: &[Desk<L>], number: u32) -> bool
    ensures { IsTrue result ↔ Any (λ (d : DeskState). d.number ≡ number) desks.now }
{
    desks.iter().any(|desk| desk.number() == number)
}

/// The least number of a desk that was opened and isn't there.
pub(crate) fn missing<L: Ledger>(opened: u32, desks: &[Desk<L>]) -> Option<u32>
    ensures none { IsNone result → (n : ℕ) → 0 < n → n ≤ opened → Any (λ (d : DeskState). d.number ≡ n) desks.now }
    ensures some { IfSome result (IsMissing opened desks.now) }
{
    for number in 1..=opened {
        if !has_number(desks, number) {
            return Some(number);
        }
    }
    None
}
