//! An event is entered: by the centre, on its desk's receipt, in the desk's row and in the book.

ghost use Rattle.std.specs.Prelude.{◌≡◌, ◌≤◌, ◌+◌, length, IfOk, IfErr, OnOk, OnErr};
ghost use Rattle.centre_core.specs.Centre.{Leaves, Refuses};
ghost use Rattle.centre_past.specs.Legal.{all_entries};
ghost use Rattle.office.specs.Helds.{IsEntered, row_at};
ghost use Rattle.office.specs.Receipts.{last_place};

use crate::desk::Desk;
use crate::row::Row;
use centre_core::centre::Centre;
use centre_events::event::Event;
use centre_events::refusal::Refusal;
use std::alloc::{AllocError, Global};
use std::sync::ledger::{Book, Ledger};

/// Makes room for the receipt of an event that the desk submits, and copies the event for it.
pub(crate) fn prepared<L: Ledger>(
    alloc: Global,
    desk: &mut Desk<L>,
    event: &Event,
) -> Result<Event, AllocError>
    ensures copy { IfOk result (λ copy. copy ≡ event.now) }
    ensures room { OnOk result (1 ≤ desk.new.spare) }
    ensures same { desk.new ≡ record desk.old { spare = desk.new.spare } }
{
    desk.reserve()?;
    event.copied(alloc)
}

/// Takes an event that the desk submits, of which the copy is kept on its receipt. A refused one changes nothing, but that the
/// centre may be stale after memory ran out.
pub(crate) fn enter<L: Ledger>(
    centre: &mut Centre,
    book: &mut Book<L>,
    desk: &mut Desk<L>,
    event: Event,
    copy: Event,
) -> Result<Row, Refusal>
    requires same { copy ≡ event }
    requires room { 1 ≤ desk.old.spare }
    requires later { last_place desk.old.receipts ≤ length (all_entries centre.old.known) }
    ensures entered { OnOk result (IsEntered centre.old.known desk.old event centre.new.known desk.new) }
    ensures total { OnOk result (book.new.total ≡ book.old.total + 1) }
    ensures row { IfOk result (λ r. r ≡ row_at (length desk.old.receipts + 1) (length (all_entries centre.old.known) + 1)) }
    ensures refused { IfErr result (Refuses centre.old.known event) }
    ensures left { IfErr result (λ r. Leaves centre.old.known r centre.new.known) }
    ensures unchanged { OnErr result (desk.new ≡ desk.old) }
    ensures total_stays { OnErr result (book.new.total ≡ book.old.total) }
{
    let number = desk.number();
    let answer = match centre.accept(number, event) {
        Ok(answer) => answer,
        Err(refusal) => {
            drop(copy);
            return Err(refusal);
        }
    };
    let place = centre.position();
    desk.keep(book, place, copy, answer);
    Ok(Row {
        entries: desk.len(),
        last: place,
    })
}
