//! The calls of an office, each made again until memory is there. What a refused call has to leave as it was is compared.

use crate::asking::{Says, ask_all};
use crate::events::{LINK, Step, event_of};
use crate::met::Met;
use crate::want::{TRIES, Want};
use crate::wrong::Wrong;
use cell_register::BscId;
use centre_events::refusal::Refusal;
use office::desk::Desk;
use office::office::Office;
use office::wake::Wake;
use std::alloc::Global;
use std::io::Print;
use std::sync::Wait;
use std::sync::ledger::Ledger;

/// Opens a desk.
pub(crate) fn open<L: Ledger, R: Wait + Print>(
    rt: &R,
    office: &Office<L>,
    want: &mut Want,
) -> Result<Desk<L>, Wrong> {
    for k in 0..TRIES {
        want.take(k);
        let opened = office.open_desk(rt);
        want.give();
        match opened {
            Ok(desk) => {
                let number = desk.number();
                let _ = println!(rt; "open: desk {number}");
                return Ok(desk);
            }
            Err(Refusal::Memory) => want.note(rt, Met::Open),
            Err(_) => return Err(Wrong::Refused),
        }
    }
    Err(Wrong::Memory)
}

/// How many receipts there are, and the place of the last.
fn receipts<L: Ledger>(desk: &Desk<L>) -> (usize, u64) {
    let receipts = desk.receipts();
    let place = receipts.last().map(|receipt| receipt.place);
    (receipts.len(), place.unwrap_or(0))
}

/// The event is submitted once.
fn submit<L: Ledger, R: Wait>(
    rt: &R,
    alloc: Global,
    office: &Office<L>,
    desk: &mut Desk<L>,
    b: BscId,
    step: Step,
    want: &mut Want,
    blocks: usize,
) -> Result<(), Refusal> {
    let event = event_of(alloc, b, step)?;
    want.take(blocks);
    let result = office.submit(rt, desk, event);
    want.give();
    result
}

/// Prints the place of the event that was entered.
pub(crate) fn say_entered<L: Ledger>(rt: &impl Print, step: Step, desk: &Desk<L>) {
    let (word, place) = (step.word(), receipts(desk).1);
    let _ = println!(rt; "{word}: ok {place}");
}

/// The office says what it said before.
pub(crate) fn is_as_before<L: Ledger, R: Wait + Print>(
    rt: &R,
    office: &Office<L>,
    desk: &Desk<L>,
    b: BscId,
    before: Result<Says, Refusal>,
    want: &mut Want,
) -> Result<(), Wrong> {
    if ask_all(rt, office, desk, b, want) == before {
        return Ok(());
    }
    Err(Wrong::State)
}

/// Rebuilds the centre. A refused rebuild leaves it whole or stale, as it was.
pub(crate) fn rebuild<L: Ledger, R: Wait + Print>(
    rt: &R,
    office: &Office<L>,
    desk: &Desk<L>,
    b: BscId,
    want: &mut Want,
) -> Result<(), Wrong> {
    let before = ask_all(rt, office, desk, b, want);
    for k in 0..TRIES {
        want.take(k);
        let result = office.rebuild(rt, desk);
        want.give();
        if result.is_ok() {
            return Ok(());
        }
        want.note(rt, Met::Rebuild);
        is_as_before(rt, office, desk, b, before, want)?;
    }
    Err(Wrong::Memory)
}

/// Folds the journal, and prints how many entries it had. A refused checkpoint folds nothing.
pub(crate) fn checkpoint<L: Ledger, R: Wait + Print>(
    rt: &R,
    office: &Office<L>,
    desk: &Desk<L>,
    b: BscId,
    want: &mut Want,
) -> Result<(), Wrong> {
    let before = ask_all(rt, office, desk, b, want);
    for k in 0..TRIES {
        want.take(k);
        let result = office.checkpoint(rt);
        want.give();
        match result {
            Ok(count) => {
                let _ = println!(rt; "checkpoint: ok {count}");
                return is_as_before(rt, office, desk, b, before, want);
            }
            Err(Refusal::Memory) => want.note(rt, Met::Checkpoint),
            Err(_) => return Err(Wrong::Refused),
        }
        is_as_before(rt, office, desk, b, before, want)?;
    }
    Err(Wrong::Memory)
}

/// A stale centre ends a side that waits, and a rebuild makes it whole.
fn is_made_whole<L: Ledger, R: Wait + Print>(
    rt: &R,
    office: &Office<L>,
    desk: &mut Desk<L>,
    b: BscId,
    want: &mut Want,
) -> Result<(), Wrong> {
    want.note(rt, Met::Stale);
    if office.wait_pending(rt, desk, b, LINK) != Wake::StaleCentre {
        return Err(Wrong::Wake);
    }
    want.note(rt, Met::WaitStale);
    rebuild(rt, office, desk, b, want)?;
    want.note(rt, Met::Rebuilt);
    Ok(())
}

/// Memory ran out for an event: the desk has the receipts that it had, and the office says what it said, at once or after a
/// rebuild.
fn is_left<L: Ledger, R: Wait + Print>(
    rt: &R,
    office: &Office<L>,
    desk: &mut Desk<L>,
    b: BscId,
    before: ((usize, u64), Says),
    want: &mut Want,
) -> Result<(), Wrong> {
    want.note(rt, Met::Submit);
    if receipts(desk) != before.0 {
        return Err(Wrong::Receipts);
    }
    if ask_all(rt, office, desk, b, want).err() == Some(Refusal::Stale) {
        is_made_whole(rt, office, desk, b, want)?;
    }
    is_as_before(rt, office, desk, b, Ok(before.1), want)
}

/// Submits the event until it is entered, and prints its place.
pub(crate) fn enter<L: Ledger, R: Wait + Print>(
    rt: &R,
    alloc: Global,
    office: &Office<L>,
    desk: &mut Desk<L>,
    b: BscId,
    step: Step,
    want: &mut Want,
) -> Result<(), Wrong> {
    let Ok(said) = ask_all(rt, office, desk, b, want) else {
        return Err(Wrong::Refused);
    };
    let before = (receipts(desk), said);
    for k in 0..TRIES {
        match submit(rt, alloc, office, desk, b, step, want, k) {
            Ok(()) => {
                say_entered(rt, step, desk);
                return Ok(());
            }
            Err(Refusal::Memory) => is_left(rt, office, desk, b, before, want)?,
            Err(_) => return Err(Wrong::Refused),
        }
    }
    Err(Wrong::Memory)
}

/// Prints what the office says.
pub(crate) fn show<L: Ledger, R: Wait + Print>(
    rt: &R,
    office: &Office<L>,
    desk: &Desk<L>,
    b: BscId,
    want: &mut Want,
) -> Result<(), Wrong> {
    let Ok(said) = ask_all(rt, office, desk, b, want) else {
        return Err(Wrong::Refused);
    };
    let [at, awaited, on_air, failed, left] = said.total;
    let [_, orders, cells, _, _] = said.pending;
    let flight = said.flight[1];
    let _ = println!(rt;
        "look: position {at} awaited {awaited} onair {on_air} failed {failed} left {left}"
    );
    let _ = println!(rt; "look: orders {orders} cells {cells} inflight {flight}");
    Ok(())
}

/// The side of the link has an order to send.
pub(crate) fn has_order<L: Ledger, R: Wait + Print>(
    rt: &R,
    office: &Office<L>,
    desk: &mut Desk<L>,
    b: BscId,
) -> Result<(), Wrong> {
    if office.wait_pending(rt, desk, b, LINK) != Wake::Order {
        return Err(Wrong::Wake);
    }
    let _ = println!(rt; "wait: order");
    Ok(())
}
