//! A round: an office, its two desks, and all that they do until they are settled.

ghost use Rattle.std.specs.Prelude.{◌≡◌};

use crate::calls::{checkpoint, enter, has_order, open, rebuild, show};
use crate::events::{NETWORK, Step};
use crate::waiting::update_while_waiting;
use crate::want::{TRIES, Want};
use crate::wrong::Wrong;
use cell_register::BscId;
use office::desk::Desk;
use office::fault::{Fault, Unsettled};
use office::office::Office;
use std::alloc::Global;
use std::io::Print;
use std::sync::Wait;
use std::sync::ledger::{Blank, Ledger};
use std::thread::Threads;
use std::time::Clock;

/// Each event is entered.
fn enter_all<L: Ledger, R: Wait + Print>(
    rt: &R,
    alloc: Global,
    office: &Office<L>,
    desk: &mut Desk<L>,
    b: BscId,
    steps: &[Step],
    want: &mut Want,
) -> Result<(), Wrong> {
    for step in steps {
        enter(rt, alloc, office, desk, b, *step, want)?;
    }
    Ok(())
}

/// A warning comes on air: the desks submit what leads to it by turns, and look. Then the whole centre is rebuilt,
/// its journal is folded, and it is rebuilt from the base that the fold left.
fn bring_on_air<L: Ledger, R: Wait + Print>(
    rt: &R,
    alloc: Global,
    office: &Office<L>,
    first: &mut Desk<L>,
    second: &mut Desk<L>,
    b: BscId,
    want: &mut Want,
) -> Result<(), Wrong> {
    enter(rt, alloc, office, first, b, Step::AddBsc, want)?;
    let cells = [7, 8, 9, 10, 11, 12, 13, 14].map(Step::AddCell);
    enter_all(rt, alloc, office, first, b, &cells, want)?;
    let issued = [Step::AddArea, Step::Put, Step::Issue, Step::LinkUp];
    enter_all(rt, alloc, office, second, b, &issued, want)?;
    has_order(rt, office, first, b)?;
    enter(rt, alloc, office, first, b, Step::Send, want)?;
    show(rt, office, second, b, want)?;
    enter(rt, alloc, office, second, b, Step::Complete, want)?;
    show(rt, office, first, b, want)?;
    rebuild(rt, office, second, b, want)?;
    let _ = println!(rt; "rebuild: ok");
    checkpoint(rt, office, second, b, want)?;
    rebuild(rt, office, first, b, want)?;
    let _ = println!(rt; "rebuild: ok");
    Ok(())
}

/// Room for two desks.
fn room<L: Ledger>(alloc: Global) -> Result<Vec<Desk<L>>, Wrong> {
    for _ in 0..TRIES {
        if let Ok(desks) = Vec::with_capacity(alloc, 2) {
            return Ok(desks);
        }
    }
    Err(Wrong::Memory)
}

/// The two desks in one list.
fn together<L: Ledger>(
    alloc: Global,
    first: Desk<L>,
    second: Desk<L>,
) -> Result<Vec<Desk<L>>, Wrong> {
    let mut desks = room(alloc)?;
    drop(desks.push(first));
    drop(desks.push(second));
    Ok(desks)
}

/// The desks after what they do in a round.
fn desks_after<L: Ledger + Send + Sync, R: Threads + Wait + Clock + Print + Sync>(
    rt: &R,
    alloc: Global,
    office: &Office<L>,
    b: BscId,
    want: &mut Want,
) -> Result<Vec<Desk<L>>, Wrong> {
    let mut first = open(rt, office, want)?;
    let mut second = open(rt, office, want)?;
    bring_on_air(rt, alloc, office, &mut first, &mut second, b, want)?;
    if want.takes() {
        return together(alloc, first, second);
    }
    let (first, second) = update_while_waiting(rt, alloc, office, (first, second), b, want)?;
    together(alloc, first, second)
}

/// The number of entries, where the desks settle.
fn settled<L: Ledger>(office: Office<L>, desks: Vec<Desk<L>>) -> Option<u64> {
    match office.settle(desks) {
        Ok(centre) => Some(centre.position()),
        Err(unsettled) => {
            drop(unsettled);
            None
        }
    }
}

/// A round of two desks. No memory is left to settle them.
pub(crate) fn round<L: Ledger + Send + Sync, R: Threads + Wait + Clock + Print + Sync>(
    rt: &R,
    alloc: Global,
    blank: Blank,
    b: BscId,
    want: &mut Want,
) -> Result<(), Wrong>
    requires name { blank.name ≡ L.name }
    requires parts { blank.parts ≡ L.parts }
    requires desks { blank.parts ≡ 1025 }
{
    let office = Office::<L>::new(alloc, blank, NETWORK, 1_000);
    let desks = desks_after(rt, alloc, &office, b, want)?;
    want.take(0);
    let settled = settled(office, desks);
    want.give();
    let Some(place) = settled else {
        return Err(Wrong::Settled);
    };
    let _ = println!(rt; "settle: ok {place}");
    Ok(())
}

/// The first of two desks, which has a receipt. The other one is lost.
fn one_of_two<L: Ledger, R: Wait + Print>(
    rt: &R,
    alloc: Global,
    office: &Office<L>,
    b: BscId,
    want: &mut Want,
) -> Result<Desk<L>, Wrong> {
    let mut first = open(rt, office, want)?;
    drop(open(rt, office, want)?);
    enter(rt, alloc, office, &mut first, b, Step::AddBsc, want)?;
    Ok(first)
}

/// Whether desk 2 is missing, and what is handed back is the centre with its entry, and desk 1 with its receipt.
fn lacks_the_second<L: Ledger>(unsettled: &Unsettled<L>) -> bool {
    let [desk] = unsettled.desks.as_slice() else {
        return false;
    };
    let is_missing = unsettled.fault == Fault::MissingDesk { desk: 2 };
    is_missing && unsettled.centre.position() == 1 && desk.receipts().len() == 1
}

/// Whether the desks don't settle, and all is handed back.
fn is_handed_back<L: Ledger>(office: Office<L>, desks: Vec<Desk<L>>) -> bool {
    match office.settle(desks) {
        Ok(centre) => {
            drop(centre);
            false
        }
        Err(unsettled) => {
            let lacks_the_second = lacks_the_second(&unsettled);
            drop(unsettled);
            lacks_the_second
        }
    }
}

/// Settles without the second of two desks, for which no memory is left.
pub(crate) fn miss_a_desk<L: Ledger, R: Wait + Print>(
    rt: &R,
    alloc: Global,
    blank: Blank,
    b: BscId,
    want: &mut Want,
) -> Result<(), Wrong>
    requires name { blank.name ≡ L.name }
    requires parts { blank.parts ≡ L.parts }
    requires desks { blank.parts ≡ 1025 }
{
    let mut desks = room(alloc)?;
    let office = Office::<L>::new(alloc, blank, NETWORK, 1_000);
    let first = one_of_two(rt, alloc, &office, b, want)?;
    drop(desks.push(first));
    want.take(0);
    let is_back = is_handed_back(office, desks);
    want.give();
    if !is_back {
        return Err(Wrong::Settled);
    }
    let _ = println!(rt; "settle: desk 2 is missing, and all is handed back");
    Ok(())
}
