//! A side of a link waits in a thread of its own, while a desk submits what makes an order pending.

use crate::asking::{Says, ask_all};
use crate::calls::{enter, has_order, is_as_before, rebuild, say_entered};
use crate::events::{LINK, Step, event_of};
use crate::met::Met;
use crate::want::{TRIES, Want};
use crate::wrong::Wrong;
use cell_register::BscId;
use centre_events::refusal::Refusal;
use office::desk::Desk;
use office::office::Office;
use office::wake::Wake;
use std::alloc::Global;
use std::io::Print;
use std::sync::Wait;
use std::sync::ledger::Ledger;
use std::thread;
use std::thread::Threads;
use std::time::{Clock, Duration};

fn update_once<L: Ledger, R: Wait>(
    rt: &R,
    alloc: Global,
    office: &Office<L>,
    desk: &mut Desk<L>,
    b: BscId,
) -> Result<(), Refusal> {
    let event = event_of(alloc, b, Step::Update)?;
    office.submit(rt, desk, event)
}

/// Updates the warning until that is entered or the centre is stale. The other side has some time to begin to wait.
fn update<L: Ledger, R: Wait + Clock>(
    rt: &R,
    alloc: Global,
    office: &Office<L>,
    mut desk: Desk<L>,
    b: BscId,
) -> (Desk<L>, Result<(), Refusal>) {
    thread::sleep(rt, Duration::from_millis(5));
    for _ in 0..TRIES {
        let result = update_once(rt, alloc, office, &mut desk, b);
        if result != Err(Refusal::Memory) {
            return (desk, result);
        }
    }
    (desk, Err(Refusal::Memory))
}

/// For what the side of the link goes on, and its desk.
fn side<L: Ledger, R: Wait>(
    rt: &R,
    office: &Office<L>,
    mut desk: Desk<L>,
    b: BscId,
) -> (Wake, Desk<L>) {
    let wake = office.wait_pending(rt, &mut desk, b, LINK);
    (wake, desk)
}

/// Both at once: the first desk and what its update is answered, the desk of the side, and for what that goes on.
fn both<L: Ledger + Send + Sync, R: Threads + Wait + Clock + Sync>(
    rt: &R,
    alloc: Global,
    office: &Office<L>,
    desks: (Desk<L>, Desk<L>),
    b: BscId,
) -> (Desk<L>, Desk<L>, Wake, Result<(), Refusal>) {
    let (first, second) = desks;
    let (waited, updated) = thread::join(
        rt,
        move || side(rt, office, second, b),
        move || update(rt, alloc, office, first, b),
    );
    (updated.0, waited.1, waited.0, updated.1)
}

/// The side that waited was told that the centre is stale. It is made whole, and is as it was.
fn is_told<L: Ledger, R: Wait + Print>(
    rt: &R,
    office: &Office<L>,
    desk: &Desk<L>,
    b: BscId,
    wake: Wake,
    want: &mut Want,
) -> Result<(), Wrong> {
    if wake != Wake::StaleCentre {
        return Err(Wrong::Wake);
    }
    want.note(rt, Met::WaitedStale);
    rebuild(rt, office, desk, b, want)?;
    want.note(rt, Met::Rebuilt);
    Ok(())
}

/// The update is entered, at once or after a rebuild, and there is an order to send.
fn go_on<L: Ledger, R: Wait + Print>(
    rt: &R,
    alloc: Global,
    office: &Office<L>,
    desk: &mut Desk<L>,
    b: BscId,
    came: (Wake, Result<(), Refusal>),
    before: Result<Says, Refusal>,
    want: &mut Want,
) -> Result<(), Wrong> {
    let (wake, result) = came;
    match result {
        Ok(()) if wake == Wake::Order => say_entered(rt, Step::Update, desk),
        Ok(()) => return Err(Wrong::Wake),
        Err(Refusal::Stale) => {
            is_told(rt, office, desk, b, wake, want)?;
            is_as_before(rt, office, desk, b, before, want)?;
            enter(rt, alloc, office, desk, b, Step::Update, want)?;
        }
        Err(_) => return Err(Wrong::Refused),
    }
    has_order(rt, office, desk, b)
}

/// The first desk updates the warning while the side of the link, whose desk the second is, waits.
pub(crate) fn update_while_waiting<
    L: Ledger + Send + Sync,
    R: Threads + Wait + Clock + Print + Sync,
>(
    rt: &R,
    alloc: Global,
    office: &Office<L>,
    desks: (Desk<L>, Desk<L>),
    b: BscId,
    want: &mut Want,
) -> Result<(Desk<L>, Desk<L>), Wrong> {
    let before = ask_all(rt, office, &desks.0, b, want);
    let (mut first, second, wake, result) = both(rt, alloc, office, desks, b);
    go_on(
        rt,
        alloc,
        office,
        &mut first,
        b,
        (wake, result),
        before,
        want,
    )?;
    Ok((first, second))
}
