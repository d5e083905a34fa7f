//! What no clause says of an office: for what a link's write side goes on.

ghost use Rattle.std.specs.Prelude.{◌≡◌};

use crate::checks::same;
use crate::given_events::{SEVEN, bsc, first_warning, issue};
use crate::given_link::{COMPLETE, LINK, enters, first_bsc, linked};
use cbsp_messages::read;
use cell_register::BscId;
use centre_events::event::Event;
use centre_events::refusal::Refusal;
use common::Cell;
use office::desk::Desk;
use office::office::Office;
use office::question::Question;
use office::wake::Wake;
use std::alloc::Global;
use std::marker::Brand;
use std::process::Abort;
use std::sync::Wait;
use std::sync::ledger::{Blank, Ledger};
use warning_book::WarningId;

/// The first order is sent, and answered.
fn is_answered<L: Ledger, R: Wait + Abort>(
    rt: &R,
    alloc: Global,
    office: &Office<L>,
    desk: &mut Desk<L>,
    b: BscId,
) {
    enters(rt, office, desk, Event::Send(b, LINK));
    let complete = read(alloc, 0x02, &COMPLETE[4..]).expect(rt, "a message");
    enters(rt, office, desk, Event::Report(b, LINK, complete));
}

/// A wish for a query is refused where the BSC or the warning isn't there, and else kept in the place of the one before it.
fn wishes<L: Ledger, R: Wait + Abort>(rt: &R, office: &Office<L>, b: BscId) {
    let first = first_warning();
    let bsc = office.wish(rt, bsc(rt, 2), first, None);
    same(rt, bsc, Err(Refusal::NoSuchBsc), "another BSC");
    let warning = office.wish(rt, b, WarningId::new(2), None);
    same(rt, warning, Err(Refusal::NoSuchWarning), "another warning");
    let wished = office.wish(rt, b, first, Some(Cell { lac: 0, ci: 0 }));
    same(rt, wished, Ok(()), "a wish");
    let wished = office.wish(rt, b, first, Some(SEVEN));
    same(rt, wished, Ok(()), "another wish");
}

/// For what the write side goes on: where an order is pending, where it was answered and a query is wished for twice, where the
/// link is an older one, and where it is lost.
fn wakes<L: Ledger, R: Wait + Abort>(rt: &R, alloc: Global, blank: Blank)
    requires name { blank.name ≡ L.name }
    requires parts { blank.parts ≡ L.parts }
    requires desks { blank.parts ≡ 1025 }
{
    let b = first_bsc(rt);
    let (office, mut desk) = linked::<L, R>(rt, alloc, blank, 1000);
    let pending = office.wait_pending(rt, &mut desk, b, LINK);
    same(rt, pending, Wake::Order, "pending");
    is_answered(rt, alloc, &office, &mut desk, b);
    wishes(rt, &office, b);
    let wished = office.wait_pending(rt, &mut desk, b, LINK);
    let query = Wake::Query(first_warning(), Some(SEVEN));
    same(rt, wished, query, "wished for");
    let older = office.wait_pending(rt, &mut desk, b, LINK - 1);
    same(rt, older, Wake::Ended, "an older link");
    enters(rt, &office, &mut desk, Event::LinkDown(b, LINK));
    let lost = office.wait_pending(rt, &mut desk, b, LINK);
    same(rt, lost, Wake::Ended, "lost");
}

#[test]
fn a_side_goes_on_for_what_is_to_be_done(rt: HostRuntime) {
    wakes::<Brand, _>(&rt, rt.alloc(), Blank::new(1025));
}

/// What the side is told where the centre is stale, after an event that was refused so; or with ample memory.
fn is_told<L: Ledger, R: Wait + Abort>(
    rt: &R,
    office: &Office<L>,
    desk: &mut Desk<L>,
    refused: Option<Refusal>,
    is_stale: bool,
) {
    let b = first_bsc(rt);
    let wake = office.wait_pending(rt, desk, b, LINK);
    let wish = office.wish(rt, b, first_warning(), None);
    if is_stale {
        same(rt, refused, Some(Refusal::Memory), "an event");
        same(rt, wake, Wake::StaleCentre, "a stale centre");
        same(rt, wish, Err(Refusal::Stale), "a wish");
        let folded = office.checkpoint(rt);
        same(rt, folded, Err(Refusal::Stale), "a checkpoint");
    } else {
        same(rt, wake, Wake::Order, "a whole centre");
    }
}

/// Another warning is issued while an order is pending. Then the centre is made whole again.
fn wakes_after_issue<L: Ledger, R: Wait + Abort>(rt: &R, alloc: Global, blank: Blank)
    requires name { blank.name ≡ L.name }
    requires parts { blank.parts ≡ L.parts }
    requires desks { blank.parts ≡ 1025 }
{
    let b = first_bsc(rt);
    let (office, mut desk) = linked::<L, R>(rt, alloc, blank, 1000);
    let refused = office.submit(rt, &mut desk, issue(rt, alloc)).err();
    let question = office.look(rt, &desk, Question::InFlight(b)).err();
    is_told(
        rt,
        &office,
        &mut desk,
        refused,
        question == Some(Refusal::Stale),
    );
    if office.rebuild(rt, &desk).is_err() {
        let rebuilt = office.rebuild(rt, &desk);
        rebuilt.expect(rt, "the centre is rebuilt");
    }
    let wake = office.wait_pending(rt, &mut desk, b, LINK);
    same(rt, wake, Wake::Order, "rebuilt");
}

/// Where memory ran out in the middle of an event, a side is told that the centre is stale, and a wish is refused, until it is
/// whole again. With ample memory it is whole all the time.
#[test]
fn a_side_is_told_that_the_centre_is_stale(rt: HostRuntime) {
    wakes_after_issue::<Brand, _>(&rt, rt.alloc(), Blank::new(1025));
}
