//! What no clause says of a wish that no operator has: that it is kept and asked where the link is idle, and where it isn't.

ghost use Rattle.std.specs.Prelude.{◌≡◌};

use crate::checks::{same, yes};
use crate::given_events::{SEVEN, first_warning};
use crate::given_link::{COMPLETE, LINK, edits, enters, first_bsc, linked};
use cbsp_messages::read;
use cell_register::BscId;
use centre_events::event::Event;
use common::Cell;
use coverage_plan::Edit;
use office::desk::Desk;
use office::office::Office;
use office::wake::Wake;
use std::alloc::Global;
use std::marker::Brand;
use std::process::Abort;
use std::sync::Wait;
use std::sync::ledger::{Blank, Ledger};
use warning_book::WarningId;

/// Whether a wish is kept that no operator has, for the first warning at the first BSC.
fn own<L: Ledger, R: Wait + Abort>(rt: &R, office: &Office<L>, want: bool, at: &str) {
    let b = first_bsc(rt);
    same(rt, office.is_idle(rt, b), want, at);
    let kept = office.wish_if_idle(rt, b, first_warning(), None);
    same(rt, kept, Ok(want), at);
}

/// For what the write side goes on.
fn goes_on<L: Ledger, R: Wait + Abort>(
    rt: &R,
    office: &Office<L>,
    desk: &mut Desk<L>,
    after: Option<Cell>,
    at: &str,
) {
    let wake = office.wait_pending(rt, desk, first_bsc(rt), LINK);
    same(rt, wake, Wake::Query(first_warning(), after), at);
}

/// The first order is entered, and then answered.
fn is_on_air<L: Ledger, R: Wait + Abort>(
    rt: &R,
    alloc: Global,
    office: &Office<L>,
    desk: &mut Desk<L>,
    b: BscId,
) {
    own(rt, office, false, "an order is pending");
    enters(rt, office, desk, Event::Send(b, LINK));
    own(rt, office, false, "an order is in flight");
    let complete = read(alloc, 0x02, &COMPLETE[4..]).expect(rt, "a message");
    enters(rt, office, desk, Event::Report(b, LINK, complete));
}

/// A wish is kept beside an idle link alone; an operator's stays, and is asked.
fn wishes<L: Ledger, R: Wait + Abort>(rt: &R, alloc: Global, blank: Blank)
    requires name { blank.name ≡ L.name }
    requires parts { blank.parts ≡ L.parts }
    requires desks { blank.parts ≡ 1025 }
{
    let b = first_bsc(rt);
    let (office, mut desk) = linked::<L, R>(rt, alloc, blank, 1000);
    is_on_air(rt, alloc, &office, &mut desk, b);
    let wished = office.wish(rt, b, first_warning(), Some(SEVEN));
    same(rt, wished, Ok(()), "an operator's wish");
    own(rt, &office, false, "beside an operator's");
    goes_on(rt, &office, &mut desk, Some(SEVEN), "an operator's");
    own(rt, &office, true, "an idle link");
    own(rt, &office, false, "beside an own one");
    goes_on(rt, &office, &mut desk, None, "an own one");
    let other = office.wish_if_idle(rt, b, WarningId::new(2), None);
    yes(rt, other.is_err(), "no such warning");
    edits(rt, &office, &mut desk, Edit::Stop(first_warning()));
    own(rt, &office, false, "a kill is pending");
    enters(rt, &office, &mut desk, Event::LinkDown(b, LINK));
    own(rt, &office, false, "a link that is lost");
}

#[test]
fn an_own_wish_takes_no_others_place(rt: HostRuntime) {
    wishes::<Brand, _>(&rt, rt.alloc(), Blank::new(1025));
}
