//! What no clause says of a wish: that a line of the operator leaves it in the office, with the cell that was typed.

ghost use Rattle.std.specs.Prelude.{◌≡◌};

use crate::checks::same;
use crate::given_office::{COMPLETE, LINK, SEVEN, enters, first_bsc, first_warning, linked};
use crate::list_tests::is_answered;
use cbsp_messages::read;
use centre_events::event::Event;
use office::desk::Desk;
use office::office::Office;
use office::wake::Wake;
use std::alloc::Global;
use std::marker::Brand;
use std::process::Abort;
use std::rt::Clock;
use std::sync::Wait;
use std::sync::ledger::{Blank, Ledger};

/// The first order is sent and answered, so that a query is next.
fn settles<L: Ledger, R: Wait + Abort>(
    rt: &R,
    alloc: Global,
    office: &Office<L>,
    desk: &mut Desk<L>,
) {
    let b = first_bsc(rt);
    enters(rt, office, desk, Event::Send(b, LINK));
    let complete = read(alloc, 0x02, &COMPLETE[4..]).expect(rt, "a message");
    enters(rt, office, desk, Event::Report(b, LINK, complete));
}

/// For what the side of the link goes on after a wish with a cell was typed, and after one without.
fn typed<L: Ledger, R: Wait + Clock + Abort>(rt: &R, alloc: Global, blank: Blank) -> (Wake, Wake)
    requires name { blank.name ≡ L.name }
    requires parts { blank.parts ≡ L.parts }
    requires desks { blank.parts ≡ 1025 }
{
    let b = first_bsc(rt);
    let (office, mut desk) = linked::<L, R>(rt, alloc, blank, 1000);
    settles(rt, alloc, &office, &mut desk);
    is_answered(rt, alloc, &office, b"wish 1 1 100 7\n", b"wished\n");
    let after_cell = office.wait_pending(rt, &mut desk, b, LINK);
    is_answered(rt, alloc, &office, b"wish 1 1\n", b"wished\n");
    let from_first = office.wait_pending(rt, &mut desk, b, LINK);
    (after_cell, from_first)
}

#[test]
fn a_typed_wish_is_asked_with_its_cell(rt: HostRuntime) {
    let (after_cell, from_first) = typed::<Brand, _>(&rt, rt.alloc(), Blank::new(1025));
    let query = Wake::Query(first_warning(), Some(SEVEN));
    same(&rt, after_cell, query, "with a cell");
    let query = Wake::Query(first_warning(), None);
    same(&rt, from_first, query, "without a cell");
}
