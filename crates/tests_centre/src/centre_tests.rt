//! What no clause says of the centre: that each call can succeed, and what is lent of a flight. What is answered, worked
//! scripts in the data of `examples` show.

use crate::checks::{same, yes};
use crate::day::after;
use crate::steps::{EIGHT, MESSAGE_ID, SEVEN, bsc, first_serial};
use centre_core::centre::Centre;
use centre_events::in_flight::InFlight;
use common::Cells;
use order_maker::{Order, OrderKind};
use std::alloc::Global;
use std::process::Abort;

/// The order is the write of the first version in both cells.
fn is_write(order: &Order) -> bool {
    order.kind == OrderKind::Write
        && order.message_id == MESSAGE_ID
        && order.serial == first_serial()
        && order.cells.as_slice() == [SEVEN, EIGHT].as_slice()
}

/// After so many steps of the day the write is in flight, or else nothing is.
fn is_in_flight(rt: &impl Abort, alloc: Global, count: usize, is_there: bool) {
    let centre = after(rt, alloc, count);
    let flight = centre.in_flight_of(bsc(rt, 1)).expect(rt, "the flight");
    let is_so = match flight {
        Some(InFlight::Order(order)) => is_there && is_write(order),
        Some(InFlight::Query { .. }) => false,
        None => !is_there,
    };
    yes(rt, is_so, "what is in flight");
    drop(centre);
}

/// The seventh step brings the link up. The eighth sends the order and the ninth answers it; the thirteenth sends it again,
/// and with the fourteenth the link is lost.
#[test]
fn an_order_is_in_flight_until_it_is_answered_or_lost(rt: HostRuntime) {
    let alloc = rt.alloc();
    is_in_flight(&rt, alloc, 7, false);
    is_in_flight(&rt, alloc, 8, true);
    is_in_flight(&rt, alloc, 9, false);
    is_in_flight(&rt, alloc, 13, true);
    is_in_flight(&rt, alloc, 14, false);
}

fn flight_is_copied(rt: &impl Abort, alloc: Global, flight: &InFlight) {
    let copy = flight.copied(alloc).expect(rt, "memory");
    let is_same = flight.same(&copy);
    drop(copy);
    yes(rt, is_same, "a flight is copied");
}

/// The flight after the eighth step, and a query.
fn flights_are_copied(rt: &impl Abort, alloc: Global) {
    let centre = after(rt, alloc, 8);
    if let Ok(Some(flight)) = centre.in_flight_of(bsc(rt, 1)) {
        flight_is_copied(rt, alloc, flight);
    }
    let cells = Vec::from_slice(alloc, &[SEVEN]).expect(rt, "memory");
    let query = InFlight::Query {
        message_id: MESSAGE_ID,
        serial: first_serial(),
        cells: Cells::from_vec(cells),
    };
    flight_is_copied(rt, alloc, &query);
    drop(query);
    drop(centre);
}

/// After the fourteenth step an order is pending, and two keys are reported.
fn lists_are_copied(rt: &impl Abort, alloc: Global, centre: &mut Centre) {
    let orders = centre.pending_of(bsc(rt, 1)).expect(rt, "the orders");
    let copy = orders.copied(alloc).expect(rt, "memory");
    same(rt, copy.as_slice().len(), 1, "the orders are copied");
    let keys = centre.table_of(bsc(rt, 1)).expect(rt, "the table");
    let copy = keys.copied(alloc).expect(rt, "memory");
    same(rt, copy.as_slice().len(), 2, "the table is copied");
}

#[test]
fn every_call_answers(rt: HostRuntime) {
    let alloc = rt.alloc();
    flights_are_copied(&rt, alloc);
    let mut centre = after(&rt, alloc, 14);
    lists_are_copied(&rt, alloc, &mut centre);
    let place = centre.place_of(SEVEN);
    yes(&rt, place == Ok(Some(bsc(&rt, 1))), "the place of a cell");
    drop(centre);
}
