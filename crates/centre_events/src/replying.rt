//! What a reply answers, and what it says of each cell of what was in flight (TS 48.049, 8.1.3).

ghost use Rattle.std.specs.Prelude.{◌≡◌, true, IfOk};
ghost use Rattle.std.specs.Option.{option_copied};
ghost use Rattle.centre_events.specs.InFlight.{agrees, written_by, cleared_by, new_of, old_of, id_of, cells_of, is_kill, kills, writes, asks, agree, matches, matches_flight};
ghost use Rattle.centre_events.specs.Lookups.{AreIdsPlacedIn, AreCountsPlacedIn, ArePlacesOf};
ghost use Rattle.centre_events.specs.Outcomes.{is_in_list, is_counted_in, done_or_silent, failure_outcome, outcome, replies_to, failed_ids};
ghost use Rattle.centre_events.specs.Verdict.{is_indication, is_out_of_place};

use crate::count_places::CountPlaces;
use crate::counts::number_of;
use crate::in_flight::InFlight;
use crate::last_places::LastPlaces;
use crate::lookups::{failure_in, is_counted, is_named};
use crate::outcome::Outcome;
use crate::replies::Replies;
use crate::reply::Reply;
use crate::reply_places::{ReplyPlaces, places_of};
use cbsp_ie::{CellId, CellIds, Counts, FailEntry, Failures};
use cbsp_messages::Message;
use common::Cell;
use order_maker::OrderKind;
use serials::Serial;
use std::alloc::{AllocError, Global};

/// Whether an identifier that is given, and has a counterpart in what is in flight, is that counterpart.
fn agrees(given: Option<u16>, counterpart: Option<u16>) -> bool
    ensures { result ≡ agrees given counterpart }
{
    match (given, counterpart) {
        (Some(given), Some(counterpart)) => given == counterpart,
        _ => true,
    }
}

/// The serial number that an order of the kind writes.
fn written_by(kind: OrderKind, serial: Serial) -> Option<u16>
    ensures { result ≡ written_by kind serial }
{
    match kind {
        OrderKind::Write | OrderKind::Replace { old: _ } => Some(serial.to_u16()),
        OrderKind::Kill => None,
    }
}

/// The serial number that an order of the kind takes off the air.
fn cleared_by(kind: OrderKind, serial: Serial) -> Option<u16>
    ensures { result ≡ cleared_by kind serial }
{
    match kind {
        OrderKind::Write => None,
        OrderKind::Replace { old } => Some(old.to_u16()),
        OrderKind::Kill => Some(serial.to_u16()),
    }
}

/// The counterpart of a New Serial Number; a query has none.
fn new_of(flight: &InFlight) -> Option<u16>
    ensures { result ≡ new_of flight.now }
{
    match flight {
        InFlight::Order(order) => written_by(order.kind, order.serial),
        InFlight::Query { .. } => None,
    }
}

/// The counterpart of an Old Serial Number.
pub fn old_of(flight: &InFlight) -> Option<u16>
    ensures { result ≡ old_of flight.now }
{
    match flight {
        InFlight::Order(order) => cleared_by(order.kind, order.serial),
        InFlight::Query { serial, .. } => Some(serial.to_u16()),
    }
}

/// The message identifier of what is in flight.
pub fn id_of(flight: &InFlight) -> u16
    ensures { result ≡ id_of flight.now }
{
    match flight {
        InFlight::Order(order) => order.message_id,
        InFlight::Query { message_id, .. } => *message_id,
    }
}

/// The cells of what is in flight, in their order.
pub fn cells_of(flight: &InFlight) -> &[Cell]
    ensures { result.now ≡ cells_of flight.now }
{
    match flight {
        InFlight::Order(order) => order.cells.as_slice(),
        InFlight::Query { cells, .. } => cells.as_slice(),
    }
}

/// Whether it is a KILL.
fn kills(flight: &InFlight) -> bool
    ensures { result ≡ kills flight.now }
{
    match flight {
        InFlight::Order(order) => order.kind == OrderKind::Kill,
        InFlight::Query { .. } => false,
    }
}

/// Whether it is a WRITE-REPLACE.
fn writes(flight: &InFlight) -> bool
    ensures { result ≡ writes flight.now }
{
    match flight {
        InFlight::Order(order) => order.kind != OrderKind::Kill,
        InFlight::Query { .. } => false,
    }
}

/// Whether it is a MESSAGE STATUS QUERY.
fn asks(flight: &InFlight) -> bool
    ensures { result ≡ asks flight.now }
{
    matches!(flight, InFlight::Query { .. })
}

/// Whether no identifier that is given differs from its counterpart.
fn agree(message_id: Option<u16>, serial: Option<u16>, old: Option<u16>, flight: &InFlight) -> bool
    ensures { result ≡ agree (record { message_id = message_id; serial = serial; old = old }) flight.now }
{
    agrees(message_id, Some(id_of(flight)))
        && agrees(serial, new_of(flight))
        && agrees(old, old_of(flight))
}

/// Whether the message answers what is in flight: it is of its kind, or an ERROR INDICATION, and no identifier that it
/// gives differs.
pub fn matches(message: &Message, flight: &InFlight) -> bool
    ensures { result ≡ matches message.now flight.now }
{
    match message {
        Message::WriteComplete(said) => {
            writes(flight) && agree(Some(said.message_id), Some(said.serial), said.old, flight)
        }
        Message::WriteFailure(said) => {
            writes(flight) && agree(Some(said.message_id), Some(said.serial), said.old, flight)
        }
        Message::KillComplete(said) => {
            kills(flight) && agree(Some(said.message_id), None, Some(said.serial), flight)
        }
        Message::KillFailure(said) => {
            kills(flight) && agree(Some(said.message_id), None, Some(said.serial), flight)
        }
        Message::StatusComplete(said) => {
            asks(flight) && agree(Some(said.message_id), None, Some(said.serial), flight)
        }
        Message::StatusFailure(said) => {
            asks(flight) && agree(Some(said.message_id), None, Some(said.serial), flight)
        }
        Message::ErrorIndication(said) => { agree(said.message_id, said.serial, said.old, flight) }
        _ => false,
    }
}

/// Whether the message is a RESTART or a FAILURE, which a BSC sends unasked.
pub fn is_indication(message: &Message) -> bool
    ensures { result ≡ is_indication message.now }
{
    matches!(message, Message::Restart(_) | Message::Failure(_))
}

/// Whether the message is no indication and answers nothing that is in flight.
pub fn is_out_of_place(message: &Message, flight: Option<&InFlight>) -> bool
    ensures { result ≡ is_out_of_place message.now (option_copied flight.entry) }
{
    if is_indication(message) {
        return false;
    }
    match flight {
        Some(flight) => !matches(message, flight),
        None => true,
    }
}

/// Whether the cell is one of those that a cell list names, where there is one.
fn is_in_list(
    network: [u8; 3],
    list: Option<&CellIds>,
    places: Option<&LastPlaces>,
    c: Cell,
) -> bool
    requires { AreIdsPlacedIn network (option_copied list) (option_copied places) }
    ensures { result ≡ is_in_list network (option_copied list.entry) c }
{
    match list {
        Some(list) => is_named(network, list.ids(), places, c),
        None => false,
    }
}

/// Whether a number of broadcasts is given of the cell, where there is such a list.
fn is_counted_in(
    network: [u8; 3],
    list: Option<&Counts>,
    places: Option<&CountPlaces>,
    c: Cell,
) -> bool
    requires { AreCountsPlacedIn network (option_copied list) (option_copied places) }
    ensures { result ≡ is_counted_in network (option_copied list.entry) c }
{
    match list {
        Some(list) => is_counted(network, list.entries(), places, c),
        None => false,
    }
}

/// What a FAILURE says of a cell, by the first failure that names it, and else by whether a list names it.
fn failure_outcome(failure: Option<&FailEntry>, is_done: bool) -> Outcome
    ensures { result ≡ failure_outcome (option_copied failure.entry) is_done }
{
    match failure {
        Some(failure) => Outcome::Refused(failure.cause),
        None if is_done => Outcome::Done,
        None => Outcome::Silent,
    }
}

/// What the reply says of the cell, where the places are those of its entries. The centre's network is these three octets
/// (TS 24.008, 10.5.1.3).
fn outcome(network: [u8; 3], message: &Message, places: &ReplyPlaces, c: Cell) -> Outcome
    requires { ArePlacesOf network message.now places.now }
    ensures { result ≡ outcome network message.now c }
{
    match message {
        Message::WriteFailure(said) => failure_outcome(
            failure_in(
                network,
                said.failures.as_slice(),
                places.failures.as_ref(),
                c,
            ),
            is_in_list(network, said.cells.as_ref(), places.cells.as_ref(), c)
                || is_counted_in(network, said.counts.as_ref(), places.counts.as_ref(), c),
        ),
        Message::KillFailure(said) => failure_outcome(
            failure_in(
                network,
                said.failures.as_slice(),
                places.failures.as_ref(),
                c,
            ),
            is_in_list(network, said.cells.as_ref(), places.cells.as_ref(), c)
                || is_counted_in(network, said.counts.as_ref(), places.counts.as_ref(), c),
        ),
        Message::StatusFailure(said) => failure_outcome(
            failure_in(
                network,
                said.failures.as_slice(),
                places.failures.as_ref(),
                c,
            ),
            is_counted_in(network, said.counts.as_ref(), places.counts.as_ref(), c),
        ),
        Message::ErrorIndication(said) => Outcome::Refused(said.cause),
        _ => Outcome::Done,
    }
}

/// What the reply says of each cell of what was in flight, in their order, where the places are those of its entries.
fn replies_by(
    alloc: Global,
    network: [u8; 3],
    message: &Message,
    places: &ReplyPlaces,
    flight: &InFlight,
) -> Result<Replies, AllocError>
    requires { ArePlacesOf network message.now places.now }
    ensures { IfOk result (λ r. r ≡ replies_to network message.now flight.now) }
{
    let old = old_of(flight);
    let cells = cells_of(flight);
    let mut said = Vec::with_capacity(alloc, cells.len())?;
    for cell in cells {
        said.push(Reply {
            cell: *cell,
            outcome: outcome(network, message, places, *cell),
            count: number_of(network, message, places, old, *cell),
        })?;
    }
    Ok(Replies::from_vec(said))
}

/// What the reply says of each cell of what was in flight, in their order.
pub fn replies_to(
    alloc: Global,
    network: [u8; 3],
    message: &Message,
    flight: &InFlight,
) -> Result<Replies, AllocError>
    ensures { IfOk result (λ r. r ≡ replies_to network message.now flight.now) }
{
    let places = places_of(alloc, network, message)?;
    replies_by(alloc, network, message, &places, flight)
}

/// The identifications of the cells that failed.
pub fn failed_ids(alloc: Global, failures: &Failures) -> Result<Vec<CellId>, AllocError>
    ensures { IfOk result (λ ids. ids.items ≡ failed_ids failures.now) }
{
    let mut ids = Vec::new(alloc);
    for failure in failures.as_slice() {
        ids.push(failure.id)?;
    }
    Ok(ids)
}
