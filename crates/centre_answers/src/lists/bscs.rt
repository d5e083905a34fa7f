//! The list of BSCs.

ghost use Rattle.std.specs.Prelude.{◌≡◌, ◌++◌, ◌∷◌, [], IfOk, OnOk, map};
ghost use Rattle.std.specs.Option.{option_map};
ghost use Rattle.centre_past.specs.Links.{flight_in};
ghost use Rattle.centre_events.specs.Past.{Past};
ghost use Rattle.centre_events.specs.declared.settings.Settings.{Settings};
ghost use Rattle.centre_past.specs.IsKept.{IsKept};
ghost use Rattle.centre_past.specs.Legal.{Legal};
ghost use Rattle.centre_past.specs.Lists.{bsc_row, bsc_rows, flight_kind_of, flight_row};

use cell_register::BscId;
use centre_events::in_flight::InFlight;
use centre_past::kept::Kept;
use centre_past::kept_links::KeptLinks;
use centre_past::links::{flight_in, generation, is_up};
use centre_past::lists::{BscRow, BscRows, FlightKind, FlightRow};
use order_maker::OrderKind;
use std::alloc::{AllocError, Global};

/// The kind of an order in flight.
fn flight_kind(kind: OrderKind) -> FlightKind
    ensures { result ≡ flight_kind_of kind }
{
    match kind {
        OrderKind::Write => FlightKind::Write,
        OrderKind::Replace { old: _ } => FlightKind::Replace,
        OrderKind::Kill => FlightKind::Kill,
    }
}

/// What is in flight, but for its cells.
fn flight_row(flight: &InFlight) -> FlightRow
    ensures { result ≡ flight_row flight.now }
{
    match flight {
        InFlight::Order(order) => FlightRow {
            kind: flight_kind(order.kind),
            message_id: order.message_id,
            serial: order.serial,
        },
        InFlight::Query {
            message_id,
            serial,
            cells: _,
        } => FlightRow {
            kind: FlightKind::Query,
            message_id: *message_id,
            serial: *serial,
        },
    }
}

/// What is in flight to the BSC, but for its cells.
fn flight_to(links: &KeptLinks, b: BscId) -> Option<FlightRow>
    ensures { result ≡ option_map flight_row (flight_in links.now b) }
{
    match flight_in(links, b) {
        Some(flight) => Some(flight_row(flight)),
        None => None,
    }
}

/// Adds the row of a BSC to which that is in flight.
fn add_row(
    rows: &mut Vec<BscRow>,
    kept: &Kept,
    b: BscId,
    flight: Option<FlightRow>,
) -> Result<(), AllocError>
    ensures { (settings : Settings) (past : Past) → Legal settings past → IsKept past kept.now → flight ≡ option_map flight_row (flight_in kept.now.links b) → OnOk result (rows.new.items ≡ rows.old.items ++ bsc_row past b ∷ []) }
{
    kept.plan.tell_soundness();
    let cells = kept.plan.register().cells_of(b)?;
    let row = BscRow {
        bsc: b,
        cells: cells.as_slice().len(),
        is_up: is_up(&kept.links, b),
        last: generation(&kept.links, b),
        flight,
        pending: kept.tables.count(b),
    };
    rows.push(row)?;
    Ok(())
}

/// The rows of the BSCs.
fn rows_of(alloc: Global, kept: &Kept, bscs: &[BscId]) -> Result<Vec<BscRow>, AllocError>
    ensures { (settings : Settings) (past : Past) → Legal settings past → IsKept past kept.now → IfOk result (λ rows. rows.items ≡ map (bsc_row past) bscs.now) }
{
    let mut rows = Vec::with_capacity(alloc, bscs.len())?;
    for bsc in bscs {
        let flight = flight_to(&kept.links, *bsc);
        add_row(&mut rows, kept, *bsc, flight)?;
    }
    Ok(rows)
}

/// The registered BSCs, in ascending order: of each how many cells are registered there, its link, what is in flight to it
/// and how many orders are pending for it.
pub fn bscs(alloc: Global, kept: &Kept) -> Result<BscRows, AllocError>
    ensures { (settings : Settings) (past : Past) → Legal settings past → IsKept past kept.now → IfOk result (λ rows. rows ≡ bsc_rows past) }
{
    kept.plan.tell_soundness();
    let rows = rows_of(alloc, kept, kept.plan.register().bscs())?;
    Ok(BscRows::from_vec(rows))
}
