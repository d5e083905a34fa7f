//! Where the entries of a reply's lists stand that name a cell.

ghost use Rattle.std.specs.Prelude.{IfOk};
ghost use Rattle.std.specs.Option.{option_copied};
ghost use Rattle.centre_events.specs.Lookups.{AreFailuresPlaced, AreFailuresPlacedIn, AreIdsPlaced, AreIdsPlacedIn, AreCountsPlaced, AreCountsPlacedIn, ArePlacesOf};

use crate::count_places::CountPlaces;
use crate::last_places::LastPlaces;
use crate::lookups::{counts_rise, failures_of, failures_rise, ids_of, ids_rise, numbers_of};
use cbsp_ie::{CellId, CellIds, CountEntry, Counts, FailEntry, Failures};
use cbsp_messages::Message;
use std::alloc::{AllocError, Global};

/// Where the entries of a reply's lists stand. There are no places of a list in ascending order of the single cells that its entries
/// identify, since the entry of a cell is found there by halves; nor of a list that the reply doesn't have.
#[derive(Drop)]
pub(crate) struct ReplyPlaces {
    /// The cells that failed, from the last one on.
    pub(crate) failures: Option<LastPlaces>,
    /// The cells in which it was carried out.
    pub(crate) cells: Option<LastPlaces>,
    /// The numbers of broadcasts.
    pub(crate) counts: Option<CountPlaces>,
}

/// The places of the failures, where they aren't in order.
fn failure_places(
    alloc: Global,
    network: [u8; 3],
    failures: &[FailEntry],
) -> Result<Option<LastPlaces>, AllocError>
    ensures { IfOk result (AreFailuresPlaced network failures.now) }
{
    if failures_rise(failures) {
        return Ok(None);
    }
    let places = LastPlaces::of_failures(alloc, network, failures)?;
    Ok(Some(places))
}

/// The places of the identifications, where they aren't in order.
fn id_places(
    alloc: Global,
    network: [u8; 3],
    ids: &[CellId],
) -> Result<Option<LastPlaces>, AllocError>
    ensures { IfOk result (AreIdsPlaced network ids.now) }
{
    if ids_rise(ids) {
        return Ok(None);
    }
    let places = LastPlaces::of_ids(alloc, network, ids)?;
    Ok(Some(places))
}

/// The places of the entries with numbers, where they aren't in order.
fn count_places(
    alloc: Global,
    network: [u8; 3],
    entries: &[CountEntry],
) -> Result<Option<CountPlaces>, AllocError>
    ensures { IfOk result (AreCountsPlaced network entries.now) }
{
    if counts_rise(entries) {
        return Ok(None);
    }
    let all = LastPlaces::of_counts(alloc, network, entries)?;
    let numbers = LastPlaces::of_numbers(alloc, network, entries)?;
    Ok(Some(CountPlaces {
        entries: all,
        numbers,
    }))
}

/// The places of the failures, where the reply has a list of them.
fn places_of_failures(
    alloc: Global,
    network: [u8; 3],
    list: Option<&Failures>,
) -> Result<Option<LastPlaces>, AllocError>
    ensures { IfOk result (AreFailuresPlacedIn network (option_copied list.entry)) }
{
    match list {
        Some(list) => failure_places(alloc, network, list.as_slice()),
        None => Ok(None),
    }
}

/// The places of the identifications, where the reply has a list of them.
fn places_of_ids(
    alloc: Global,
    network: [u8; 3],
    list: Option<&CellIds>,
) -> Result<Option<LastPlaces>, AllocError>
    ensures { IfOk result (AreIdsPlacedIn network (option_copied list.entry)) }
{
    match list {
        Some(list) => id_places(alloc, network, list.ids()),
        None => Ok(None),
    }
}

/// The places of the entries with numbers, where the reply has a list of them.
fn places_of_counts(
    alloc: Global,
    network: [u8; 3],
    list: Option<&Counts>,
) -> Result<Option<CountPlaces>, AllocError>
    ensures { IfOk result (AreCountsPlacedIn network (option_copied list.entry)) }
{
    match list {
        Some(list) => count_places(alloc, network, list.entries()),
        None => Ok(None),
    }
}

/// Where the entries of the reply's lists stand.
pub(crate) fn places_of(
    alloc: Global,
    network: [u8; 3],
    message: &Message,
) -> Result<ReplyPlaces, AllocError>
    ensures { IfOk result (ArePlacesOf network message.now) }
{
    Ok(ReplyPlaces {
        failures: places_of_failures(alloc, network, failures_of(message))?,
        cells: places_of_ids(alloc, network, ids_of(message))?,
        counts: places_of_counts(alloc, network, numbers_of(message))?,
    })
}
