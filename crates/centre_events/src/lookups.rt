//! The entry of a cell in a list of a reply. BSCs answer in the order of the order's cells, each by an identification of its
//! own, so that the entry is mostly found by halves. Of any other list the places of the entries are gathered once.

ghost use Rattle.std.specs.Prelude.{◌≡◌, ℕ, true, false, List, find, reverse};
ghost use Rattle.std.specs.List.{list_any};
ghost use Rattle.std.specs.List.Sorted.{IsPartitionPoint};
ghost use Rattle.std.specs.Option.{option_copied, option_map};
ghost use Rattle.cbsp_ie.specs.CellId.{names};
ghost use Rattle.centre_events.specs.Counts.{gives_number, last_number, numbers_of};
ghost use Rattle.centre_events.specs.Known.{is_named};
ghost use Rattle.centre_events.specs.LastPlaces.{IsPlaced};
ghost use Rattle.centre_events.specs.Lookups.{is_before, id_lt, are_ordered, failures_of, ids_of, AreFailuresPlaced, AreIdsPlaced, AreCountsPlaced};
ghost use Rattle.centre_events.specs.Outcomes.{failure_in};

use crate::count_places::CountPlaces;
use crate::last_places::LastPlaces;
use cbsp_ie::{CellId, CellIds, CountEntry, Counts, FailEntry, Failures};
use cbsp_messages::Message;
use common::Cell;

/// Whether the identification is that of a single cell, which comes before the given one.
fn is_before(id: &CellId, c: Cell) -> bool
    ensures { result ≡ is_before id.now c }
{
    match id {
        CellId::Global { lac, ci, .. } => Cell { lac: *lac, ci: *ci }.is_before(&c),
        CellId::LacCi { lac, ci } => Cell { lac: *lac, ci: *ci }.is_before(&c),
        CellId::Ci { .. } => false,
        CellId::Lai { .. } => false,
        CellId::Lac { .. } => false,
        CellId::All => false,
    }
}

/// Whether both are identifications of single cells, and the first's comes before the second's.
fn id_lt(id: &CellId, next: &CellId) -> bool
    ensures { result ≡ id_lt id.now next.now }
{
    match next {
        CellId::Global { lac, ci, .. } => is_before(id, Cell { lac: *lac, ci: *ci }),
        CellId::LacCi { lac, ci } => is_before(id, Cell { lac: *lac, ci: *ci }),
        CellId::Ci { .. } => false,
        CellId::Lai { .. } => false,
        CellId::Lac { .. } => false,
        CellId::All => false,
    }
}

/// Whether the failures are of single cells in ascending order.
pub(crate) fn failures_rise(failures: &[FailEntry]) -> bool
    ensures { result ≡ true → are_ordered (λ e. e.id) failures.now ≡ true }
{
    failures.is_sorted_by(|entry, next| id_lt(&entry.id, &next.id))
}

/// Whether the identifications are those of single cells in ascending order.
pub(crate) fn ids_rise(ids: &[CellId]) -> bool
    ensures { result ≡ true → are_ordered (λ i. i) ids.now ≡ true }
{
    ids.is_sorted_by(|id, next| id_lt(id, next))
}

/// Whether the numbers are of single cells in ascending order.
pub(crate) fn counts_rise(entries: &[CountEntry]) -> bool
    ensures { result ≡ true → are_ordered (λ e. e.id) entries.now ≡ true }
{
    entries.is_sorted_by(|entry, next| id_lt(&entry.id, &next.id))
}

/// The failures that the reply lists.
pub(crate) fn failures_of(message: &Message) -> Option<&Failures>
    ensures { option_copied result ≡ failures_of message.now }
{
    match message {
        Message::WriteFailure(said) => Some(&said.failures),
        Message::KillFailure(said) => Some(&said.failures),
        Message::StatusFailure(said) => Some(&said.failures),
        _ => None,
    }
}

/// The cells that the reply lists as those in which it was carried out.
pub(crate) fn ids_of(message: &Message) -> Option<&CellIds>
    ensures { option_copied result ≡ ids_of message.now }
{
    match message {
        Message::WriteFailure(said) => said.cells.as_ref(),
        Message::KillFailure(said) => said.cells.as_ref(),
        _ => None,
    }
}

/// The numbers of broadcasts that the reply gives.
pub(crate) fn numbers_of(message: &Message) -> Option<&Counts>
    ensures { option_copied result ≡ numbers_of message.now }
{
    match message {
        Message::WriteComplete(said) => said.counts.as_ref(),
        Message::WriteFailure(said) => said.counts.as_ref(),
        Message::KillComplete(said) => said.counts.as_ref(),
        Message::KillFailure(said) => said.counts.as_ref(),
        Message::StatusComplete(said) => Some(&said.counts),
        Message::StatusFailure(said) => said.counts.as_ref(),
        _ => None,
    }
}

/// Where the failures begin whose cells don't come before the given one.
fn failure_start(failures: &[FailEntry], c: Cell) -> usize
    requires { are_ordered (λ e. e.id) failures.now ≡ true }
    ensures { IsPartitionPoint (λ e. is_before e.id c ≡ true) (λ e. is_before e.id c ≡ false) failures.now result }
{
    failures.partition_point(|entry| is_before(&entry.id, c))
}

/// Where the identifications begin whose cells don't come before the given one.
fn id_start(ids: &[CellId], c: Cell) -> usize
    requires { are_ordered (λ i. i) ids.now ≡ true }
    ensures { IsPartitionPoint (λ i. is_before i c ≡ true) (λ i. is_before i c ≡ false) ids.now result }
{
    ids.partition_point(|id| is_before(id, c))
}

/// Where the numbers begin whose cells don't come before the given one.
fn count_start(entries: &[CountEntry], c: Cell) -> usize
    requires { are_ordered (λ e. e.id) entries.now ≡ true }
    ensures { IsPartitionPoint (λ e. is_before e.id c ≡ true) (λ e. is_before e.id c ≡ false) entries.now result }
{
    entries.partition_point(|entry| is_before(&entry.id, c))
}

/// The failure that names the cell, found by halves.
fn failure_at(network: [u8; 3], failures: &[FailEntry], c: Cell) -> Option<&FailEntry>
    requires { are_ordered (λ e. e.id) failures.now ≡ true }
    ensures { option_copied result ≡ failure_in network failures.now c }
{
    match failures.get(failure_start(failures, c)) {
        Some(failure) if failure.id.names(network, c) => Some(failure),
        _ => None,
    }
}

/// Whether an identification names the cell, found by halves.
fn is_named_at(network: [u8; 3], ids: &[CellId], c: Cell) -> bool
    requires { are_ordered (λ i. i) ids.now ≡ true }
    ensures { result ≡ is_named network ids.now c }
{
    match ids.get(id_start(ids, c)) {
        Some(id) => id.names(network, c),
        None => false,
    }
}

/// Whether a number of broadcasts is given of the cell, found by halves.
fn is_counted_at(network: [u8; 3], entries: &[CountEntry], c: Cell) -> bool
    requires { are_ordered (λ e. e.id) entries.now ≡ true }
    ensures { result ≡ list_any (λ e. names network e.id c) entries.now }
{
    match entries.get(count_start(entries, c)) {
        Some(entry) => entry.id.names(network, c),
        None => false,
    }
}

/// Whether the entry gives a valid number of broadcasts of the cell.
fn gives_number(network: [u8; 3], c: Cell, entry: &CountEntry) -> bool
    ensures { result ≡ gives_number network c entry.now }
{
    entry.info == 0 && entry.id.names(network, c)
}

/// The number that is given of the cell, found by halves.
fn number_at(network: [u8; 3], entries: &[CountEntry], c: Cell) -> Option<u16>
    requires { are_ordered (λ e. e.id) entries.now ≡ true }
    ensures { result ≡ last_number network entries.now c }
{
    match entries.get(count_start(entries, c)) {
        Some(entry) if gives_number(network, c, entry) => Some(entry.number),
        _ => None,
    }
}

/// The first of the failures that names the cell, by the places of the failures from the last one on.
fn first_failure<'a>(
    failures: &'a [FailEntry],
    places: &LastPlaces,
    c: Cell,
) -> Option<&'a FailEntry>
    ensures { (network : List ℕ) → IsPlaced (λ d f. names network f.id d) failures.now places.now → option_copied result ≡ failure_in network failures.now c }
{
    failures.get(failures.len().saturating_sub(places.of_cell(c)))
}

/// The number of the entry, if there is one.
fn number_given(entry: Option<&CountEntry>) -> Option<u16>
    ensures { result ≡ option_map (λ e. e.number) (option_copied entry.entry) }
{
    match entry {
        Some(entry) => Some(entry.number),
        None => None,
    }
}

/// The last number of the cell, by the places of the entries that give one.
#[tactic(auto, using(crate::proofs::PlaceLemmas::none_turned))]
fn last_number(entries: &[CountEntry], places: &LastPlaces, c: Cell) -> Option<u16>
    ensures { (network : List ℕ) → IsPlaced (gives_number network) (reverse entries.now) places.now → result ≡ last_number network entries.now c }
{
    let place = places.of_cell(c);
    if place == 0 {
        return None;
    }
    number_given(entries.get(place - 1))
}

/// The first of the failures that names the cell.
pub(crate) fn failure_in<'a>(
    network: [u8; 3],
    failures: &'a [FailEntry],
    places: Option<&LastPlaces>,
    c: Cell,
) -> Option<&'a FailEntry>
    requires { AreFailuresPlaced network failures.now (option_copied places) }
    ensures { option_copied result ≡ failure_in network failures.now c }
{
    match places {
        Some(places) => first_failure(failures, places, c),
        None => failure_at(network, failures, c),
    }
}

/// Whether one of the identifications names the cell.
#[tactic(auto, using(crate::proofs::PlaceLemmas::any_placed))]
pub(crate) fn is_named(
    network: [u8; 3],
    ids: &[CellId],
    places: Option<&LastPlaces>,
    c: Cell,
) -> bool
    requires { AreIdsPlaced network ids.now (option_copied places) }
    ensures { result ≡ is_named network ids.now c }
{
    match places {
        Some(places) => places.of_cell(c) > 0,
        None => is_named_at(network, ids, c),
    }
}

/// Whether one of the entries gives a number of broadcasts of the cell.
#[tactic(auto, using(crate::proofs::PlaceLemmas::any_placed))]
pub(crate) fn is_counted(
    network: [u8; 3],
    entries: &[CountEntry],
    places: Option<&CountPlaces>,
    c: Cell,
) -> bool
    requires { AreCountsPlaced network entries.now (option_copied places) }
    ensures { result ≡ list_any (λ e. names network e.id c) entries.now }
{
    match places {
        Some(places) => places.entries.of_cell(c) > 0,
        None => is_counted_at(network, entries, c),
    }
}

/// The last number that the entries give of the cell.
pub(crate) fn number_among(
    network: [u8; 3],
    entries: &[CountEntry],
    places: Option<&CountPlaces>,
    c: Cell,
) -> Option<u16>
    requires { AreCountsPlaced network entries.now (option_copied places) }
    ensures { result ≡ last_number network entries.now c }
{
    match places {
        Some(places) => last_number(entries, &places.numbers, c),
        None => number_at(network, entries, c),
    }
}
