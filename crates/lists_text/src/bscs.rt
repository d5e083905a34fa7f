//! The lists of BSCs and of their links.

ghost use Rattle.std.specs.Prelude.{◌≡◌, IfOk, OnOk, ◌++◌, string_bytes};
ghost use Rattle.lists_text.specs.ListTexts.{bsc_text, bscs_text, flight_name, flight_text, is_in_service, link_line, link_text, links_count, links_text, reset_of, time_text, up_text};

use crate::digits::{four_digits, identifier_text};
use crate::lines::{push_count, push_line};
use centre_past::lists::{BscRow, FlightKind, FlightRow};
use std::alloc::{AllocError, Global};

/// The name of a request.
fn flight_name(kind: FlightKind) -> &'static str
    ensures { result.now ≡ flight_name kind }
{
    match kind {
        FlightKind::Write => "write",
        FlightKind::Replace => "replace",
        FlightKind::Kill => "kill",
        FlightKind::Query => "query",
    }
}

/// What is in flight.
fn flight_text(alloc: Global, flight: &Option<FlightRow>) -> Result<String, AllocError>
    ensures { IfOk result (λ text. string_bytes text ≡ flight_text flight.now) }
{
    match flight {
        None => String::from_str(alloc, "none"),
        Some(flight) => {
            let name = flight_name(flight.kind);
            let identifier = identifier_text(alloc, flight.message_id)?;
            let serial = four_digits(alloc, flight.serial.to_u16())?;
            format!(in alloc; "{name} {identifier} {serial}")
        }
    }
}

/// The time of day of a second after 1970-01-01T00:00:00Z.
pub(crate) fn time_text(alloc: Global, second: u64) -> Result<String, AllocError>
    ensures { IfOk result (λ text. string_bytes text ≡ time_text second) }
{
    let (hour, minute, rest) = (second / 3600 % 24, second / 60 % 60, second % 60);
    let (hour_tens, hour_ones) = (hour / 10, hour % 10);
    let (minute_tens, minute_ones) = (minute / 10, minute % 10);
    let (rest_tens, rest_ones) = (rest / 10, rest % 10);
    format!(in alloc; "{hour_tens}{hour_ones}:{minute_tens}{minute_ones}:{rest_tens}{rest_ones}")
}

/// Since when a RESET is out over the link of the BSC.
fn reset_of(resets: &[Option<u64>], row: &BscRow) -> Option<u64>
    ensures { result ≡ reset_of resets.now row.now }
{
    if !row.is_up {
        return None;
    }
    let place = usize::from(row.bsc.number()).saturating_sub(1);
    match resets.get(place) {
        Some(since) => *since,
        None => None,
    }
}

/// Whether orders go out over the link of the BSC.
fn is_in_service(resets: &[Option<u64>], row: &BscRow) -> bool
    ensures { result ≡ is_in_service resets.now row.now }
{
    row.is_up && reset_of(resets, row).is_none()
}

/// A link that is up.
fn up_text(alloc: Global, reset: Option<u64>, generation: u64) -> Result<String, AllocError>
    ensures { IfOk result (λ text. string_bytes text ≡ up_text reset generation) }
{
    match reset {
        None => format!(in alloc; "up {generation}"),
        Some(since) => {
            let time = time_text(alloc, since)?;
            format!(in alloc; "reset since {time}")
        }
    }
}

/// Whether a link is up.
fn link_text(alloc: Global, resets: &[Option<u64>], row: &BscRow) -> Result<String, AllocError>
    ensures { IfOk result (λ text. string_bytes text ≡ link_text resets.now row.now) }
{
    if row.is_up {
        up_text(alloc, reset_of(resets, row), row.last)
    } else {
        String::from_str(alloc, "down")
    }
}

/// The line of a BSC.
fn bsc_text(alloc: Global, resets: &[Option<u64>], row: &BscRow) -> Result<String, AllocError>
    ensures { IfOk result (λ text. string_bytes text ≡ bsc_text resets.now row.now) }
{
    let number = row.bsc.number();
    let cells = row.cells;
    let link = link_text(alloc, resets, row)?;
    let flight = flight_text(alloc, &row.flight)?;
    let pending = row.pending;
    format!(in alloc; "bsc {number} cells {cells} link {link} flight {flight} pending {pending}\n")
}

/// A line for each BSC, and their number. `resets` has since when a RESET is out that isn't answered, in seconds after
/// 1970-01-01T00:00:00Z, that of BSC 1 first.
pub fn bscs_text(
    alloc: Global,
    rows: &[BscRow],
    resets: &[Option<u64>],
) -> Result<Vec<u8>, AllocError>
    ensures { IfOk result (λ text. text.items ≡ bscs_text resets.now rows.now) }
{
    let mut text = Vec::new(alloc);
    for row in rows {
        let line = bsc_text(alloc, resets, row)?;
        push_line(&mut text, line.as_str())?;
    }
    push_count(alloc, &mut text, "bscs", rows.len())?;
    Ok(text)
}

/// The line of a BSC's link.
fn link_line(alloc: Global, resets: &[Option<u64>], row: &BscRow) -> Result<String, AllocError>
    ensures { IfOk result (λ text. string_bytes text ≡ link_line resets.now row.now) }
{
    let number = row.bsc.number();
    let link = link_text(alloc, resets, row)?;
    let pending = row.pending;
    format!(in alloc; "link {number} {link} pending {pending}\n")
}

/// How many links there are, and over how many of them orders go out.
fn push_links_count(
    alloc: Global,
    text: &mut Vec<u8>,
    rows: &[BscRow],
    resets: &[Option<u64>],
) -> Result<(), AllocError>
    ensures { OnOk result (text.new.items ≡ text.old.items ++ links_count resets.now rows.now) }
{
    let count = rows.len();
    let up = rows.iter().filter(|row| is_in_service(resets, row)).count();
    let line = format!(in alloc; "links {count} up {up}\n")?;
    push_line(text, line.as_str())
}

/// A line for each BSC's link, and their numbers. `resets` is as for `bscs_text`: a link over which a RESET is out isn't counted as
/// up.
pub fn links_text(
    alloc: Global,
    rows: &[BscRow],
    resets: &[Option<u64>],
) -> Result<Vec<u8>, AllocError>
    ensures { IfOk result (λ text. text.items ≡ links_text resets.now rows.now) }
{
    let mut text = Vec::new(alloc);
    for row in rows {
        let line = link_line(alloc, resets, row)?;
        push_line(&mut text, line.as_str())?;
    }
    push_links_count(alloc, &mut text, rows, resets)?;
    Ok(text)
}
