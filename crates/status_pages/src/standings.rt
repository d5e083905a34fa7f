//! How warnings and BSCs stand.

ghost use Rattle.std.specs.Prelude.{◌≡◌, count_by};
ghost use Rattle.status_pages.specs.Standings.{bsc_standing, bsc_stands, down_cells, has_order_left, is_busy, is_flight_of, is_late, is_long_out, is_nowhere, is_order, is_pressing, is_same, is_served, is_stuck, is_under_way, is_unreached, is_urgent, is_version, is_working, is_wrong, may_serve, needs_look, orders_out, row_standing, warning_is_urgent, warning_standing, warning_stands};

use crate::kinds::is_emergency;
use crate::standing::Standing;
use centre_past::lists::{FlightKind, FlightRow, WarningRow};
use coverage_board::Numbers;
use serials::Serial;
use status_figures::{BscFigures, Picture, WarningFigures};

/// For how many seconds an order may be out before somebody has to look.
const LONG_OUT: u64 = 30;

/// Whether the warning is wanted in no registered cell.
fn is_nowhere(numbers: Numbers) -> bool
    ensures { result ≡ is_nowhere numbers }
{
    numbers.awaited == 0 && (numbers.on_air == 0 && numbers.failed == 0)
}

/// Whether the warning is active and reaches nobody.
pub(crate) fn is_unreached(warning: &WarningRow) -> bool
    ensures { result ≡ is_unreached warning.now }
{
    warning.is_active && is_nowhere(warning.numbers)
}

fn is_wrong(warning: &WarningRow) -> bool
    ensures { result ≡ is_wrong warning.now }
{
    warning.numbers.failed != 0
}

fn is_under_way(warning: &WarningRow) -> bool
    ensures { result ≡ is_under_way warning.now }
{
    warning.numbers.awaited != 0 || warning.numbers.left != 0
}

/// Whether what went out then has been out for too long.
pub(crate) fn is_long_out(taken: u64, since: Option<u64>) -> bool
    ensures { result ≡ is_long_out taken since }
{
    match since {
        None => false,
        Some(since) => taken.saturating_sub(since) >= LONG_OUT,
    }
}

/// Whether it has orders to take, or a reply or the answer to a RESET to give.
fn is_busy(bsc: &BscFigures) -> bool
    ensures { result ≡ is_busy bsc.now }
{
    bsc.row.flight.is_some() || (bsc.row.pending != 0 || bsc.reset.is_some())
}

/// Whether an order or a RESET has been out to it for too long.
fn is_late(taken: u64, bsc: &BscFigures) -> bool
    ensures { result ≡ is_late taken bsc.now }
{
    is_long_out(taken, bsc.since) || is_long_out(taken, bsc.reset)
}

/// How many of the BSC's cells are down, as far as that is known.
pub(crate) fn down_cells(bsc: &BscFigures) -> u64
    ensures { result ≡ down_cells bsc.now }
{
    bsc.down.unwrap_or(0)
}

/// Whether somebody has to look at the BSC: its link or one of its cells is down, or it is late.
pub(crate) fn needs_look(taken: u64, bsc: &BscFigures) -> bool
    ensures { result ≡ needs_look taken bsc.now }
{
    !bsc.row.is_up || (down_cells(bsc) != 0 || is_late(taken, bsc))
}

/// How a BSC stands in a picture that was taken then.
#[tactic(auto, unfolding(crate::specs::Standings::bsc_standing))]
pub(crate) fn bsc_standing(taken: u64, bsc: &BscFigures) -> Standing
    ensures { result ≡ bsc_standing taken bsc.now }
{
    if needs_look(taken, bsc) {
        Standing::Wrong
    } else if is_busy(bsc) {
        Standing::UnderWay
    } else {
        Standing::InOrder
    }
}

/// Whether the BSC takes orders: its link is up, and nothing has been out to it for too long.
fn is_working(taken: u64, bsc: &BscFigures) -> bool
    ensures { result ≡ is_working taken bsc.now }
{
    bsc.row.is_up && !is_late(taken, bsc)
}

fn is_order(kind: FlightKind) -> bool
    ensures { result ≡ is_order kind }
{
    match kind {
        FlightKind::Write | FlightKind::Replace | FlightKind::Kill => true,
        FlightKind::Query => false,
    }
}

/// How many orders are in flight.
fn orders_out(flight: Option<FlightRow>) -> usize
    ensures { result ≡ orders_out flight }
{
    match flight {
        None => 0,
        Some(flight) => { if is_order(flight.kind) { 1 } else { 0 } }
    }
}

/// Whether the BSC has an order to take besides the one in flight.
fn has_order_left(bsc: &BscFigures) -> bool
    ensures { result ≡ has_order_left bsc.now }
{
    orders_out(bsc.row.flight) < bsc.row.pending
}

/// Whether the serial number is of a version of the warning whose current version has that one: they differ at most in their update
/// number (TS 23.041, 9.4.1.2.1).
fn is_version(current: Option<Serial>, serial: Serial) -> bool
    ensures { result ≡ is_version current serial }
{
    match current {
        None => true,
        Some(current) => serial.to_u16() / 16 == current.to_u16() / 16,
    }
}

/// Whether an order of the warning is in flight.
fn is_flight_of(warning: &WarningRow, flight: Option<FlightRow>) -> bool
    ensures { result ≡ is_flight_of warning.now flight }
{
    match flight {
        None => false,
        Some(flight) => {
            is_order(flight.kind)
                && (flight.message_id == warning.message_id
                    && is_version(warning.serial, flight.serial))
        }
    }
}

/// Whether the BSC may be at work for the warning. Which warnings its orders are of is known of the one in flight alone.
fn may_serve(taken: u64, warning: &WarningRow, bsc: &BscFigures) -> bool
    ensures { result ≡ may_serve taken warning.now bsc.now }
{
    is_working(taken, bsc)
        && (bsc.reset.is_some() || (has_order_left(bsc) || is_flight_of(warning, bsc.row.flight)))
}

/// Whether some BSC may be at work for the warning.
fn is_served(picture: &Picture, warning: &WarningRow) -> bool
    ensures { result ≡ is_served picture.now warning.now }
{
    let bscs = picture.bscs.as_slice().iter();
    bscs.filter(|bsc| may_serve(picture.taken, warning, bsc))
        .count()
        != 0
}

/// Whether it is still to go on air or off it somewhere while no BSC is at work for it.
pub(crate) fn is_stuck(picture: &Picture, warning: &WarningRow) -> bool
    ensures { result ≡ is_stuck picture.now warning.now }
{
    is_under_way(warning) && !is_served(picture, warning)
}

/// How a warning stands by its board.
#[tactic(auto, unfolding(crate::specs::Standings::row_standing))]
fn row_standing(picture: &Picture, warning: &WarningRow) -> Standing
    ensures { result ≡ row_standing picture.now warning.now }
{
    if is_wrong(warning) || is_stuck(picture, warning) {
        Standing::Wrong
    } else if is_under_way(warning) {
        Standing::UnderWay
    } else if warning.is_active {
        Standing::InOrder
    } else {
        Standing::Stopped
    }
}

/// Whether the warning is an emergency that reaches nobody, is silent, failed or is stuck.
fn is_pressing(picture: &Picture, warning: &WarningFigures) -> bool
    ensures { result ≡ is_pressing picture.now warning.now }
{
    let row = &warning.sheet.row;
    is_emergency(row)
        && (is_unreached(row) || (warning.silent != 0 || (is_wrong(row) || is_stuck(picture, row))))
}

/// How a warning stands. An emergency has somebody look at it first, then a warning that reaches nobody, then one that is silent in
/// some cell.
#[tactic(auto, unfolding(crate::specs::Standings::warning_standing))]
pub(crate) fn warning_standing(picture: &Picture, warning: &WarningFigures) -> Standing
    ensures { result ≡ warning_standing picture.now warning.now }
{
    if is_pressing(picture, warning) {
        Standing::Pressing
    } else if is_unreached(&warning.sheet.row) {
        Standing::Unreached
    } else if warning.silent == 0 {
        row_standing(picture, &warning.sheet.row)
    } else {
        Standing::Silent
    }
}

/// Whether somebody has to look at what stands so.
fn is_urgent(standing: Standing) -> bool
    ensures { result ≡ is_urgent standing }
{
    match standing {
        Standing::Pressing | Standing::Unreached | Standing::Silent | Standing::Wrong => true,
        Standing::UnderWay | Standing::InOrder | Standing::Stopped => false,
    }
}

/// Whether somebody has to look at the warning.
pub(crate) fn warning_is_urgent(picture: &Picture, warning: &WarningFigures) -> bool
    ensures { result ≡ warning_is_urgent picture.now warning.now }
{
    is_urgent(warning_standing(picture, warning))
}

fn is_same(found: Standing, wanted: Standing) -> bool
    ensures { result ≡ is_same found wanted }
{
    match (found, wanted) {
        (Standing::Pressing, Standing::Pressing)
        | (Standing::Unreached, Standing::Unreached)
        | (Standing::Silent, Standing::Silent)
        | (Standing::Wrong, Standing::Wrong)
        | (Standing::UnderWay, Standing::UnderWay)
        | (Standing::InOrder, Standing::InOrder)
        | (Standing::Stopped, Standing::Stopped) => true,
        _ => false,
    }
}

/// Whether a warning stands so.
pub(crate) fn warning_stands(
    picture: &Picture,
    standing: Standing,
    warning: &WarningFigures,
) -> bool
    ensures { result ≡ warning_stands picture.now standing warning.now }
{
    is_same(warning_standing(picture, warning), standing)
}

/// Whether a BSC stands so.
pub(crate) fn bsc_stands(taken: u64, standing: Standing, bsc: &BscFigures) -> bool
    ensures { result ≡ bsc_stands taken standing bsc.now }
{
    is_same(bsc_standing(taken, bsc), standing)
}

/// How many warnings stand so.
pub(crate) fn count_warnings(picture: &Picture, standing: Standing) -> usize
    ensures { result ≡ count_by (warning_stands picture.now standing) picture.now.warnings }
{
    let warnings = picture.warnings.as_slice().iter();
    warnings
        .filter(|warning| warning_stands(picture, standing, warning))
        .count()
}

/// How many BSCs stand so.
pub(crate) fn count_bscs(taken: u64, standing: Standing, bscs: &[BscFigures]) -> usize
    ensures { result ≡ count_by (bsc_stands taken standing) bscs.now }
{
    bscs.iter()
        .filter(|bsc| bsc_stands(taken, standing, bsc))
        .count()
}

/// At how many warnings somebody has to look.
pub(crate) fn count_urgent(picture: &Picture) -> usize
    ensures { result ≡ count_by (warning_is_urgent picture.now) picture.now.warnings }
{
    let warnings = picture.warnings.as_slice().iter();
    warnings
        .filter(|warning| warning_is_urgent(picture, warning))
        .count()
}

/// At how many BSCs somebody has to look.
pub(crate) fn count_needing_look(taken: u64, bscs: &[BscFigures]) -> usize
    ensures { result ≡ count_by (needs_look taken) bscs.now }
{
    bscs.iter().filter(|bsc| needs_look(taken, bsc)).count()
}
