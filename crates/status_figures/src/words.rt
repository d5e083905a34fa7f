//! Words and digits that stand in tables, in metrics and on the page.

ghost use Rattle.std.specs.Prelude.{◌≡◌, IfOk, string_bytes};
ghost use Rattle.status_figures.specs.Words.{flight_name, four_digits, is_in_service, kind_name, link_name, link_word, state_name};

use crate::bsc_figures::BscFigures;
use centre_past::lists::FlightKind;
use std::alloc::{AllocError, Global};
use warning_book::Kind;

/// The number in four upper-case hexadecimal digits.
#[tactic(auto, unfolding(crate::specs::Words::four_digits))]
pub fn four_digits(alloc: Global, number: u16) -> Result<String, AllocError>
    ensures { IfOk result (λ text. string_bytes text ≡ four_digits number) }
{
    let octets = number.to_be_bytes();
    hex::encode_upper(alloc, octets)
}

pub fn kind_name(kind: Kind) -> &'static str
    ensures { result.now ≡ kind_name kind }
{
    match kind {
        Kind::Cbs => "cbs",
        Kind::Emergency => "emergency",
    }
}

/// Whether a warning was stopped, in a word.
pub fn state_name(is_active: bool) -> &'static str
    ensures { result.now ≡ state_name is_active }
{
    if is_active { "active" } else { "stopped" }
}

/// Whether a link is up, in a word.
fn link_name(is_up: bool) -> &'static str
    ensures { result.now ≡ link_name is_up }
{
    if is_up { "up" } else { "down" }
}

/// The link of a BSC, in a word.
pub fn link_word(bsc: &BscFigures) -> &'static str
    ensures { result.now ≡ link_word bsc.now }
{
    if bsc.reset.is_some() {
        "reset"
    } else {
        link_name(bsc.row.is_up)
    }
}

/// Whether orders go out over the link of the BSC.
pub fn is_in_service(bsc: &BscFigures) -> bool
    ensures { result ≡ is_in_service bsc.now }
{
    bsc.row.is_up && bsc.reset.is_none()
}

pub fn flight_name(kind: FlightKind) -> &'static str
    ensures { result.now ≡ flight_name kind }
{
    match kind {
        FlightKind::Write => "write",
        FlightKind::Replace => "replace",
        FlightKind::Kill => "kill",
        FlightKind::Query => "query",
    }
}
