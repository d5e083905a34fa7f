//! BSCs on the page.

ghost use Rattle.std.specs.Prelude.{◌≡◌, ◌++◌, OnOk};
ghost use Rattle.std.specs.List.{flat_map};
ghost use Rattle.status_pages.specs.BscParts.{bsc_counts_html, bsc_front, bsc_html, bsc_if, bscs_html, bscs_section, bscs_title, cells_html, down_html, down_if, ended_html, flight_html, flight_if, front_with, link_class, link_html, link_since, out_for, pending_html, seconds_html, some_bscs};

use crate::piece::{Piece, push_piece};
use crate::sections::{push_section_front, standing_class};
use crate::standing::Standing;
use crate::standings::{bsc_standing, bsc_stands, count_bscs};
use crate::times::push_time;
use centre_past::lists::FlightRow;
use status_figures::{BscFigures, flight_name, four_digits, is_in_service, link_word};
use std::alloc::{AllocError, Global};

fn title(standing: Standing) -> &'static str
    ensures { result.now ≡ bscs_title standing }
{
    match standing {
        Standing::Pressing => "BSCs that press",
        Standing::Unreached => "BSCs that reach no cell",
        Standing::Silent => "Silent BSCs",
        Standing::Wrong => "BSCs to look at",
        Standing::UnderWay => "BSCs under way",
        Standing::InOrder => "BSCs in order",
        Standing::Stopped => "Other BSCs",
    }
}

#[tactic(auto, unfolding(crate::specs::BscParts::front_with))]
fn push_front_with(
    alloc: Global,
    out: &mut Vec<u8>,
    number: u16,
    class: &str,
) -> Result<(), AllocError>
    ensures { OnOk result (out.new.items ≡ out.old.items ++ front_with number class.now) }
{
    let text = format!(in alloc;
        "<article id=\"b{number}\" class=\"b {class}\"><h3>BSC {number}</h3>"
    )?;
    out.extend_from_slice(text.as_bytes())
}

#[tactic(auto, unfolding(crate::specs::BscParts::bsc_front))]
fn push_front(
    alloc: Global,
    out: &mut Vec<u8>,
    taken: u64,
    bsc: &BscFigures,
) -> Result<(), AllocError>
    ensures { OnOk result (out.new.items ≡ out.old.items ++ bsc_front taken bsc.now) }
{
    let class = standing_class(bsc_standing(taken, bsc));
    push_front_with(alloc, out, bsc.row.bsc.number(), class)
}

fn link_class(bsc: &BscFigures) -> &'static str
    ensures { result.now ≡ link_class bsc.now }
{
    if is_in_service(bsc) { "up" } else { "down" }
}

#[tactic(auto, unfolding(crate::specs::BscParts::link_html))]
fn push_link(alloc: Global, out: &mut Vec<u8>, bsc: &BscFigures) -> Result<(), AllocError>
    ensures { OnOk result (out.new.items ≡ out.old.items ++ link_html bsc.now) }
{
    let class = link_class(bsc);
    let link = link_word(bsc);
    let text = format!(in alloc; "<p class=\"{class}\">link {link}")?;
    out.extend_from_slice(text.as_bytes())
}

#[tactic(auto, unfolding(crate::specs::BscParts::cells_html))]
fn push_cells(alloc: Global, out: &mut Vec<u8>, count: usize) -> Result<(), AllocError>
    ensures { OnOk result (out.new.items ≡ out.old.items ++ cells_html count) }
{
    let text = format!(in alloc; "<p>cells <b>{count}</b></p>")?;
    out.extend_from_slice(text.as_bytes())
}

#[tactic(auto, unfolding(crate::specs::BscParts::pending_html))]
fn push_pending(alloc: Global, out: &mut Vec<u8>, count: usize) -> Result<(), AllocError>
    ensures { OnOk result (out.new.items ≡ out.old.items ++ pending_html count) }
{
    let text = format!(in alloc; "<p>pending <b>{count}</b></p>")?;
    out.extend_from_slice(text.as_bytes())
}

#[tactic(auto, unfolding(crate::specs::BscParts::down_html))]
fn push_down(alloc: Global, out: &mut Vec<u8>, count: u64) -> Result<(), AllocError>
    ensures { OnOk result (out.new.items ≡ out.old.items ++ down_html count) }
{
    let text = format!(in alloc; "<p class=\"down\">cells down <b>{count}</b></p>")?;
    out.extend_from_slice(text.as_bytes())
}

/// Appends how many of its cells are down, where that is known and one is.
fn push_down_if(alloc: Global, out: &mut Vec<u8>, down: Option<u64>) -> Result<(), AllocError>
    ensures { OnOk result (out.new.items ≡ out.old.items ++ down_if down) }
{
    match down {
        None | Some(0) => Ok(()),
        Some(count) => push_down(alloc, out, count),
    }
}

/// Appends how many cells it has, how many of these are down, and how many orders are pending for it.
#[tactic(auto, unfolding(crate::specs::BscParts::bsc_counts_html))]
fn push_bsc_counts(alloc: Global, out: &mut Vec<u8>, bsc: &BscFigures) -> Result<(), AllocError>
    ensures { OnOk result (out.new.items ≡ out.old.items ++ bsc_counts_html bsc.now) }
{
    push_cells(alloc, out, bsc.row.cells)?;
    push_down_if(alloc, out, bsc.down)?;
    push_pending(alloc, out, bsc.row.pending)
}

fn push_out_for(
    alloc: Global,
    out: &mut Vec<u8>,
    taken: u64,
    since: Option<u64>,
) -> Result<(), AllocError>
    ensures { OnOk result (out.new.items ≡ out.old.items ++ out_for taken since) }
{
    match since {
        None => push_piece(out, Piece::ParagraphEnd),
        Some(since) => push_seconds(alloc, out, taken.saturating_sub(since)),
    }
}

#[tactic(auto, unfolding(crate::specs::BscParts::seconds_html))]
fn push_seconds(alloc: Global, out: &mut Vec<u8>, seconds: u64) -> Result<(), AllocError>
    ensures { OnOk result (out.new.items ≡ out.old.items ++ seconds_html seconds) }
{
    let text = format!(in alloc; ", out for <b>{seconds}</b> s</p>")?;
    out.extend_from_slice(text.as_bytes())
}

/// Appends since when a link is down, and for how long.
#[tactic(auto, unfolding(crate::specs::BscParts::ended_html))]
fn push_ended(alloc: Global, out: &mut Vec<u8>, taken: u64, since: u64) -> Result<(), AllocError>
    ensures { OnOk result (out.new.items ≡ out.old.items ++ ended_html taken since) }
{
    let seconds = taken.saturating_sub(since);
    let digits = format!(in alloc; "{seconds}")?;
    push_piece(out, Piece::EndedFront)?;
    push_time(out, since)?;
    push_piece(out, Piece::EndedMiddle)?;
    out.extend_from_slice(digits.as_bytes())?;
    push_piece(out, Piece::EndedEnd)
}

/// Appends since when its link is down, or for how long a RESET is out over it.
fn push_link_since(
    alloc: Global,
    out: &mut Vec<u8>,
    taken: u64,
    bsc: &BscFigures,
) -> Result<(), AllocError>
    ensures { OnOk result (out.new.items ≡ out.old.items ++ link_since taken bsc.now bsc.now.ended) }
{
    match bsc.ended {
        None => push_out_for(alloc, out, taken, bsc.reset),
        Some(since) => push_ended(alloc, out, taken, since),
    }
}

#[tactic(auto, unfolding(crate::specs::BscParts::flight_html))]
fn push_flight(alloc: Global, out: &mut Vec<u8>, flight: FlightRow) -> Result<(), AllocError>
    ensures { OnOk result (out.new.items ≡ out.old.items ++ flight_html flight) }
{
    let kind = flight_name(flight.kind);
    let id = flight.message_id;
    let serial = four_digits(alloc, flight.serial.to_u16())?;
    let text = format!(in alloc; "<p class=\"flight\">in flight: {kind} {id} serial {serial}")?;
    out.extend_from_slice(text.as_bytes())
}

fn push_flight_if(
    alloc: Global,
    out: &mut Vec<u8>,
    taken: u64,
    flight: Option<FlightRow>,
    since: Option<u64>,
) -> Result<(), AllocError>
    ensures { OnOk result (out.new.items ≡ out.old.items ++ flight_if taken flight since) }
{
    match flight {
        None => Ok(()),
        Some(flight) => {
            push_flight(alloc, out, flight)?;
            push_out_for(alloc, out, taken, since)
        }
    }
}

#[tactic(auto, unfolding(crate::specs::BscParts::bsc_html))]
fn push_bsc(
    alloc: Global,
    out: &mut Vec<u8>,
    taken: u64,
    bsc: &BscFigures,
) -> Result<(), AllocError>
    ensures { OnOk result (out.new.items ≡ out.old.items ++ bsc_html taken bsc.now) }
{
    push_front(alloc, out, taken, bsc)?;
    push_link(alloc, out, bsc)?;
    push_link_since(alloc, out, taken, bsc)?;
    push_bsc_counts(alloc, out, bsc)?;
    push_flight_if(alloc, out, taken, bsc.row.flight, bsc.since)?;
    push_piece(out, Piece::ArticleEnd)
}

/// Appends a BSC, if it stands so.
fn push_if(
    alloc: Global,
    out: &mut Vec<u8>,
    taken: u64,
    standing: Standing,
    bsc: &BscFigures,
) -> Result<(), AllocError>
    ensures { OnOk result (out.new.items ≡ out.old.items ++ bsc_if taken standing bsc.now) }
{
    if bsc_stands(taken, standing, bsc) {
        push_bsc(alloc, out, taken, bsc)
    } else {
        Ok(())
    }
}

/// Appends the BSCs that stand so.
fn push_standing(
    alloc: Global,
    out: &mut Vec<u8>,
    taken: u64,
    bscs: &[BscFigures],
    standing: Standing,
) -> Result<(), AllocError>
    ensures { OnOk result (out.new.items ≡ out.old.items ++ flat_map (bsc_if taken standing) bscs.now) }
{
    for bsc in bscs {
        push_if(alloc, out, taken, standing, bsc)?;
    }
    Ok(())
}

/// Appends the BSCs that stand so, where there are so many of them.
#[tactic(auto, unfolding(crate::specs::BscParts::some_bscs))]
fn push_some(
    alloc: Global,
    out: &mut Vec<u8>,
    taken: u64,
    bscs: &[BscFigures],
    standing: Standing,
    count: u64,
) -> Result<(), AllocError>
    ensures { OnOk result (out.new.items ≡ out.old.items ++ some_bscs taken bscs.now standing count) }
{
    push_section_front(alloc, out, standing, title(standing), count)?;
    push_standing(alloc, out, taken, bscs, standing)?;
    push_piece(out, Piece::SectionEnd)
}

#[tactic(auto, unfolding(crate::specs::BscParts::bscs_section))]
fn push_section(
    alloc: Global,
    out: &mut Vec<u8>,
    taken: u64,
    bscs: &[BscFigures],
    standing: Standing,
) -> Result<(), AllocError>
    ensures { OnOk result (out.new.items ≡ out.old.items ++ bscs_section taken bscs.now standing) }
{
    match count_bscs(taken, standing, bscs) {
        0 => Ok(()),
        count => push_some(alloc, out, taken, bscs, standing, count as u64),
    }
}

/// Appends all BSCs, the most urgent first.
#[tactic(auto, unfolding(crate::specs::BscParts::bscs_html))]
pub(crate) fn push_bscs(
    alloc: Global,
    out: &mut Vec<u8>,
    taken: u64,
    bscs: &[BscFigures],
) -> Result<(), AllocError>
    ensures { OnOk result (out.new.items ≡ out.old.items ++ bscs_html taken bscs.now) }
{
    push_piece(out, Piece::BscsFront)?;
    push_section(alloc, out, taken, bscs, Standing::Wrong)?;
    push_section(alloc, out, taken, bscs, Standing::UnderWay)?;
    push_section(alloc, out, taken, bscs, Standing::InOrder)?;
    push_piece(out, Piece::BlockEnd)
}
