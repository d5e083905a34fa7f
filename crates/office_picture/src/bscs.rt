//! The BSCs of a survey, as a picture has them.

ghost use Rattle.std.specs.Prelude.{◌≡◌, map, IfOk};
ghost use Rattle.office_picture.specs.Pictures.{ended_of, figures_of, of_bsc, reset_of, since_of};

use centre_past::lists::BscRow;
use status_figures::{BscFigures, BscList};
use std::alloc::{AllocError, Global};

/// What the list has for the BSC, that of BSC 1 first.
fn of_bsc(times: &[Option<u64>], row: &BscRow) -> Option<u64>
    ensures { result ≡ of_bsc times.now row.now }
{
    let place = usize::from(row.bsc.number()).saturating_sub(1);
    match times.get(place) {
        Some(time) => *time,
        None => None,
    }
}

/// Since when what is in flight to the BSC is out, where that is known.
fn since_of(sinces: &[Option<u64>], row: &BscRow) -> Option<u64>
    ensures { result ≡ since_of sinces.now row.now }
{
    if row.flight.is_none() {
        return None;
    }
    of_bsc(sinces, row)
}

/// Since when a RESET is out over the BSC's link, where that is up.
fn reset_of(resets: &[Option<u64>], row: &BscRow) -> Option<u64>
    ensures { result ≡ reset_of resets.now row.now }
{
    if row.is_up { of_bsc(resets, row) } else { None }
}

/// When the BSC's link ended, where that is down.
fn ended_of(ends: &[Option<u64>], row: &BscRow) -> Option<u64>
    ensures { result ≡ ended_of ends.now row.now }
{
    if row.is_up { None } else { of_bsc(ends, row) }
}

fn figures_of(
    sinces: &[Option<u64>],
    resets: &[Option<u64>],
    ends: &[Option<u64>],
    downs: &[Option<u64>],
    row: &BscRow,
) -> BscFigures
    ensures { result ≡ figures_of sinces.now resets.now ends.now downs.now row.now }
{
    BscFigures {
        row: *row,
        since: since_of(sinces, row),
        reset: reset_of(resets, row),
        ended: ended_of(ends, row),
        down: of_bsc(downs, row),
    }
}

/// The BSCs of those rows.
pub(crate) fn bscs(
    alloc: Global,
    rows: &[BscRow],
    sinces: &[Option<u64>],
    resets: &[Option<u64>],
    ends: &[Option<u64>],
    downs: &[Option<u64>],
) -> Result<BscList, AllocError>
    ensures { IfOk result (λ bscs. bscs ≡ map (figures_of sinces.now resets.now ends.now downs.now) rows.now) }
{
    let mut bscs = Vec::new(alloc);
    for row in rows {
        bscs.push(figures_of(sinces, resets, ends, downs, row))?;
    }
    Ok(BscList::from_vec(bscs))
}
