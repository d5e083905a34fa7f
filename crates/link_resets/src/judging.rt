//! What the frame comes to that answers a RESET.

ghost use Rattle.std.specs.Prelude.{◌≡◌, ◌↔◌, IfOk, IsTrue};
ghost use Rattle.link_resets.specs.Resets.{IsAnswer, IsOfAll, are_named, is_named};

use crate::reset_answer::ResetAnswer;
use cbsp_ie::{CellId, Element, read_element};
use centre_past::lists::CellRow;
use common::Cell;
use framing::Frame;
use std::alloc::{AllocError, Global};

/// The type of RESET COMPLETE (3GPP TS 48.049, 8.2.3).
const RESET_COMPLETE: u8 = 0x11;

/// Whether one of the identifications names the cell.
fn is_named(plmn: [u8; 3], ids: &[CellId], cell: Cell) -> bool
    ensures { result ≡ is_named plmn ids.now cell }
{
    ids.iter().any(|id| id.names(plmn, cell))
}

/// Whether the identifications name each of the cells.
fn are_named(plmn: [u8; 3], ids: &[CellId], cells: &[CellRow]) -> bool
    ensures { result ≡ are_named plmn ids.now cells.now }
{
    cells.iter().all(|row| is_named(plmn, ids, row.cell))
}

/// Whether the body of a RESET COMPLETE is of all the cells.
fn is_of_all(
    alloc: Global,
    plmn: [u8; 3],
    body: &[u8],
    cells: &[CellRow],
) -> Result<bool, AllocError>
    ensures { IfOk result (λ is. IsTrue is ↔ IsOfAll plmn cells.now body.now) }
{
    if body.is_empty() {
        return Ok(true);
    }
    let Ok((Element::CellList(list), _)) = read_element(body) else {
        return Ok(false);
    };
    let ids = list.to_ids(alloc)?;
    Ok(are_named(plmn, ids.ids(), cells))
}

/// What the frame comes to that a BSC with these cells sends as the answer to a RESET. The network is `plmn`. A RESET COMPLETE is of
/// all cells where it has nothing behind its header, or begins with a Cell List that names each of them: the RESET names them all, so
/// a BSC may leave the list out or give it back, or list its cells.
pub fn judge(
    alloc: Global,
    plmn: [u8; 3],
    frame: &Frame,
    cells: &[CellRow],
) -> Result<ResetAnswer, AllocError>
    ensures { IfOk result (IsAnswer plmn cells.now frame.now) }
{
    if frame.kind != RESET_COMPLETE {
        return Ok(ResetAnswer::Failure);
    }
    if is_of_all(alloc, plmn, frame.body.as_slice(), cells)? {
        Ok(ResetAnswer::Complete)
    } else {
        Ok(ResetAnswer::Partial)
    }
}
