//! What a BSC says unasked.

ghost use Rattle.std.specs.Prelude.{◌≡◌, ◌≤◌, length, IfOk};
ghost use Rattle.cbsp_messages.specs.Written.{Fits};
ghost use Rattle.bsc_sim.specs.Indications.{fail_message, restart_message};

use cbsp_ie::{Cause, CellId, CellIds, FailEntry, Failures};
use cbsp_messages::{Failure, Message, Restart};
use common::Cell;
use std::alloc::{AllocError, Global};

/// The RESTART of all cells for the broadcast message type, which says whether the data are lost.
pub(crate) fn restart_message(alloc: Global, kind: u8, lost: bool) -> Result<Message, AllocError>
    ensures message { IfOk result (λ m. m ≡ restart_message kind lost) }
    ensures fits { IfOk result (λ m. Fits m) }
{
    Ok(Message::Restart(Restart {
        cells: CellIds::all(alloc)?,
        kind,
        recovery: u8::from(lost),
    }))
}

/// The FAILURE of the cells with the cause, for broadcast message type 0.
pub(crate) fn fail_message(
    alloc: Global,
    cells: &[Cell],
    cause: Cause,
) -> Result<Message, AllocError>
    ensures message { IfOk result (λ m. m ≡ fail_message cells.now cause) }
    ensures fits { length cells.now ≤ 10922 → IfOk result (λ m. Fits m) }
{
    let mut failures = Failures::with_capacity(alloc, cells.len())?;
    for cell in cells {
        let id = CellId::LacCi {
            lac: cell.lac,
            ci: cell.ci,
        };
        failures.push(FailEntry { id, cause })?;
    }
    Ok(Message::Failure(Failure { failures, kind: 0 }))
}
