//! The tables of a picture.

ghost use Rattle.std.specs.Prelude.{◌≡◌, ◌++◌, IfOk, OnOk};
ghost use Rattle.std.specs.List.{flat_map};
ghost use Rattle.status_figures.specs.Tables.{boards_csv, bsc_record, bscs_csv, warning_records};

use crate::bsc_figures::BscFigures;
use crate::picture::Picture;
use crate::rows::{push_boards, push_bsc};
use crate::warning_figures::WarningFigures;
use std::alloc::{AllocError, Global};

/// The names of the fields of a board.
const BOARDS_HEAD: &[u8] =
    b"warning,message_id,serial,kind,state,area,awaited,on_air,failed,left,broadcasts\n";

/// The names of the fields of a BSC.
const BSCS_HEAD: &[u8] =
    b"bsc,cells,link,generation,in_flight,message_id,serial,in_flight_since,pending\n";

/// The boards of all warnings, in CSV: a record for each warning, in which the area is empty, and one for each of its areas.
pub fn boards_csv(alloc: Global, picture: &Picture) -> Result<Vec<u8>, AllocError>
    ensures { IfOk result (λ text. text.items ≡ boards_csv picture.now) }
{
    let mut out = Vec::from_slice(alloc, BOARDS_HEAD)?;
    push_all_boards(alloc, &mut out, picture.warnings.as_slice())?;
    Ok(out)
}

/// The BSCs, in CSV.
pub fn bscs_csv(alloc: Global, picture: &Picture) -> Result<Vec<u8>, AllocError>
    ensures { IfOk result (λ text. text.items ≡ bscs_csv picture.now) }
{
    let mut out = Vec::from_slice(alloc, BSCS_HEAD)?;
    push_all_bscs(alloc, &mut out, picture.bscs.as_slice())?;
    Ok(out)
}

fn push_all_boards(
    alloc: Global,
    out: &mut Vec<u8>,
    warnings: &[WarningFigures],
) -> Result<(), AllocError>
    ensures { OnOk result (out.new.items ≡ out.old.items ++ flat_map warning_records warnings.now) }
{
    for warning in warnings {
        push_boards(alloc, out, warning)?;
    }
    Ok(())
}

fn push_all_bscs(alloc: Global, out: &mut Vec<u8>, bscs: &[BscFigures]) -> Result<(), AllocError>
    ensures { OnOk result (out.new.items ≡ out.old.items ++ flat_map bsc_record bscs.now) }
{
    for bsc in bscs {
        push_bsc(alloc, out, bsc)?;
    }
    Ok(())
}
