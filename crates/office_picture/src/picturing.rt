//! A picture of an office.

ghost use Rattle.std.specs.Prelude.{◌≡◌, IfOk};
ghost use Rattle.office_picture.specs.Pictures.{picture};

use crate::bscs::bscs;
use crate::moments::Moments;
use crate::tallying::{entries, refusals};
use crate::warnings::warnings;
use office::survey::Survey;
use office::surveyed::Surveyed;
use status_figures::Picture;
use std::alloc::{AllocError, Global};

/// The picture of what was seen in one survey. At an `Err` there was no memory for it.
pub fn picture(alloc: Global, surveyed: Surveyed, moments: &Moments) -> Result<Picture, AllocError>
    ensures { IfOk result (λ p. p ≡ picture surveyed moments.now) }
{
    let Surveyed { survey, counts } = surveyed;
    let Survey {
        status,
        bscs: rows,
        warnings: surveyed,
    } = survey;
    let (sinces, resets) = (moments.sinces.as_slice(), moments.resets.as_slice());
    let bscs = bscs(
        alloc,
        rows.as_slice(),
        sinces,
        resets,
        moments.ends.as_slice(),
        moments.downs.as_slice(),
    )?;
    let warnings = warnings(alloc, moments.airs.as_slice(), surveyed.into_vec())?;
    let refusals = refusals(alloc, &counts)?;
    let entries = entries(alloc, &counts)?;
    Ok(Picture {
        taken: moments.taken,
        begun: moments.begun,
        status,
        bscs,
        warnings,
        kept: moments.kept,
        receipts: counts.receipts(),
        refusals,
        entries,
        memory: moments.memory,
    })
}
