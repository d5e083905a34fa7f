//! Lists that a message may lack: taken from the octets that they are lent from, and copied.

ghost use Rattle.std.specs.Prelude.{◌≡◌, IfOk};

use cbsp_ie::{CellIds, CellList, CountList, Counts};
use std::alloc::{AllocError, Global};

/// The identifications of a cell list, if there is one.
pub fn owned_ids(alloc: Global, cells: Option<CellList<'_>>) -> Result<Option<CellIds>, AllocError>
    ensures { IfOk result (λ owned. owned ≡ cells.entry) }
{
    match cells {
        None => Ok(None),
        Some(cells) => Ok(Some(cells.to_ids(alloc)?)),
    }
}

/// The entries of a list of broadcasts completed, if there is one.
pub fn owned_counts(
    alloc: Global,
    counts: Option<CountList<'_>>,
) -> Result<Option<Counts>, AllocError>
    ensures { IfOk result (λ owned. owned ≡ counts.entry) }
{
    match counts {
        None => Ok(None),
        Some(counts) => Ok(Some(counts.to_counts(alloc)?)),
    }
}

/// The same identifications, in memory of their own.
pub fn copied_ids(alloc: Global, cells: &Option<CellIds>) -> Result<Option<CellIds>, AllocError>
    ensures { IfOk result (λ copy. copy ≡ cells.now) }
{
    match cells {
        None => Ok(None),
        Some(cells) => Ok(Some(cells.copied(alloc)?)),
    }
}

/// The same entries, in memory of their own.
pub fn copied_counts(alloc: Global, counts: &Option<Counts>) -> Result<Option<Counts>, AllocError>
    ensures { IfOk result (λ copy. copy ≡ counts.now) }
{
    match counts {
        None => Ok(None),
        Some(counts) => Ok(Some(counts.copied(alloc)?)),
    }
}
