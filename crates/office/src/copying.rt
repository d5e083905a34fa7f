//! Entries of a centre are copied.

ghost use Rattle.std.specs.Prelude.{◌≡◌, ◌≤◌, ◌<◌, ◌-◌, ◌++◌, length, take, drop, IfOk, OnOk};
ghost use Rattle.centre_past.specs.Legal.{all_entries};

use centre_core::centre::Centre;
use centre_events::entry::Entry;
use std::alloc::{AllocError, Global};
use std::cmp::min;

/// Puts a copy of the entry at that place last, if there is one.
fn copy_entry(
    alloc: Global,
    centre: &mut Centre,
    place: u64,
    copies: &mut Vec<Entry>,
) -> Result<(), AllocError>
    requires unfolded { length centre.old.known.folded < place }
    ensures copied { OnOk result (copies.new.items ≡ copies.old.items ++ take 1 (drop (place - 1) (all_entries centre.old.known))) }
    ensures unchanged { centre.new.known ≡ centre.old.known }
{
    copies.try_reserve(1)?;
    match centre.entry(place) {
        Some(entry) => {
            let copy = entry.copied(alloc)?;
            copies.push_reserved(copy);
            Ok(())
        }
        None => Ok(()),
    }
}

/// Copies of the entries behind that place, the oldest first, at most so many.
pub(crate) fn copy_entries(
    alloc: Global,
    centre: &mut Centre,
    after: u64,
    most: u64,
) -> Result<Vec<Entry>, AllocError>
    requires unfolded { length centre.old.known.folded ≤ after }
    ensures entries { IfOk result (λ copies. copies.items ≡ take most (drop after (all_entries centre.old.known))) }
    ensures unchanged { centre.new.known ≡ centre.old.known }
{
    let last = after + min(most, centre.position().saturating_sub(after));
    let mut copies = Vec::new(alloc);
    for place in after..last {
        copy_entry(alloc, centre, place + 1, &mut copies)?;
    }
    Ok(copies)
}
