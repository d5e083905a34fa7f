//! Where the entries of a list of numbers of broadcasts stand.

use crate::last_places::LastPlaces;

/// The places of all entries of such a list, and of those that give a valid number.
#[derive(Drop)]
pub(crate) struct CountPlaces {
    pub(crate) entries: LastPlaces,
    pub(crate) numbers: LastPlaces,
}
