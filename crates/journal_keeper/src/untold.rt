//! What tells of entries, until it may be let out.

ghost use Rattle.std.specs.Prelude.{◌≡◌};
ghost use Rattle.journal_keeper.specs.Kept.{Covers};

use crate::kept_up_to::KeptUpTo;

/// What tells of entries up to a place. Only `tell` gives it, where these are kept: whoever waited before the entry came, or for an earlier
/// one, has nothing that covers the place.
#[derive(Drop)]
pub struct Untold<T: Drop> {
    place: u64,
    what: T,
}

impl<T: Drop> Untold<T> {
    /// It tells of entries up to the place.
    pub fn new(place: u64, what: T) -> Untold<T>
        ensures place { result.place ≡ place }
        ensures what { result.what ≡ what }
    {
        Untold { place, what }
    }

    /// The place of the last entry of which it tells.
    pub fn place(&self) -> u64
        ensures { result ≡ self.now.place }
    {
        self.place
    }

    /// Lets it out, as the entries are kept.
    pub fn tell(self, kept: &KeptUpTo) -> T
        requires { Covers kept.now self.place }
        ensures { result ≡ self.what }
    {
        let _ = kept;
        let Untold { place: _, what } = self;
        what
    }
}
