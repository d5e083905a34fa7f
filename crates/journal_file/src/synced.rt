//! That entries stand in the file for good.

ghost use Rattle.std.specs.Prelude.{◌≡◌};

/// That all entries up to a place stand in the file, synced. `Writing::keep` alone gives one, when the sync has ended.
#[derive(Clone, Copy, Debug, PartialEq, Eq)]
pub struct Synced {
    place: u64,
}

impl Synced {
    /// All entries up to that place do.
    pub(crate) fn up_to(place: u64) -> Synced
        ensures { result.place ≡ place }
    {
        Synced { place }
    }

    /// The place of the last of these entries.
    pub fn place(self) -> u64
        ensures { result ≡ self.place }
    {
        self.place
    }
}
