//! That a journal is kept, as those know it who tell of its entries.

ghost use Rattle.std.specs.Prelude.{◌≡◌, ◌≤◌, Option, None, Some};
ghost use Rattle.journal_keeper.specs.Kept.{Covers};

/// That all entries up to a place are kept in the file of a journal, or that the journal has no file. Whoever tells somebody of an entry
/// needs one: `wait_kept` alone gives it, and where there is a file only after a sync.
#[derive(Debug, Drop)]
pub struct KeptUpTo {
    place: Option<u64>,
}

impl KeptUpTo {
    /// All entries up to that place are kept.
    pub(crate) fn up_to(place: u64) -> KeptUpTo
        ensures { result.place ≡ Some place }
    {
        KeptUpTo { place: Some(place) }
    }

    /// The journal has no file.
    pub(crate) fn without_file() -> KeptUpTo
        ensures { result.place ≡ None }
    {
        KeptUpTo { place: None }
    }

    /// The place of the last entry that is kept; `None` where the journal has no file.
    pub fn place(&self) -> Option<u64>
        ensures { result ≡ self.now.place }
    {
        self.place
    }

    /// Tells that what covers a place covers each one before it.
    pub fn tell_covered(&self, last: u64, place: u64)
        requires covers { Covers self.now last }
        requires earlier { place ≤ last }
        ensures { Covers self.now place }
    {
        let _ = (self.place, last, place);
    }
}
