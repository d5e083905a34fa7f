//! Why an edit of the areas is refused.

ghost use Rattle.std.specs.Prelude.{◌≡◌};

use std::alloc::{AllocError, AllocFailed};
use std::error::Error;
use std::fmt;

/// A number that would be passed.
#[derive(Clone, Copy, Debug, PartialEq, Eq)]
pub enum Limit {
    /// 4,096 areas.
    Areas,
    /// 4,096 selectors of one area.
    Selectors,
}

/// Why an edit is refused, in the order in which the causes are looked at. The first that holds is the answer; lack of
/// memory is the last.
#[derive(Clone, Copy, Debug, PartialEq, Eq)]
pub enum Refusal {
    BadName,
    AreaExists,
    NoSuchArea,
    SelectorThere,
    SelectorNotThere,
    Limit { which: Limit },
    Memory,
}

impl Refusal {
    /// What is printed of it.
    fn words(self) -> &'static str {
        match self {
            Refusal::BadName => "a name is 1 to 32 letters, digits or hyphens",
            Refusal::AreaExists => "the area is there already",
            Refusal::NoSuchArea => "no such area",
            Refusal::SelectorThere => "the area has this selector already",
            Refusal::SelectorNotThere => "the area does not have this selector",
            Refusal::Limit {
                which: Limit::Areas,
            } => "a limit would be passed: Areas",
            Refusal::Limit {
                which: Limit::Selectors,
            } => "a limit would be passed: Selectors",
            Refusal::Memory => "out of memory",
        }
    }
}

impl fmt::Display for Refusal {
    fn fmt<W: fmt::Write>(&self, f: &mut fmt::Formatter<W>) -> fmt::Result {
        f.write_str(self.words())
    }
}

impl Error for Refusal {}

impl From<AllocError> for Refusal {
    ghost use Rattle.std.specs.Prelude.{◌≡◌};
    ghost use Rattle.areas.specs.declared.refusal.Refusal.TheVariants as refusal;

    ghost from_gives = { λ _ e. e ≡ refusal.Memory };

    fn from(_: AllocError) -> Refusal {
        Refusal::Memory
    }
}

impl<T: Drop> From<AllocFailed<T>> for Refusal {
    ghost use Rattle.std.specs.Prelude.{◌≡◌};
    ghost use Rattle.areas.specs.declared.refusal.Refusal.TheVariants as refusal;

    ghost from_gives = { λ _ e. e ≡ refusal.Memory };

    fn from(_: AllocFailed<T>) -> Refusal {
        Refusal::Memory
    }
}
