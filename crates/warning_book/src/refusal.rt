//! Why an edit of the book is refused.

ghost use Rattle.std.specs.Prelude.{◌≡◌};

use std::alloc::{AllocError, AllocFailed};
use std::error::Error;
use std::fmt;

/// A number that would be passed.
#[derive(Clone, Copy, Debug, PartialEq, Eq)]
pub enum Limit {
    /// 256 warnings in the book.
    Warnings,
    /// 16 areas of one warning.
    WarningAreas,
    /// 4,294,967,295 warnings that were ever issued.
    Ids,
}

/// Why an edit is refused. Each edit says in which order it looks at the causes; `Memory` is the last.
#[derive(Clone, Copy, Debug, PartialEq, Eq)]
pub enum Refusal {
    NoSuchWarning,
    NotActive,
    StillActive,
    NoAreas,
    AreaThere,
    AreaNotThere,
    LastArea,
    BadPages,
    BadPeriod,
    WrongKind,
    Limit { which: Limit },
    Memory,
}

impl Refusal {
    /// What is printed of it.
    fn words(self) -> &'static str {
        match self {
            Refusal::NoSuchWarning => "no such warning",
            Refusal::NotActive => "the warning was stopped",
            Refusal::StillActive => "the warning is still active",
            Refusal::NoAreas => "a warning needs an area",
            Refusal::AreaThere => "the warning names this area already",
            Refusal::AreaNotThere => "the warning does not name this area",
            Refusal::LastArea => "the warning names no other area",
            Refusal::BadPages => "a content has 1 to 15 pages of 1 to 82 octets",
            Refusal::BadPeriod => "a repetition period is 1 to 1,024",
            Refusal::WrongKind => "the warning is of the other kind",
            Refusal::Limit {
                which: Limit::Warnings,
            } => "a limit would be passed: Warnings",
            Refusal::Limit {
                which: Limit::WarningAreas,
            } => "a limit would be passed: WarningAreas",
            Refusal::Limit { which: Limit::Ids } => "a limit would be passed: Ids",
            Refusal::Memory => "out of memory",
        }
    }
}

impl fmt::Display for Refusal {
    fn fmt<W: fmt::Write>(&self, f: &mut fmt::Formatter<W>) -> fmt::Result {
        f.write_str(self.words())
    }
}

impl Error for Refusal {}

impl From<AllocError> for Refusal {
    ghost use Rattle.std.specs.Prelude.{◌≡◌};
    ghost use Rattle.warning_book.specs.declared.refusal.Refusal.TheVariants as refusal;

    ghost from_gives = { λ _ e. e ≡ refusal.Memory };

    fn from(_: AllocError) -> Refusal {
        Refusal::Memory
    }
}

impl<T: Drop> From<AllocFailed<T>> for Refusal {
    ghost use Rattle.std.specs.Prelude.{◌≡◌};
    ghost use Rattle.warning_book.specs.declared.refusal.Refusal.TheVariants as refusal;

    ghost from_gives = { λ _ e. e ≡ refusal.Memory };

    fn from(_: AllocFailed<T>) -> Refusal {
        Refusal::Memory
    }
}
