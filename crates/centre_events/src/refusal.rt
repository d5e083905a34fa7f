//! Why an event or a question is refused.

ghost use Rattle.std.specs.Prelude.{◌≡◌};
ghost use Rattle.centre_events.specs.Refusals.{of_plan, refusal_number};
ghost use Rattle.centre_events.specs.declared.refusal.Refusal.TheVariants as refusal;
ghost use Rattle.coverage_plan.specs.declared.refusal.Refusal.TheVariants as plan;

use std::alloc::{AllocError, AllocFailed};
use std::error::Error;
use std::fmt;

/// A number that would be passed.
#[derive(Clone, Copy, Debug, PartialEq, Eq)]
pub enum Limit {
    /// 256 BSCs.
    Bscs,
    /// 65,536 registered cells.
    Cells,
    /// 4,096 areas.
    Areas,
    /// 4,096 selectors of one area.
    Selectors,
    /// 256 warnings in the book.
    Warnings,
    /// 16 areas of one warning.
    WarningAreas,
    /// 4,294,967,295 warnings in all.
    Ids,
    /// 1,024 desks.
    Desks,
}

/// Why an event or a question is refused, in the order in which the causes are looked at. The first that holds is
/// the answer. `Memory` is the last of them: nothing that decides a refusal takes memory. `WrongDesk` comes from an office
/// alone, which looks at it before all others.
#[derive(Clone, Copy, Debug, PartialEq, Eq)]
pub enum Refusal {
    Stale,
    JournalFull,
    NoSuchBsc,
    BscExists,
    BscHasCells,
    LinkIsUp,
    CellExists,
    NoSuchCell,
    SameBsc,
    BadName,
    AreaExists,
    NoSuchArea,
    AreaInUse,
    SelectorThere,
    SelectorNotThere,
    NoSuchWarning,
    NotActive,
    StillActive,
    StillReported,
    StillInFlight,
    NoAreas,
    AreaThere,
    AreaNotThere,
    LastArea,
    BadPages,
    BadPeriod,
    WrongKind,
    StaleLink {
        /// The generation of the latest link, 0 where there was none.
        now: u64,
    },
    LinkNotUp,
    InFlight,
    NothingPending,
    NothingToAsk,
    NoOrder,
    Limit {
        which: Limit,
    },
    Memory,
    WrongDesk {
        /// The number of entries of the centre.
        position: u64,
    },
}

impl Refusal {
    /// The number that operators see. A number is never given to another cause.
    pub fn number(self) -> u8
        ensures { result ≡ refusal_number self }
    {
        match self {
            Refusal::Stale => 1,
            Refusal::JournalFull => 2,
            Refusal::NoSuchBsc => 3,
            Refusal::BscExists => 4,
            Refusal::BscHasCells => 5,
            Refusal::LinkIsUp => 6,
            Refusal::CellExists => 7,
            Refusal::NoSuchCell => 8,
            Refusal::SameBsc => 9,
            Refusal::BadName => 10,
            Refusal::AreaExists => 11,
            Refusal::NoSuchArea => 12,
            Refusal::AreaInUse => 13,
            Refusal::SelectorThere => 14,
            Refusal::SelectorNotThere => 15,
            Refusal::NoSuchWarning => 16,
            Refusal::NotActive => 17,
            Refusal::StillActive => 18,
            Refusal::StillReported => 19,
            Refusal::StillInFlight => 20,
            Refusal::NoAreas => 21,
            Refusal::AreaThere => 22,
            Refusal::AreaNotThere => 23,
            Refusal::LastArea => 24,
            Refusal::BadPages => 25,
            Refusal::BadPeriod => 26,
            Refusal::WrongKind => 27,
            Refusal::StaleLink { now: _ } => 29,
            Refusal::LinkNotUp => 30,
            Refusal::InFlight => 31,
            Refusal::NothingPending => 32,
            Refusal::NothingToAsk => 33,
            Refusal::NoOrder => 34,
            Refusal::Limit { which: _ } => 35,
            Refusal::Memory => 36,
            Refusal::WrongDesk { position: _ } => 37,
        }
    }

    /// What is printed of it, up to its number where it has one.
    fn words(self) -> &'static str {
        match self {
            Refusal::Stale =>
                "the centre is stale: it ran out of memory while an event was entered",
            Refusal::JournalFull => "the journal is full",
            Refusal::NoSuchBsc => "no such BSC",
            Refusal::BscExists => "the BSC is registered already",
            Refusal::BscHasCells => "cells are registered at the BSC",
            Refusal::LinkIsUp => "the link of the BSC is up",
            Refusal::CellExists => "the cell is registered already",
            Refusal::NoSuchCell => "no such cell",
            Refusal::SameBsc => "the cell is registered at this BSC already",
            Refusal::BadName => "a name is 1 to 32 letters, digits or hyphens",
            Refusal::AreaExists => "the area is there already",
            Refusal::NoSuchArea => "no such area",
            Refusal::AreaInUse => "a warning names the area",
            Refusal::SelectorThere => "the area has this selector already",
            Refusal::SelectorNotThere => "the area has no such selector",
            Refusal::NoSuchWarning => "no such warning",
            Refusal::NotActive => "the warning was stopped",
            Refusal::StillActive => "the warning is active",
            Refusal::StillReported => "a message of the warning is on air, or may be",
            Refusal::StillInFlight => "an order for the warning is in flight",
            Refusal::NoAreas => "a warning names one area at least",
            Refusal::AreaThere => "the warning names the area already, or it is named twice",
            Refusal::AreaNotThere => "the warning does not name the area",
            Refusal::LastArea => "the warning names no other area",
            Refusal::BadPages => "a content has 1 to 15 pages of 1 to 82 octets",
            Refusal::BadPeriod => "a repetition period is 1 to 1,024",
            Refusal::WrongKind => "the warning is of the other kind",
            Refusal::StaleLink { .. } => "the link has ended; the latest is ",
            Refusal::LinkNotUp => "the link is down",
            Refusal::InFlight => "an order is in flight",
            Refusal::NothingPending => "nothing is to be ordered",
            Refusal::NothingToAsk => "the message is on air in no such cell",
            Refusal::NoOrder => "the message answers no order in flight",
            Refusal::Limit { which: Limit::Bscs } => "a limit would be passed: Bscs",
            Refusal::Limit {
                which: Limit::Cells,
            } => "a limit would be passed: Cells",
            Refusal::Limit {
                which: Limit::Areas,
            } => "a limit would be passed: Areas",
            Refusal::Limit {
                which: Limit::Selectors,
            } => "a limit would be passed: Selectors",
            Refusal::Limit {
                which: Limit::Warnings,
            } => "a limit would be passed: Warnings",
            Refusal::Limit {
                which: Limit::WarningAreas,
            } => "a limit would be passed: WarningAreas",
            Refusal::Limit { which: Limit::Ids } => "a limit would be passed: Ids",
            Refusal::Limit {
                which: Limit::Desks,
            } => "a limit would be passed: Desks",
            Refusal::Memory => "out of memory",
            Refusal::WrongDesk { .. } => "the desk is not as the office knows it, after ",
        }
    }
}

impl fmt::Display for Refusal {
    fn fmt<W: fmt::Write>(&self, f: &mut fmt::Formatter<W>) -> fmt::Result {
        f.write_str(self.words())?;
        match self {
            Refusal::StaleLink { now } => write!(f, "{now}"),
            Refusal::WrongDesk { position } => write!(f, "{position} entries"),
            _ => Ok(()),
        }
    }
}

impl Error for Refusal {}

/// The limit of the same name.
fn limit_of(limit: coverage_plan::Limit) -> Limit
    ensures { refusal.Limit result ≡ of_plan (plan.Limit limit) }
{
    match limit {
        coverage_plan::Limit::Bscs => Limit::Bscs,
        coverage_plan::Limit::Cells => Limit::Cells,
        coverage_plan::Limit::Areas => Limit::Areas,
        coverage_plan::Limit::Selectors => Limit::Selectors,
        coverage_plan::Limit::Warnings => Limit::Warnings,
        coverage_plan::Limit::WarningAreas => Limit::WarningAreas,
        coverage_plan::Limit::Ids => Limit::Ids,
    }
}

impl From<coverage_plan::Refusal> for Refusal {
    ghost use Rattle.std.specs.Prelude.{◌≡◌};
    ghost use Rattle.centre_events.specs.Refusals.{of_plan};

    ghost from_gives = { λ r e. e ≡ of_plan r };

    fn from(refusal: coverage_plan::Refusal) -> Refusal {
        match refusal {
            coverage_plan::Refusal::NoSuchBsc => Refusal::NoSuchBsc,
            coverage_plan::Refusal::BscExists => Refusal::BscExists,
            coverage_plan::Refusal::BscHasCells => Refusal::BscHasCells,
            coverage_plan::Refusal::CellExists => Refusal::CellExists,
            coverage_plan::Refusal::NoSuchCell => Refusal::NoSuchCell,
            coverage_plan::Refusal::SameBsc => Refusal::SameBsc,
            coverage_plan::Refusal::BadName => Refusal::BadName,
            coverage_plan::Refusal::AreaExists => Refusal::AreaExists,
            coverage_plan::Refusal::NoSuchArea => Refusal::NoSuchArea,
            coverage_plan::Refusal::AreaInUse => Refusal::AreaInUse,
            coverage_plan::Refusal::SelectorThere => Refusal::SelectorThere,
            coverage_plan::Refusal::SelectorNotThere => Refusal::SelectorNotThere,
            coverage_plan::Refusal::NoSuchWarning => Refusal::NoSuchWarning,
            coverage_plan::Refusal::NotActive => Refusal::NotActive,
            coverage_plan::Refusal::StillActive => Refusal::StillActive,
            coverage_plan::Refusal::NoAreas => Refusal::NoAreas,
            coverage_plan::Refusal::AreaThere => Refusal::AreaThere,
            coverage_plan::Refusal::AreaNotThere => Refusal::AreaNotThere,
            coverage_plan::Refusal::LastArea => Refusal::LastArea,
            coverage_plan::Refusal::BadPages => Refusal::BadPages,
            coverage_plan::Refusal::BadPeriod => Refusal::BadPeriod,
            coverage_plan::Refusal::WrongKind => Refusal::WrongKind,
            coverage_plan::Refusal::Limit { which } => Refusal::Limit {
                which: limit_of(which),
            },
            coverage_plan::Refusal::Memory => Refusal::Memory,
        }
    }
}

impl From<warning_book::Refusal> for Refusal {
    ghost use Rattle.std.specs.Prelude.{◌≡◌};
    ghost use Rattle.centre_events.specs.Refusals.{of_book};

    ghost from_gives = { λ r e. e ≡ of_book r };

    fn from(refusal: warning_book::Refusal) -> Refusal {
        match refusal {
            warning_book::Refusal::NoSuchWarning => Refusal::NoSuchWarning,
            warning_book::Refusal::NotActive => Refusal::NotActive,
            warning_book::Refusal::StillActive => Refusal::StillActive,
            warning_book::Refusal::NoAreas => Refusal::NoAreas,
            warning_book::Refusal::AreaThere => Refusal::AreaThere,
            warning_book::Refusal::AreaNotThere => Refusal::AreaNotThere,
            warning_book::Refusal::LastArea => Refusal::LastArea,
            warning_book::Refusal::BadPages => Refusal::BadPages,
            warning_book::Refusal::BadPeriod => Refusal::BadPeriod,
            warning_book::Refusal::WrongKind => Refusal::WrongKind,
            warning_book::Refusal::Limit {
                which: warning_book::Limit::Warnings,
            } => Refusal::Limit {
                which: Limit::Warnings,
            },
            warning_book::Refusal::Limit {
                which: warning_book::Limit::WarningAreas,
            } => Refusal::Limit {
                which: Limit::WarningAreas,
            },
            warning_book::Refusal::Limit {
                which: warning_book::Limit::Ids,
            } => Refusal::Limit { which: Limit::Ids },
            warning_book::Refusal::Memory => Refusal::Memory,
        }
    }
}

impl From<AllocError> for Refusal {
    ghost use Rattle.std.specs.Prelude.{◌≡◌};
    ghost use Rattle.centre_events.specs.declared.refusal.Refusal.TheVariants as refusal;

    ghost from_gives = { λ _ e. e ≡ refusal.Memory };

    fn from(_: AllocError) -> Refusal {
        Refusal::Memory
    }
}

impl<T: Drop> From<AllocFailed<T>> for Refusal {
    ghost use Rattle.std.specs.Prelude.{◌≡◌};
    ghost use Rattle.centre_events.specs.declared.refusal.Refusal.TheVariants as refusal;

    ghost from_gives = { λ _ e. e ≡ refusal.Memory };

    fn from(_: AllocFailed<T>) -> Refusal {
        Refusal::Memory
    }
}
