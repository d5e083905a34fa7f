//! Why an edit is refused.

ghost use Rattle.std.specs.Prelude.{◌≡◌};

use std::alloc::{AllocError, AllocFailed};
use std::error::Error;
use std::fmt;

/// A number that would be passed.
#[derive(Clone, Copy, Debug, PartialEq, Eq)]
pub enum Limit {
    /// 256 BSCs.
    Bscs,
    /// 65,536 registered cells.
    Cells,
    /// 4,096 areas.
    Areas,
    /// 4,096 selectors of one area.
    Selectors,
    /// 256 warnings in the book.
    Warnings,
    /// 16 areas of one warning.
    WarningAreas,
    /// 4,294,967,295 warnings in all.
    Ids,
}

/// Why an edit is refused, in the order in which the causes are looked at. The first that holds is the answer; out of
/// memory is the last.
#[derive(Clone, Copy, Debug, PartialEq, Eq)]
pub enum Refusal {
    NoSuchBsc,
    BscExists,
    BscHasCells,
    CellExists,
    NoSuchCell,
    SameBsc,
    BadName,
    AreaExists,
    NoSuchArea,
    AreaInUse,
    SelectorThere,
    SelectorNotThere,
    NoSuchWarning,
    NotActive,
    StillActive,
    NoAreas,
    AreaThere,
    AreaNotThere,
    LastArea,
    BadPages,
    BadPeriod,
    WrongKind,
    Limit { which: Limit },
    Memory,
}

impl Refusal {
    /// What is printed of it.
    fn words(self) -> &'static str {
        match self {
            Refusal::NoSuchBsc => "no such BSC",
            Refusal::BscExists => "the BSC is registered already",
            Refusal::BscHasCells => "cells are registered at the BSC",
            Refusal::CellExists => "the cell is registered already",
            Refusal::NoSuchCell => "no such cell",
            Refusal::SameBsc => "the cell is registered at this BSC already",
            Refusal::BadName => "a name is 1 to 32 letters, digits or hyphens",
            Refusal::AreaExists => "the area is there already",
            Refusal::NoSuchArea => "no such area",
            Refusal::AreaInUse => "a warning names the area",
            Refusal::SelectorThere => "the area has this selector already",
            Refusal::SelectorNotThere => "the area has no such selector",
            Refusal::NoSuchWarning => "no such warning",
            Refusal::NotActive => "the warning was stopped",
            Refusal::StillActive => "the warning is active",
            Refusal::NoAreas => "a warning names one area at least",
            Refusal::AreaThere => "the warning names the area already, or it is named twice",
            Refusal::AreaNotThere => "the warning does not name the area",
            Refusal::LastArea => "the warning names no other area",
            Refusal::BadPages => "a content has 1 to 15 pages of 1 to 82 octets",
            Refusal::BadPeriod => "a repetition period is 1 to 1,024",
            Refusal::WrongKind => "the warning is of the other kind",
            Refusal::Limit { which: Limit::Bscs } => "a limit would be passed: Bscs",
            Refusal::Limit {
                which: Limit::Cells,
            } => "a limit would be passed: Cells",
            Refusal::Limit {
                which: Limit::Areas,
            } => "a limit would be passed: Areas",
            Refusal::Limit {
                which: Limit::Selectors,
            } => "a limit would be passed: Selectors",
            Refusal::Limit {
                which: Limit::Warnings,
            } => "a limit would be passed: Warnings",
            Refusal::Limit {
                which: Limit::WarningAreas,
            } => "a limit would be passed: WarningAreas",
            Refusal::Limit { which: Limit::Ids } => "a limit would be passed: Ids",
            Refusal::Memory => "out of memory",
        }
    }
}

impl fmt::Display for Refusal {
    fn fmt<W: fmt::Write>(&self, f: &mut fmt::Formatter<W>) -> fmt::Result {
        f.write_str(self.words())
    }
}

impl Error for Refusal {}

impl From<cell_register::Refusal> for Refusal {
    ghost use Rattle.std.specs.Prelude.{◌≡◌};
    ghost use Rattle.coverage_plan.specs.Refusals.{of_register};

    ghost from_gives = { λ r e. e ≡ of_register r };

    fn from(refusal: cell_register::Refusal) -> Refusal {
        match refusal {
            cell_register::Refusal::NoSuchBsc => Refusal::NoSuchBsc,
            cell_register::Refusal::BscExists => Refusal::BscExists,
            cell_register::Refusal::BscHasCells => Refusal::BscHasCells,
            cell_register::Refusal::CellExists => Refusal::CellExists,
            cell_register::Refusal::NoSuchCell => Refusal::NoSuchCell,
            cell_register::Refusal::SameBsc => Refusal::SameBsc,
            cell_register::Refusal::Limit {
                which: cell_register::Limit::Bscs,
            } => Refusal::Limit { which: Limit::Bscs },
            cell_register::Refusal::Limit {
                which: cell_register::Limit::Cells,
            } => Refusal::Limit {
                which: Limit::Cells,
            },
            cell_register::Refusal::Memory => Refusal::Memory,
        }
    }
}

impl From<areas::Refusal> for Refusal {
    ghost use Rattle.std.specs.Prelude.{◌≡◌};
    ghost use Rattle.coverage_plan.specs.Refusals.{of_areas};

    ghost from_gives = { λ r e. e ≡ of_areas r };

    fn from(refusal: areas::Refusal) -> Refusal {
        match refusal {
            areas::Refusal::BadName => Refusal::BadName,
            areas::Refusal::AreaExists => Refusal::AreaExists,
            areas::Refusal::NoSuchArea => Refusal::NoSuchArea,
            areas::Refusal::SelectorThere => Refusal::SelectorThere,
            areas::Refusal::SelectorNotThere => Refusal::SelectorNotThere,
            areas::Refusal::Limit {
                which: areas::Limit::Areas,
            } => Refusal::Limit {
                which: Limit::Areas,
            },
            areas::Refusal::Limit {
                which: areas::Limit::Selectors,
            } => Refusal::Limit {
                which: Limit::Selectors,
            },
            areas::Refusal::Memory => Refusal::Memory,
        }
    }
}

impl From<warning_book::Refusal> for Refusal {
    ghost use Rattle.std.specs.Prelude.{◌≡◌};
    ghost use Rattle.coverage_plan.specs.Refusals.{of_book};

    ghost from_gives = { λ r e. e ≡ of_book r };

    fn from(refusal: warning_book::Refusal) -> Refusal {
        match refusal {
            warning_book::Refusal::NoSuchWarning => Refusal::NoSuchWarning,
            warning_book::Refusal::NotActive => Refusal::NotActive,
            warning_book::Refusal::StillActive => Refusal::StillActive,
            warning_book::Refusal::NoAreas => Refusal::NoAreas,
            warning_book::Refusal::AreaThere => Refusal::AreaThere,
            warning_book::Refusal::AreaNotThere => Refusal::AreaNotThere,
            warning_book::Refusal::LastArea => Refusal::LastArea,
            warning_book::Refusal::BadPages => Refusal::BadPages,
            warning_book::Refusal::BadPeriod => Refusal::BadPeriod,
            warning_book::Refusal::WrongKind => Refusal::WrongKind,
            warning_book::Refusal::Limit {
                which: warning_book::Limit::Warnings,
            } => Refusal::Limit {
                which: Limit::Warnings,
            },
            warning_book::Refusal::Limit {
                which: warning_book::Limit::WarningAreas,
            } => Refusal::Limit {
                which: Limit::WarningAreas,
            },
            warning_book::Refusal::Limit {
                which: warning_book::Limit::Ids,
            } => Refusal::Limit { which: Limit::Ids },
            warning_book::Refusal::Memory => Refusal::Memory,
        }
    }
}

impl From<AllocError> for Refusal {
    ghost use Rattle.std.specs.Prelude.{◌≡◌};
    ghost use Rattle.coverage_plan.specs.declared.refusal.Refusal.TheVariants as refusal;

    ghost from_gives = { λ _ e. e ≡ refusal.Memory };

    fn from(_: AllocError) -> Refusal {
        Refusal::Memory
    }
}

impl<T: Drop> From<AllocFailed<T>> for Refusal {
    ghost use Rattle.std.specs.Prelude.{◌≡◌};
    ghost use Rattle.coverage_plan.specs.declared.refusal.Refusal.TheVariants as refusal;

    ghost from_gives = { λ _ e. e ≡ refusal.Memory };

    fn from(_: AllocFailed<T>) -> Refusal {
        Refusal::Memory
    }
}
