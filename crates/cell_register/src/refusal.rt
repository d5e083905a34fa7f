//! Why an event is refused.

ghost use Rattle.std.specs.Prelude.{◌≡◌};

use std::alloc::{AllocError, AllocFailed};
use std::error::Error;
use std::fmt;

/// A number that would be passed.
#[derive(Clone, Copy, Debug, PartialEq, Eq)]
pub enum Limit {
    /// 256 BSCs.
    Bscs,
    /// 65,536 registered cells.
    Cells,
}

/// Why an event is refused, in the order in which the causes are looked at. The first that holds is the answer;
/// `Memory` is the last.
#[derive(Clone, Copy, Debug, PartialEq, Eq)]
pub enum Refusal {
    NoSuchBsc,
    BscExists,
    BscHasCells,
    CellExists,
    NoSuchCell,
    SameBsc,
    Limit { which: Limit },
    Memory,
}

impl Refusal {
    /// What is printed of it.
    fn words(self) -> &'static str {
        match self {
            Refusal::NoSuchBsc => "no such BSC",
            Refusal::BscExists => "the BSC is registered already",
            Refusal::BscHasCells => "the BSC has cells",
            Refusal::CellExists => "the cell is registered already",
            Refusal::NoSuchCell => "no such cell",
            Refusal::SameBsc => "the cell is registered at this BSC already",
            Refusal::Limit { which: Limit::Bscs } => "a limit would be passed: Bscs",
            Refusal::Limit {
                which: Limit::Cells,
            } => "a limit would be passed: Cells",
            Refusal::Memory => "out of memory",
        }
    }
}

impl fmt::Display for Refusal {
    fn fmt<W: fmt::Write>(&self, f: &mut fmt::Formatter<W>) -> fmt::Result {
        f.write_str(self.words())
    }
}

impl Error for Refusal {}

impl From<AllocError> for Refusal {
    ghost use Rattle.std.specs.Prelude.{◌≡◌};
    ghost use Rattle.cell_register.specs.declared.refusal.Refusal.TheVariants as refusal;

    ghost from_gives = { λ _ e. e ≡ refusal.Memory };

    fn from(_: AllocError) -> Refusal {
        Refusal::Memory
    }
}

impl<T: Drop> From<AllocFailed<T>> for Refusal {
    ghost use Rattle.std.specs.Prelude.{◌≡◌};
    ghost use Rattle.cell_register.specs.declared.refusal.Refusal.TheVariants as refusal;

    ghost from_gives = { λ _ e. e ≡ refusal.Memory };

    fn from(_: AllocFailed<T>) -> Refusal {
        Refusal::Memory
    }
}
