//! What ends a run.

ghost use Rattle.std.specs.Prelude.{◌≡◌};
ghost use Rattle.console_text.specs.Faults.{fault_words};

use std::alloc::{AllocError, AllocFailed};
use thiserror::Error;

/// Why a run of the console ended before its input did.
#[derive(Clone, Copy, Debug, PartialEq, Eq, Error)]
pub enum ReplayFault {
    /// A read failed, or 1,000,000,000,000 reads didn't come to the end.
    #[error("read fault")]
    ReadFault,
    /// A write failed, or took nothing.
    #[error("write fault")]
    WriteFault,
    /// There was no memory for a line or for the text of its answer.
    #[error("out of memory")]
    Memory,
    /// A line has more than 600,000 octets.
    #[error("line too long")]
    LongLine,
}

impl From<AllocError> for ReplayFault {
    ghost use Rattle.std.specs.Prelude.{◌≡◌};
    ghost use Rattle.console_text.specs.declared.fault.ReplayFault.TheVariants.{Memory};

    ghost from_gives = { λ _ e. e ≡ Memory };

    fn from(_: AllocError) -> ReplayFault {
        ReplayFault::Memory
    }
}

impl<T: Drop> From<AllocFailed<T>> for ReplayFault {
    ghost use Rattle.std.specs.Prelude.{◌≡◌};
    ghost use Rattle.console_text.specs.declared.fault.ReplayFault.TheVariants.{Memory};

    ghost from_gives = { λ _ e. e ≡ Memory };

    fn from(_: AllocFailed<T>) -> ReplayFault {
        ReplayFault::Memory
    }
}

/// What is said of a fault.
pub fn fault_words(fault: ReplayFault) -> &'static [u8]
    ensures { result.now ≡ fault_words fault }
{
    match fault {
        ReplayFault::ReadFault => b"cbc: read fault\n",
        ReplayFault::WriteFault => b"cbc: write fault\n",
        ReplayFault::Memory => b"cbc: out of memory\n",
        ReplayFault::LongLine => b"cbc: line too long\n",
    }
}
