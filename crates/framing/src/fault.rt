//! The faults of a stream of frames.

ghost use Rattle.std.specs.Prelude.{◌≡◌};
ghost use Rattle.framing.specs.Fault.{number_of};

use std::alloc::AllocError;
use thiserror::Error;

/// Why a piece of a stream was refused.
#[derive(Clone, Copy, Debug, PartialEq, Eq, Error)]
pub enum FrameFault {
    /// The next frame announces a body of so many octets, more than are read.
    #[error("a frame with a body of {length} octets is too long")]
    TooLong { length: u32 },
    /// There was no memory for the piece or for its frames. The same piece can be given again.
    #[error("out of memory")]
    Memory,
}

impl FrameFault {
    /// The fault's number; `Memory` has none.
    pub fn number(self) -> Option<u8>
        ensures { result ≡ number_of self }
    {
        match self {
            FrameFault::TooLong { length: _ } => Some(1),
            FrameFault::Memory => None,
        }
    }
}

impl From<AllocError> for FrameFault {
    ghost use Rattle.std.specs.Prelude.{◌≡◌};
    ghost use Rattle.framing.specs.declared.fault.FrameFault.TheVariants.{Memory};

    ghost from_gives = { λ _ e. e ≡ Memory };

    fn from(_error: AllocError) -> FrameFault {
        FrameFault::Memory
    }
}
