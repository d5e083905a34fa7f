//! Why a list of peers can't be read.

use std::alloc::{AllocError, AllocFailed};
use thiserror::Error;

/// Why a list of peers can't be read.
#[derive(Clone, Copy, Debug, PartialEq, Eq, Error)]
pub enum PeersFault {
    /// This line can't be read, the first one of those. Lines are counted from 1.
    #[error("line {0} can't be read")]
    Line(u64),
    #[error("out of memory")]
    Memory,
}

impl From<AllocError> for PeersFault {
    ghost use Rattle.std.specs.Prelude.{◌≡◌};
    ghost use Rattle.link_rules.specs.declared.peers_fault.PeersFault.TheVariants as fault;

    ghost from_gives = { λ _ e. e ≡ fault.Memory };

    fn from(_: AllocError) -> PeersFault {
        PeersFault::Memory
    }
}

impl<T: Drop> From<AllocFailed<T>> for PeersFault {
    ghost use Rattle.std.specs.Prelude.{◌≡◌};
    ghost use Rattle.link_rules.specs.declared.peers_fault.PeersFault.TheVariants as fault;

    ghost from_gives = { λ _ e. e ≡ fault.Memory };

    fn from(_: AllocFailed<T>) -> PeersFault {
        PeersFault::Memory
    }
}
