//! Why a file isn't read as a journal.

use std::alloc::AllocError;
use thiserror::Error;

/// Why a file isn't read as the journal that is asked for. Nothing in the file was changed. Lines are numbered from 1.
#[derive(Clone, Copy, Debug, PartialEq, Eq, Error)]
pub enum LoadFault {
    /// A read failed, or 1,000,000,000,000 reads didn't come to the end.
    #[error("journal read fault")]
    ReadFault,
    #[error("out of memory")]
    Memory,
    /// The first line is no journal's: it is a file of another program.
    #[error("not a journal")]
    NotJournal,
    /// The first line names another network.
    #[error("journal of another network")]
    OtherNetwork,
    /// The first line names another number of broadcasts: the one that it names, and the one that is asked for.
    #[error("journal of {0} broadcasts, not of {1}")]
    OtherBroadcasts(u16, u16),
    /// The line has more than 600,000 octets.
    #[error("journal line {0} too long")]
    LongLine(u64),
    /// The line is no event, or isn't accepted.
    #[error("journal line {0}")]
    BadLine(u64),
}

impl From<AllocError> for LoadFault {
    ghost use Rattle.std.specs.Prelude.{◌≡◌};
    ghost use Rattle.journal_file.specs.declared.load_fault.LoadFault.TheVariants.{Memory};

    ghost from_gives = { λ _ e. e ≡ Memory };

    fn from(_: AllocError) -> LoadFault {
        LoadFault::Memory
    }
}
