//! Why a journal isn't kept any more.

use journal_file::PutFault;
use std::alloc::AllocError;
use thiserror::Error;

/// Why a journal isn't kept any more. What was told of it stands in the file.
#[derive(Clone, Copy, Debug, PartialEq, Eq, Error)]
pub enum KeepFault {
    /// A write or a sync of the file failed.
    #[error("journal fault")]
    File,
    /// An entry has no line, or was folded before it was handed out.
    #[error("journal fault")]
    Entry,
    #[error("out of memory")]
    Memory,
}

impl From<AllocError> for KeepFault {
    fn from(_: AllocError) -> KeepFault {
        KeepFault::Memory
    }
}

impl From<PutFault> for KeepFault {
    fn from(fault: PutFault) -> KeepFault {
        match fault {
            PutFault::Memory => KeepFault::Memory,
            PutFault::BadLine | PutFault::Full => KeepFault::Entry,
        }
    }
}
