//! Why a file can't be opened.

use thiserror::Error;

/// Why the file of a journal can't be opened.
#[derive(Clone, Copy, Debug, PartialEq, Eq, Error)]
pub enum OpenFault {
    /// Another process has it open as its journal.
    #[error("journal in use")]
    InUse,
    /// The system refuses to open or to lock it: it is a directory, say, or there are no rights.
    #[error("journal fault")]
    Refused,
}
