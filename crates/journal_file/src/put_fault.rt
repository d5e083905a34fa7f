//! Why a line isn't put.

use thiserror::Error;

/// Why a line isn't put into a journal's file.
#[derive(Clone, Copy, Debug, PartialEq, Eq, Error)]
pub enum PutFault {
    /// It has a line feed within, or more than 600,000 octets; or it is a comment, or none, where it has to be the other.
    #[error("bad line")]
    BadLine,
    /// It would be entry 18,446,744,073,709,551,616.
    #[error("too many entries")]
    Full,
    #[error("out of memory")]
    Memory,
}
