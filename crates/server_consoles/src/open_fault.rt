//! Why there are no consoles.

use std::io;
use thiserror::Error;

/// Why the socket file of the consoles can't be made.
#[derive(Debug, Drop, Error)]
pub enum OpenFault {
    /// A program takes connections there.
    #[error("it is in use")]
    InUse,
    /// Something else stands there.
    #[error("something else stands there")]
    Other,
    #[error("{0}")]
    System(io::Error),
}

impl From<io::Error> for OpenFault {
    fn from(error: io::Error) -> OpenFault {
        OpenFault::System(error)
    }
}
