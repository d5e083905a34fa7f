//! A read or a write that came to nothing.

use thiserror::Error;

/// A read or a write came to nothing: it gave or took no octet.
#[derive(Clone, Copy, Debug, PartialEq, Eq, Error)]
#[error("the stream failed")]
pub struct Failed;
