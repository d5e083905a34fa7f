//! A version of a warning.

use crate::content::Content;
use serials::Serial;
use std::alloc::AllocError;

/// A version of a warning: its serial number, and what it broadcasts.
#[derive(Debug, PartialEq, Eq, Drop)]
pub struct Version {
    pub serial: Serial,
    pub content: Content,
}

impl Clone for Version {
    ghost use Rattle.std.specs.Prelude.{◌≡◌};

    ghost is_clone = { λ s t. t ≡ s };

    fn clone(&self) -> Result<Version, AllocError> {
        Ok(Version {
            serial: self.serial,
            content: self.content.clone()?,
        })
    }
}
