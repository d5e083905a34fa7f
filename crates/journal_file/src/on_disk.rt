//! What stands in a file of the system for good.

use framing::Failed;
use std::fs::File;

/// That what stands in a file of the system stands there for good. Only `of` gives one, once the file is synced.
#[derive(Clone, Copy)]
pub struct OnDisk {
    _private: (),
}

impl OnDisk {
    /// Has all that stands in the file stand there for good.
    pub(crate) fn of(file: &File) -> Result<OnDisk, Failed> {
        match file.sync_data() {
            Ok(()) => Ok(OnDisk { _private: () }),
            Err(_) => Err(Failed),
        }
    }
}
