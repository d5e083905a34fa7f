//! When a query for a version is due.

use crate::version::Version;

/// A version of a warning, and when the next query for it is due, in milliseconds of the clock.
#[derive(Clone, Copy)]
pub struct VersionDue {
    pub version: Version,
    pub due: u64,
}
