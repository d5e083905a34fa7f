//! When a message came on air.

use link_rules::Version;

/// A version, and when a reply last said that it is on air somewhere.
#[derive(Clone, Copy, Debug, PartialEq, Eq)]
pub struct Airing {
    pub version: Version,
    /// In seconds after 1970-01-01T00:00:00Z.
    pub second: u64,
}
