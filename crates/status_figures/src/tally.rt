//! A name, and how often it was counted.

use common::Name;

/// A name, and how often it was counted.
#[derive(Debug, Drop)]
pub struct Tally {
    pub name: Name,
    pub count: u64,
}
