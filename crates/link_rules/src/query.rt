//! A query that is due.

use crate::version::Version;
use common::Cell;

/// A query for a version, in the cells after that one.
#[derive(Clone, Copy, Debug, PartialEq, Eq)]
pub struct Query {
    pub version: Version,
    pub after: Option<Cell>,
}
