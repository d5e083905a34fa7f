//! What a frame names that goes out.

use common::Cell;
use link_rules::Version;

/// The version that the frame of an order or a query names.
#[derive(Clone, Copy, Debug)]
pub enum Named {
    Order(Version),
    /// A MESSAGE STATUS QUERY; its last cell, where it names as many as it may.
    Query(Version, Option<Cell>),
}
