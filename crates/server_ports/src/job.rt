//! A link whose write side has to begin.

use crate::connection::Connection;

/// A link whose write side has to begin.
#[derive(Drop)]
pub struct Job {
    pub generation: u64,
    pub connection: Connection,
}
