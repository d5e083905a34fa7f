//! A line that is to be said.

use crate::level::Level;

/// A line that is to be said, with its end.
#[derive(Drop)]
pub(crate) struct Line {
    pub(crate) level: Level,
    pub(crate) text: String,
}
