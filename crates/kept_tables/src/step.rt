//! A change of one line by an event that leaves what else is read of it.

use crate::line_facts::LineFacts;
use mirror::{Line, LineKey};

/// What is read of one line before an event, and what of it may be another after the event: the line itself, and whether its
/// cell is down.
#[derive(Drop)]
pub struct Step<'a> {
    pub key: LineKey,
    pub before: LineFacts<'a>,
    pub line: Line,
    pub down: bool,
}
