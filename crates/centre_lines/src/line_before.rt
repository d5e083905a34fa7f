//! A line as it stood before an edit.

use crate::facts_before::FactsBefore;
use mirror::LineKey;

/// What is read of a line before an edit bears on it.
#[derive(Drop)]
pub struct LineBefore {
    pub key: LineKey,
    pub before: FactsBefore,
}
