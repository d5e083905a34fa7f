//! What is known, before an event, of the lines on which it bears.

use crate::line_before::LineBefore;
use warning_book::WarningId;

/// What is known, before an accepted event, of the lines on which it bears.
#[derive(Drop)]
pub enum LinesBefore {
    /// Those that an edit may change, as they stood: once it is made, what was read of them can't be read any more.
    Read(Vec<LineBefore>),
    /// Any other event leaves the plan as it is, so that each line is read as it is changed. These are the warnings of the
    /// lines.
    Unread(Vec<WarningId>),
}
