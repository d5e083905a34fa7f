//! What a line comes to, where edits are looked for.

use crate::line::Line;
use coverage_plan::Edit;

/// An edit, or why the line is none.
#[derive(Drop)]
pub enum LineEdit {
    Edit(Edit),
    /// Its pages, or its security information, aren't pairs of hexadecimal digits, or aren't as many as they have to be.
    BadHex,
    /// No line of an edit.
    Other(Line),
}
