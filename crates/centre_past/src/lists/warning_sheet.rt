//! A warning with its content.

use crate::lists::warning_row::WarningRow;
use warning_book::Content;

/// A warning in the book, and what its current version broadcasts.
#[derive(Drop)]
pub struct WarningSheet {
    pub row: WarningRow,
    pub content: Option<Content>,
}
