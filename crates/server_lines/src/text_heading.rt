//! What stands in front of a text.

use warning_book::Category;

/// The numbers of a version whose pages are made from a text.
#[derive(Clone, Copy)]
pub struct TextHeading {
    pub category: Category,
    /// The repetition period, in units of 1.883 s.
    pub period: u16,
}
