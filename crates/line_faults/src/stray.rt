//! Letters that part no words.

/// A letter that looks like a space, or like nothing.
#[derive(Clone, Copy, Debug, PartialEq, Eq)]
pub enum Stray {
    Tab,
    /// U+00A0
    NoBreakSpace,
    /// U+FEFF
    ByteOrderMark,
}
