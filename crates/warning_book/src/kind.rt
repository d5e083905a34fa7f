//! The kinds of warnings.

/// The kinds of warnings, which a BSC broadcasts in different ways (TS 48.049, 8.2.24). A warning stays of one kind.
#[derive(Clone, Copy, Debug, PartialEq, Eq)]
pub enum Kind {
    /// Pages of the Cell Broadcast Service.
    Cbs,
    /// An emergency warning, which has no pages.
    Emergency,
}
