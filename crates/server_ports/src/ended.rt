//! What was known of a link when its read side ended.

use crate::shut::Shut;
use crate::side_end::SideEnd;

/// What was known of a link when its read side ended.
#[derive(Clone, Copy, Debug, PartialEq, Eq)]
pub struct Ended {
    /// Why this program had ended it.
    pub shut: Option<Shut>,
    /// How its write side had ended by then.
    pub written: Option<SideEnd>,
}
