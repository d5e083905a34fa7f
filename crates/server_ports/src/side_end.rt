//! How a side of a link ended.

use crate::broken::Broken;
use link_worker::End;

/// How a side of a link ended.
#[derive(Clone, Copy, Debug, PartialEq, Eq)]
pub struct SideEnd {
    pub end: End,
    /// What the system says, where a read or a write failed.
    pub broken: Option<Broken>,
}

impl SideEnd {
    /// A side that ended by no failure of its connection.
    pub fn of(end: End) -> SideEnd {
        SideEnd { end, broken: None }
    }
}
