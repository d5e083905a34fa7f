//! How far the write side of a port's link is.

use crate::job::Job;
use crate::side_end::SideEnd;

/// How far the write side of a port's link is.
#[derive(Drop)]
pub(crate) enum WriteState {
    /// There is no link, or its write side hasn't to begin yet.
    Idle,
    /// It has to begin.
    Due(Job),
    Running,
    Ended(SideEnd),
}
