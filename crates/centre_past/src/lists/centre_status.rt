//! How a centre stands.

use crate::lists::plan_counts::PlanCounts;

/// How a centre stands. It is told of a stale centre too.
#[derive(Clone, Copy, Debug, PartialEq, Eq)]
pub struct CentreStatus {
    /// How many events were entered since the beginning.
    pub entries: u64,
    /// How many of these entries were folded.
    pub folded: u64,
    /// How many entries the journal may have.
    pub limit: u32,
    /// Memory ran out while an event was entered, and the centre wasn't rebuilt since.
    pub is_stale: bool,
    /// How many things it has; `None` where it is stale, since what is kept is of no use then.
    pub counts: Option<PlanCounts>,
}
