//! How fast a peer is let in.

use link_rules::{CostLimit, RateLimit};

/// How fast the reports and the connections of a port are let in, and what its reports may cost.
#[derive(Clone, Copy, Debug)]
pub struct LinkLimits {
    pub reports: RateLimit,
    pub connections: RateLimit,
    pub costs: CostLimit,
}

impl LinkLimits {
    /// As it usually is: 140,000 reports at once, and then 20 a second; 100 connections at once, and then one a second; reports of
    /// 64,000,000 octets and 72,000,000 lines, and then of 20,000 each a second.
    pub fn usual() -> LinkLimits {
        LinkLimits {
            reports: RateLimit::for_reports(),
            connections: RateLimit::for_connections(),
            costs: CostLimit::for_reports(),
        }
    }
}
