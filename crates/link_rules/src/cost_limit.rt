//! How much the reports of a link may cost.

ghost use Rattle.std.specs.Prelude.{◌≡◌, not, true};
ghost use Rattle.link_rules.specs.CostLimits.{allows, charged, costs};

use crate::bucket::Bucket;
use crate::cost::Cost;
use crate::pace::Pace;

/// How much the reports of a link may cost, so that a peer doesn't take the memory and the time of others. What has to wait isn't
/// lost: it waits in the socket.
#[derive(Clone, Copy, Debug)]
pub struct CostLimit {
    octets: Bucket,
    lines: Bucket,
    was_told: bool,
}

impl CostLimit {
    /// 64,000,000 octets and 72,000,000 lines at once, and 20,000 of each a second. A BSC of 65,536 cells where there are 256
    /// warnings may fail and restart as a whole, for both types, or restart cell by cell.
    pub fn for_reports() -> CostLimit
        ensures { result ≡ costs }
    {
        CostLimit {
            octets: Bucket::new(64_000_000, Pace::TwentyThousandASecond),
            lines: Bucket::new(72_000_000, Pace::TwentyThousandASecond),
            was_told: false,
        }
    }

    /// Whether a report of this cost may come in now, which is charged then. At `false` nothing is charged: ask again later. `now_ms`
    /// is in milliseconds of the clock.
    pub fn take(&mut self, cost: Cost, now_ms: u64) -> bool
        ensures taken { result ≡ allows now_ms cost self.old }
        ensures left { self.new ≡ charged now_ms cost self.old }
    {
        self.octets.fill(now_ms);
        self.lines.fill(now_ms);
        if self.octets.is_full() && self.lines.is_full() {
            self.was_told = false;
        }
        let is_allowed = self.octets.holds(cost.octets) && self.lines.holds(cost.lines);
        if is_allowed {
            self.octets.take_out(cost.octets);
            self.lines.take_out(cost.lines);
        }
        is_allowed
    }

    /// Whether it is to be said that one is held back: the first time since as much could come in as at the beginning.
    pub fn is_first(&mut self) -> bool
        ensures first { result ≡ not self.old.was_told }
        ensures told { self.new ≡ record self.old { was_told = true } }
    {
        let is_first = !self.was_told;
        self.was_told = true;
        is_first
    }
}
