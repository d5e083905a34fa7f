//! How fast reports and connections are let in.

ghost use Rattle.std.specs.Prelude.{◌≡◌, not, true};
ghost use Rattle.link_rules.specs.RateLimits.{connections, has_one, limit_after, reports};

use crate::bucket::Bucket;
use crate::pace::Pace;

/// How fast the reports of a link are let in, or the connections to a port. So a peer that sends without end doesn't fill the
/// journal. What has to wait isn't lost: it waits in the socket.
#[derive(Clone, Copy, Debug)]
pub struct RateLimit {
    bucket: Bucket,
    was_told: bool,
}

impl RateLimit {
    /// 140,000 reports at once, and 20 a second. A BSC of 65,536 cells that restarts cell by cell, for both types, sends
    /// 131,072.
    pub fn for_reports() -> RateLimit
        ensures { result ≡ reports }
    {
        RateLimit {
            bucket: Bucket::new(140_000, Pace::TwentyASecond),
            was_told: false,
        }
    }

    /// 100 connections at once, and one a second.
    pub fn for_connections() -> RateLimit
        ensures { result ≡ connections }
    {
        RateLimit {
            bucket: Bucket::new(100, Pace::OneASecond),
            was_told: false,
        }
    }

    /// Whether one may come in now, which is counted then. At `false` nothing is counted: ask again later. `now_ms` is in
    /// milliseconds of the clock.
    pub fn take(&mut self, now_ms: u64) -> bool
        ensures taken { result ≡ has_one now_ms self.old }
        ensures left { self.new ≡ limit_after now_ms self.old }
    {
        self.bucket.fill(now_ms);
        if self.bucket.is_full() {
            self.was_told = false;
        }
        self.bucket.take()
    }

    /// Whether it is to be said that one is held back: the first time since as many could come in as at the beginning.
    pub fn is_first(&mut self) -> bool
        ensures first { result ≡ not self.old.was_told }
        ensures told { self.new ≡ record self.old { was_told = true } }
    {
        let is_first = !self.was_told;
        self.was_told = true;
        is_first
    }
}
