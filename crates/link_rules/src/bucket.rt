//! How many may pass.

use crate::pace::Pace;

/// How much may pass just now: reports, connections, octets or lines. There is so much at most, and it is refilled at a pace.
#[derive(Clone, Copy, Debug)]
pub struct Bucket {
    most: u64,
    pace: Pace,
    left: u64,
    /// When some were last added, in milliseconds of the clock.
    filled: u64,
}

impl Bucket {
    ghost use Rattle.std.specs.Prelude.{◌≡◌, ltb, nat_eq};
    ghost use Rattle.link_rules.specs.Buckets.{filled_at, full, holds, one_less, without};

    /// A full bucket.
    pub(crate) fn new(most: u64, pace: Pace) -> Bucket
        ensures { result ≡ full most pace }
    {
        Bucket {
            most,
            pace,
            left: most,
            filled: 0,
        }
    }

    /// Adds those of the time that went by. What is left of it counts the next time.
    #[tactic(auto, using(crate::proofs::BucketLemmas::whole_times, crate::proofs::BucketLemmas::up_to_the_most))]
    pub(crate) fn fill(&mut self, now: u64)
        ensures { self.new ≡ filled_at now self.old }
    {
        let time = self.pace.time();
        let times = now.saturating_sub(self.filled) / time;
        let added = times.saturating_mul(self.pace.count());
        self.left = self.left.saturating_add(added).min(self.most);
        self.filled += times * time;
    }

    /// Takes one, if there is one.
    pub(crate) fn take(&mut self) -> bool
        ensures taken { result ≡ ltb 0 self.old.left }
        ensures left { self.new ≡ one_less self.old }
    {
        if self.left == 0 {
            return false;
        }
        self.left -= 1;
        true
    }

    /// Whether there are so many; or all that there may be, where so many never are.
    pub(crate) fn holds(&self, count: u64) -> bool
        ensures { result ≡ holds count self.now }
    {
        count.min(self.most) <= self.left
    }

    /// Takes so many, or all that there are.
    pub(crate) fn take_out(&mut self, count: u64)
        ensures { self.new ≡ without count self.old }
    {
        self.left = self.left.saturating_sub(count.min(self.most));
    }

    /// Whether there are as many as at the beginning.
    pub(crate) fn is_full(&self) -> bool
        ensures { result ≡ nat_eq self.now.left self.now.most }
    {
        self.left == self.most
    }
}
