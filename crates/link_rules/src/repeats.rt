//! Which order is out again.

ghost use Rattle.std.specs.Prelude.{◌≤◌};

use crate::repeat::Repeat;
use std::alloc::Global;

/// The time running at which it is said that the order is out again.
const TOLD: u32 = 3;

/// The time running from which it waits.
const PACED: u32 = 10;

/// How long it waits after the last time, in milliseconds.
const PAUSE: u64 = 1_000;

/// How often running the last order of a BSC went out, the same octets each time.
#[derive(Drop)]
pub struct Repeats {
    /// The octets of the last frame.
    frame: Vec<u8>,
    /// How often running it went out, ten for more; 0 where nothing is known of it.
    times: u32,
    /// When it last went out, in milliseconds of the clock.
    sent: u64,
    ghost few: { times ≤ 10 },
}

impl Repeats {
    ghost use Rattle.std.specs.Prelude.{◌≡◌, ◌<◌, ◌⊎◌, List, [], length};
    ghost use Rattle.std.specs.Vec.{vec_capacity};
    ghost use Rattle.link_rules.specs.Repeats.{IsKept, IsSent, Sent, answer_to, times_in};

    /// Nothing went out.
    pub fn new(alloc: Global) -> Repeats
        ensures { IsKept [] result }
    {
        Repeats {
            frame: Vec::new(alloc),
            times: 0,
            sent: 0,
        }
    }

    /// How often running the frame went out, until now.
    fn times_of(&self, frame: &[u8]) -> u32
        ensures value { result ≡ times_in self.now frame.now }
        ensures few { result ≤ 10 }
    {
        if self.frame.as_slice() == frame {
            self.times
        } else {
            0
        }
    }

    /// Makes it the last frame, which went out once. Where there is no memory for it, nothing went out.
    fn keep(&mut self, frame: &[u8])
        ensures { ((self.new.frame.items ≡ frame.now) × (self.new.times ≡ 1)) ⊎ ((self.new.times ≡ 0) × (vec_capacity self.old.frame < length frame.now)) }
    {
        self.frame.clear();
        self.times = if self.frame.extend_from_slice(frame).is_ok() {
            1
        } else {
            0
        };
    }

    /// Whether the order or query may go out whose frame this is, at `now_ms` milliseconds of the clock. `Tell` the third time
    /// running, once; from the tenth on `Wait` until a second after the last time. At `Wait` it isn't counted: ask again. Where
    /// there is no memory for a copy of another frame than the last one, the next time counts as the first.
    pub fn sent(&mut self, frame: &[u8], now_ms: u64) -> Repeat
        ensures answer { (past : List Sent) → IsKept past self.old → result ≡ answer_to now_ms frame.now past }
        ensures kept { (past : List Sent) → IsKept past self.old → IsSent now_ms frame.now past self.old self.new }
    {
        let times = self.times_of(frame);
        let until_ms = self.sent.saturating_add(PAUSE);
        if PACED <= times + 1 && now_ms < until_ms {
            return Repeat::Wait { until_ms };
        }
        if times == 0 {
            self.keep(frame);
        } else {
            self.times = (times + 1).min(PACED);
        }
        self.sent = now_ms;
        if times + 1 == TOLD {
            Repeat::Tell
        } else {
            Repeat::Go
        }
    }

    /// A table of the BSC changed otherwise, or its link came up: what went out before is forgotten.
    pub fn changed(&mut self)
        ensures { IsKept [] self.new }
    {
        self.times = 0;
    }
}
