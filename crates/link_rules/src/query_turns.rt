//! How fast own queries are wished for, over all BSCs.

ghost use Rattle.std.specs.Prelude.{◌≡◌, ltb};
ghost use Rattle.link_rules.specs.QueryPaces.{first_place, looked, new_turns, with_turn};

/// Milliseconds in a second.
const SECOND: u64 = 1_000;

/// How many own queries may still be wished for in this second, over all BSCs, and whose turn it is.
#[derive(Clone, Copy, Debug)]
pub struct QueryTurns {
    per_second: u32,
    /// When this second began, in milliseconds of the clock.
    begun: u64,
    left: u32,
    /// The place of the BSC behind the one that was asked last.
    next: usize,
}

impl QueryTurns {
    /// So many a second, from the first BSC on.
    pub fn new(per_second: u32) -> QueryTurns
        ensures { result ≡ new_turns per_second }
    {
        QueryTurns {
            per_second,
            begun: 0,
            left: per_second,
            next: 0,
        }
    }

    /// It is that time, in milliseconds of the clock: a second after the last one began the next begins.
    pub fn look(&mut self, now_ms: u64)
        ensures { self.new ≡ looked now_ms self.old }
    {
        if SECOND <= now_ms.saturating_sub(self.begun) {
            self.begun = now_ms;
            self.left = self.per_second;
        }
    }

    /// Whether one more may be wished for.
    pub fn has_turn(&self) -> bool
        ensures { result ≡ ltb 0 self.now.left }
    {
        0 < self.left
    }

    /// The place of the BSC, of so many, that is looked at first; the others follow by their places, and then those before it.
    pub fn first(&self, count: usize) -> usize
        ensures { result ≡ first_place count self.now }
    {
        if self.next < count { self.next } else { 0 }
    }

    /// One is wished for at the BSC of that place.
    pub fn take(&mut self, place: usize)
        ensures { self.new ≡ with_turn place self.old }
    {
        self.left = self.left.saturating_sub(1);
        self.next = place.saturating_add(1);
    }
}
