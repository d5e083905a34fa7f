//! When the journal is folded.

ghost use Rattle.std.specs.Prelude.{◌≡◌, not};
ghost use Rattle.link_rules.specs.FoldPaces.{counted, first_pace, folded, is_due, known, put_off, weight};

use std::cmp::min;

/// How many entries more there are before a fold is tried again for which memory ran out.
const PUT_OFF: u64 = 1_000;

/// How many octets that are kept of a frame, or cells, count as one entry more.
const LARGE: u64 = 64;

/// When the journal is folded: once it has so many entries, where a large one counts as several. So the memory that entries
/// take has a bound, whatever BSCs send. Where memory runs out for a fold, that is put off.
#[derive(Clone, Copy, Debug)]
pub struct FoldPace {
    /// How many entries the journal has before it is folded.
    every: u64,
    /// How many it may have.
    limit: u64,
    /// How many it has, or more: each event counts that may have been entered.
    entries: u64,
    /// How many entries more its large ones count as.
    large: u64,
    /// With how many, both together, a fold is due.
    due: u64,
    /// Memory ran out for a fold, and none was made since.
    was_told: bool,
}

impl FoldPace {
    /// As at the beginning: a fold is due with `fold` entries, or at nine tenths of the most, whichever is less, but not before
    /// there is one.
    pub fn new(fold: u32, limit: u32) -> FoldPace
        ensures { result ≡ first_pace fold limit }
    {
        let limit = u64::from(limit);
        let every = min(u64::from(fold), limit * 9 / 10).max(1);
        FoldPace {
            every,
            limit,
            entries: 0,
            large: 0,
            due: every,
            was_told: false,
        }
    }

    /// How many entries there are, and how many more large ones count as.
    fn weight(&self) -> u64
        ensures { result ≡ weight self.now }
    {
        self.entries.saturating_add(self.large)
    }

    /// Whether a fold is due.
    fn is_due_now(&self) -> bool
        ensures { result ≡ is_due self.now }
    {
        self.due <= self.weight() || self.limit <= self.entries
    }

    /// Counts an event that may have been entered, of which so many octets or cells are kept; 0 of a small one. The answer is whether a
    /// fold may be due.
    pub fn count(&mut self, kept: u64) -> bool
        ensures counted { self.new ≡ counted kept self.old }
        ensures due { result ≡ is_due self.new }
    {
        self.entries = self.entries.saturating_add(1);
        self.large = self.large.saturating_add(kept / LARGE);
        self.is_due_now()
    }

    /// Corrects how many entries the journal has. The answer is whether a fold is due.
    pub fn is_due(&mut self, entries: u64) -> bool
        ensures known { self.new ≡ known entries self.old }
        ensures due { result ≡ is_due self.new }
    {
        self.entries = entries;
        self.is_due_now()
    }

    /// The journal was folded.
    pub fn fold(&mut self)
        ensures { self.new ≡ folded self.old }
    {
        self.entries = 0;
        self.large = 0;
        self.due = self.every;
        self.was_told = false;
    }

    /// Puts off a fold for which memory ran out: until there are 1,000 entries more, or the journal is full. The answer is whether
    /// that is to be told, since it wasn't since the last fold.
    pub fn put_off(&mut self) -> bool
        ensures left { self.new ≡ put_off self.old }
        ensures first { result ≡ not self.old.was_told }
    {
        let is_first = !self.was_told;
        self.due = self.weight().saturating_add(PUT_OFF);
        self.was_told = true;
        is_first
    }
}
