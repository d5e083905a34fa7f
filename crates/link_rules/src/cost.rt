//! What a report costs.

ghost use Rattle.std.specs.Prelude.{◌≡◌};
ghost use Rattle.link_rules.specs.Costs.{cost_of, is_heavy, kept_of_order, pause_of};

use std::cmp::min;

/// From how many octets on a report is heavy.
const HEAVY_OCTETS: u64 = 16_384;

/// From how many lines on it is.
const HEAVY_LINES: u64 = 2_000;

/// For how many lines a millisecond is left to others, and how many at most.
const LINES_A_PAUSE: u64 = 10_000;

const LONGEST_PAUSE: u64 = 50;

/// What a report may cost at most: the octets of its body, the lines at which the centre has to look, one for each cell that it may
/// name and one more for each warning there, and the octets and cells that are kept of it until the journal is folded.
#[derive(Clone, Copy, Debug, PartialEq, Eq)]
pub struct Cost {
    pub octets: u64,
    pub lines: u64,
    pub kept: u64,
}

/// How much is kept of an order or a query of so many octets and cells, and of what its reply says of each cell, until the journal is
/// folded. It is counted in octets of a report: a cell takes as much memory as six of these, and four octets of the order as one.
pub fn kept_of_order(octets: u64, cells: u64) -> u64
    ensures { result ≡ kept_of_order octets cells }
{
    cells.saturating_mul(6).saturating_add(octets / 4)
}

impl Cost {
    /// The cost of a report of so many octets that names so many cells, `None` for any, where the BSC has `cells` registered and
    /// there are so many warnings.
    pub fn of(octets: u64, named: Option<u64>, cells: u64, warnings: u64) -> Cost
        ensures { result ≡ cost_of octets named cells warnings }
    {
        let named = match named {
            Some(named) => min(named, cells),
            None => cells,
        };
        Cost {
            octets,
            lines: named.saturating_mul(warnings.saturating_add(1)),
            kept: octets.saturating_add(named),
        }
    }

    /// Whether the centre may take longer for it than others should wait again and again.
    pub fn is_heavy(&self) -> bool
        ensures { result ≡ is_heavy self.now }
    {
        HEAVY_OCTETS <= self.octets || HEAVY_LINES <= self.lines
    }

    /// How many milliseconds are left to others after a heavy report.
    pub fn pause_ms(&self) -> u64
        ensures { result ≡ pause_of self.now }
    {
        min(self.lines / LINES_A_PAUSE, LONGEST_PAUSE)
    }
}
