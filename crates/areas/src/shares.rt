//! What an area selects of the location areas from its first to its last.

ghost use Rattle.std.specs.Prelude.{◌≡◌, ◌≤◌, ℕ, replicate, if◌then◌else◌};
ghost use Rattle.areas.specs.Selector.{lac_of};
ghost use Rattle.areas.specs.Shares.{Tells, are_together, is_whole, range_of, share_of, with_selector};

use crate::selector::{Selector, lac_of};
use crate::share::Share;

/// Of how many ranges of location areas something is told.
const COUNT: usize = 64;

/// From how many selectors something is told: as many as an area may have.
const MOST: usize = 4096;

/// Nothing is told.
const UNTOLD: Share = Share::From { place: 0 };

/// What is told of each of some ranges of location areas that follow one another; nothing of any other.
#[derive(Clone, Copy, Debug)]
pub(crate) struct Shares {
    /// The first location area of the first range.
    first: u16,
    /// Each range has 2 to that power of location areas.
    shift: u32,
    shares: [Share; COUNT],
}

/// What is told of a range with one more selector in it, which is the whole of the range, or stands at that place behind
/// the others.
fn with_selector(share: Share, whole: bool, place: u16) -> Share
    ensures { result ≡ with_selector whole share place }
{
    match share {
        Share::Nothing => {
            if whole {
                Share::All
            } else {
                Share::From { place }
            }
        }
        told => told,
    }
}

/// The first location area of selectors in order.
fn first_lac(selectors: &[Selector]) -> u16 {
    match selectors.first() {
        Some(s) => lac_of(*s),
        None => 0,
    }
}

/// The last location area of selectors in order.
fn last_lac(selectors: &[Selector]) -> u16 {
    match selectors.last() {
        Some(s) => lac_of(*s),
        None => 0,
    }
}

/// The least power of 2 with which the ranges reach from the first location area to the last.
fn shift_for(first: u16, last: u16) -> u32 {
    10u32.saturating_sub(last.saturating_sub(first).leading_zeros())
}

impl Shares {
    /// What is told by selectors in order; by very many nothing is, so that they are not looked at.
    pub(crate) fn of(selectors: &[Selector]) -> Shares
        ensures { Tells selectors.now result }
    {
        let first = first_lac(selectors);
        let shift = shift_for(first, last_lac(selectors));
        if selectors.len() > MOST {
            return Shares::alike(first, shift, UNTOLD);
        }
        let mut shares = Shares::alike(first, shift, Share::Nothing);
        for (place, s) in selectors.iter().enumerate() {
            shares.add(*s, place as u16);
        }
        shares
    }

    /// The same of each.
    fn alike(first: u16, shift: u32, share: Share) -> Shares
        ensures { result ≡ record { first = first; shift = shift; shares = replicate 64 share } }
    {
        Shares {
            first,
            shift,
            shares: [share; COUNT],
        }
    }

    /// In which range the location area is, which is the first or comes after it.
    fn range_of(&self, lac: u16) -> usize
        requires { self.now.first ≤ lac }
        ensures { result ≡ range_of self.now lac }
    {
        usize::from((lac - self.first) >> (self.shift % 16))
    }

    /// Whether the selector is all of the range that it is in.
    fn is_whole(&self, s: Selector) -> bool
        ensures { result ≡ is_whole self.now s }
    {
        match s {
            Selector::Lac(_) => self.shift % 16 == 0,
            Selector::Cell(_) => false,
        }
    }

    /// Tells of one more selector too, which stands at that place behind the others.
    fn add(&mut self, s: Selector, place: u16)
        ensures { (l : ℕ) → share_of self.new l ≡ (if are_together self.old (lac_of s) l then with_selector (is_whole self.old s) (share_of self.old l) place else share_of self.old l) }
    {
        let lac = lac_of(s);
        if lac < self.first {
            return;
        }
        let whole = self.is_whole(s);
        let range = self.range_of(lac);
        if range < COUNT {
            self.shares[range] = with_selector(self.shares[range], whole, place);
        }
    }

    /// What is told of the location area.
    pub(crate) fn share(&self, lac: u16) -> Share
        ensures { result ≡ share_of self.now lac }
    {
        if lac < self.first {
            return UNTOLD;
        }
        match self.shares.get(self.range_of(lac)) {
            Some(share) => *share,
            None => UNTOLD,
        }
    }
}
