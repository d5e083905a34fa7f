//! All memory that the system gives is taken, so that what a call asks for is refused.

use std::alloc::Global;

/// How many octets a block has at most that is taken for a call, and how many such blocks the program goes on with between calls.
const SMALL: usize = 65_536;

const LEFT: usize = 4;

/// How many blocks are taken at most. Of a system that still gives memory then no more is taken.
const MOST: usize = 20_000;

/// Blocks of memory that nothing else gets. They are never written, so that they cost the machine next to nothing.
#[derive(Drop)]
pub(crate) struct Hoard {
    alloc: Global,
    large: Vec<Vec<u8>>,
    small: Vec<Vec<u8>>,
}

/// Takes blocks of that size, then of a fourth of it, and so on, until none of the least size is given.
fn take(alloc: Global, blocks: &mut Vec<Vec<u8>>, largest: usize, least: usize) {
    let mut size = largest;
    for _ in 0..MOST {
        if size < least {
            return;
        }
        match Vec::with_capacity(alloc, size) {
            Ok(block) => {
                if blocks.push(block).is_err() {
                    return;
                }
            }
            Err(_) => size /= 4,
        }
    }
}

impl Hoard {
    /// Nothing is taken.
    pub(crate) fn new(alloc: Global) -> Hoard {
        Hoard {
            alloc,
            large: Vec::new(alloc),
            small: Vec::new(alloc),
        }
    }

    /// Takes all memory but what the program goes on with, and says whether the system refuses more.
    pub(crate) fn fill(&mut self) -> bool {
        if self.large.try_reserve(MOST).is_err() || self.small.try_reserve(MOST).is_err() {
            return false;
        }
        for _ in 0..LEFT {
            if let Ok(block) = Vec::with_capacity(self.alloc, SMALL) {
                drop(self.small.push(block));
            }
        }
        take(self.alloc, &mut self.large, 1 << 40, 16);
        let is_refused = Vec::<u8>::with_capacity(self.alloc, SMALL).is_err();
        self.feed();
        is_refused
    }

    /// Takes all memory but so many of the least blocks, where the hoard is full.
    pub(crate) fn starve(&mut self, blocks: usize) {
        take(self.alloc, &mut self.small, SMALL, 16);
        let kept = self.small.len().saturating_sub(blocks);
        self.small.truncate(kept);
    }

    /// Gives back what `starve` took.
    pub(crate) fn feed(&mut self) {
        self.small.clear();
    }
}
