//! The generation kept for one BSC.

use cell_register::BscId;

/// A BSC, and the generation of its link that the next line about it speaks of.
#[derive(Clone, Copy, Debug)]
pub struct Kept {
    pub bsc: BscId,
    pub generation: u64,
}
