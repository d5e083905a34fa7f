//! From where a BSC may come.

use crate::block::Block;
use cell_register::BscId;

/// A block of addresses that a BSC may come from.
#[derive(Clone, Copy)]
pub struct Peer {
    pub bsc: BscId,
    pub block: Block,
}
