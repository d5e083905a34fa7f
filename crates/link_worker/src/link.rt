//! A link.

use crate::gate::Gate;
use cell_register::BscId;
use office::office::Office;
use std::alloc::Global;
use std::sync::ledger::Ledger;

/// The link of a BSC, by its generation, over an office, and its gate.
#[derive(Drop)]
pub(crate) struct Link<'o, 'g, L: Ledger, G: Gate> {
    pub(crate) alloc: Global,
    pub(crate) office: &'o Office<L>,
    pub(crate) bsc: BscId,
    pub(crate) generation: u64,
    pub(crate) gate: &'g G,
}
