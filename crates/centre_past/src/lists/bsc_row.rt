//! A BSC, as a list shows it.

use crate::lists::flight_row::FlightRow;
use cell_register::BscId;

/// A registered BSC.
#[derive(Clone, Copy, Debug, PartialEq, Eq)]
pub struct BscRow {
    pub bsc: BscId,
    /// How many cells are registered at it.
    pub cells: usize,
    /// Its link is up.
    pub is_up: bool,
    /// The generation of its latest link; 0 where there was none since it was registered.
    pub last: u64,
    /// What is in flight to it.
    pub flight: Option<FlightRow>,
    /// How many orders are pending for it.
    pub pending: usize,
}
