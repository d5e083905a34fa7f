//! An area of a warning in a picture.

use common::Name;
use coverage_board::Numbers;

/// An area of a warning, and the numbers of the cells that it covers.
#[derive(Debug, Drop)]
pub struct AreaBoard {
    pub name: Name,
    pub numbers: Numbers,
}
