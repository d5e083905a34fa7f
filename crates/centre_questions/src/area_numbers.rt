//! An area of a warning in a survey.

use common::Name;
use coverage_board::Numbers;

/// An area that a warning names, and the numbers of the cells that it covers.
#[derive(Debug, Drop)]
pub struct AreaNumbers {
    pub name: Name,
    pub numbers: Numbers,
}
