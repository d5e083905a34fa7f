//! What comes of a line.

use crate::leaving::Leaving;
use common::Octets;

/// What comes of a line.
#[derive(Drop)]
pub(crate) enum Heard {
    Left(Leaving),
    Answered(String),
    Listed(Octets),
}
