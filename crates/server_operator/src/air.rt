//! What a server knows of a warning beside its board.

use lists_text::SilentRow;

/// The cells in which a warning is silent, and since when it is over by its period, in seconds after 1970-01-01T00:00:00Z.
#[derive(Debug, Drop)]
pub struct Air {
    pub silent: Vec<SilentRow>,
    pub over: Option<u64>,
}
